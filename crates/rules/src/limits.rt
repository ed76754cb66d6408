// The limits of document 01, each named once. rules/specs has them as definitions: Bench.antt, Cycle.antt, Shown.antt, Closing.antt.

// "Speed 0..1500 .. Voltage 0..15000 .. Current -10000..10000".
pub const MOST_SPEED: u16 = 1500;

pub const MOST_VOLTAGE: u16 = 15_000;

pub const MOST_CURRENT: i64 = 10_000;

pub const LEAST_CURRENT: i64 = -MOST_CURRENT;

// "A cycle has T seconds, 2 <= T <= 2400 .. and 1 to 4 phases"; "A cycle has 20T positions".
pub const LEAST_SECONDS: u32 = 2;

pub const MOST_SECONDS: u32 = 2400;

pub const MOST_PHASES: usize = 4;

pub const MOST_POSITIONS: u32 = 20 * MOST_SECONDS;

// The bytes of the shortest and of the longest cycle: "9..4811 bytes".
pub const LEAST_BYTES: usize = 1 + 2 + 2 * (LEAST_SECONDS as usize + 1);

pub const MOST_BYTES: usize = 1 + 2 * MOST_PHASES + 2 * (MOST_SECONDS as usize + 1);

// "A run has at most 64 cycles. At most 4,000,000 samples may be offered, and at most 4,000,000 blocks passed over."
pub const MOST_CYCLES: usize = 64;

pub const MOST_OFFERED: u32 = 4_000_000;

pub const MOST_PASSED: u32 = 4_000_000;

// "Tolerances: speed 0..100 (0.1 km/h), time 0..40 positions, allowance 0..1200 samples."
pub const MOST_SPEED_TOLERANCE: u32 = 100;

pub const MOST_TIME_TOLERANCE: u32 = 40;

pub const MOST_ALLOWANCE: u32 = 1200;

// The most that a sample draws, either way; and the most that one share of a run brings, two of each: energy either way, and distance.
pub const MOST_DRAWN: i64 = MOST_VOLTAGE as i64 * MOST_CURRENT;

pub const LEAST_DRAWN: i64 = -MOST_DRAWN;

pub const MOST_SHARE_ENERGY: i64 = 2 * MOST_DRAWN;

pub const MOST_SHARE_DISTANCE: i64 = 2 * MOST_SPEED as i64;

// "a ledger of at least 576 signed 64-bit numbers and a map of at least 750 unsigned 64-bit words".
pub const LEDGER_NUMBERS: usize = 9 * MOST_CYCLES;

pub const MAP_WORDS: usize = MOST_POSITIONS as usize / 64;

// "out of bounds": energy beyond 14.4 × 10^12 either way, distance outside 0..144,000,000, outside count outside 0..48,000, those of a whole cycle.
pub const MOST_ENERGY: i64 = MOST_SHARE_ENERGY * MOST_POSITIONS as i64;

pub const LEAST_ENERGY: i64 = -MOST_ENERGY;

pub const MOST_DISTANCE: i64 = MOST_SHARE_DISTANCE * MOST_POSITIONS as i64;

pub const MOST_OUTSIDE: i64 = MOST_POSITIONS as i64;

// Rows 0 to 63 are the cycles of the ledger; behind them stand the stretches M and E of the shortened method.
pub const ROW_M: usize = MOST_CYCLES;

pub const ROW_E: usize = ROW_M + 1;

// "the run stops at the 80th consecutive sample below".
pub const MOST_BELOW: u64 = 80;

// The most that M or E can bring, of as many intervals as samples may be offered: energy either way, and distance.
pub const MOST_STRETCH_ENERGY: i64 = MOST_SHARE_ENERGY * MOST_OFFERED as i64;

pub const LEAST_STRETCH_ENERGY: i64 = -MOST_STRETCH_ENERGY;

pub const MOST_STRETCH_DISTANCE: u64 = MOST_SHARE_DISTANCE as u64 * MOST_OFFERED as u64;

// "Weights are by formula 13, with n = 4": as many cycles are finished where a run is closed, and three in the regular method.
pub const LEAST_FINISHED: usize = 3;

pub const LEAST_SHORTENED: usize = 4;

// Field 6: "within 10^13 either way"; doubled on reading.
pub const MOST_TRANSFER_IN: i64 = 10_000_000_000_000;

pub const LEAST_TRANSFER_IN: i64 = -MOST_TRANSFER_IN;

pub const MOST_TRANSFER: i64 = 2 * MOST_TRANSFER_IN;

pub const LEAST_TRANSFER: i64 = -MOST_TRANSFER;

// "recharge in Wh (4), 1..2,000,000"; "some q_c outside 1..10,000,000, or recharge figure above 10,000,000".

pub const MOST_CHARGE: u32 = 2_000_000;

pub const MOST_RATE: u64 = 10_000_000;
