// Document 01: the types that its rules speak of. The definitions are in specs/, their laws in proofs/.
#![tactic(auto)]

ghost use Rattle.std.specs.Prelude.{◌≡◌};
ghost use Rattle.rules.specs.Numbered.{number};

pub mod limits;

// Speed in 0.1 km/h, voltage in 0.1 V, current in 0.1 A, negative while the battery is drained.
#[derive(Clone, Copy, Debug, PartialEq, Eq)]
pub struct Sample {
    pub speed: u16,
    pub voltage: u16,
    pub current: i16,
}

// What a run takes of a sample: its speed, and the product that it draws.
#[derive(Clone, Copy, Debug, PartialEq, Eq)]
pub struct Moment {
    pub speed: u64,
    pub energy: i64,
}

// Speed in 0.1 km/h, time in positions, the allowance in samples.
#[derive(Clone, Copy, Debug, PartialEq, Eq)]
pub struct Tolerances {
    pub speed: u32,
    pub time: u32,
    pub allowance: u32,
}

// The stretches of a shortened run: how many samples M has, and the set speed of E in 0.1 km/h.
#[derive(Clone, Copy, Debug, PartialEq, Eq)]
pub struct Stretches {
    pub length: u32,
    pub speed: u32,
}

// How a run is driven: cycle after cycle, or two cycles, M, two cycles, E.
#[derive(Clone, Copy, Debug, PartialEq, Eq)]
pub enum Method {
    Regular,
    Shortened(Stretches),
}

// How a run has ended.
#[derive(Clone, Copy, Debug, PartialEq, Eq)]
pub enum End {
    None,
    Stop,
    Limit,
}

// Transfer energy before and after the test, in units of 0.25 mJ, and the energy that a recharge took from the mains, in Wh, where the record has it.
#[derive(Clone, Copy, Debug, PartialEq, Eq)]
pub struct Amounts {
    pub before: i64,
    pub after: i64,
    pub charge: Option<u32>,
}

// The closing figures of one run: weighted consumption in mWh/km, range in metres, and the recharge figure in mWh/km, where there is one, or the number
// of its refusal.
#[derive(Clone, Copy, Debug, PartialEq, Eq)]
pub struct Closing {
    pub weighted: u64,
    pub range: u64,
    // Stays: the error is a number, since `sheet::lines::recharge_line` promises the line of every number, and not of 12 and 14 alone.
    pub recharge: Result<Option<u64>, u32>,
}

// What the report prints of a record that was read to its end.
#[derive(Clone, Copy, Debug, PartialEq, Eq)]
pub struct Figures {
    pub vehicle: [u8; 17],
    pub end: End,
    pub counted: u32,
    pub cycles: u32,
    pub outside: i64,
    pub passed: u32,
    pub drawn: i64,
    // Together, or the number of the refusal that stands in place of all.
    // Stays: the error is a number, since `sheet::sheet_lines` takes any `Figures` and promises the line of every number.
    pub closing: Result<Closing, u32>,
}

// Where the field list stands: how many fields it has, the byte behind them, the record's vehicle, and how many own blocks are among the fields.
#[derive(Clone, Copy, Debug, PartialEq, Eq)]
pub struct Spot {
    pub fields: u64,
    pub offset: u64,
    pub vehicle: [u8; 17],
    pub blocks: u64,
}

// What a phase, a cycle or a stretch has of the intervals closed: energy and distance, whether it has one at all, and whether it is finished.
#[derive(Clone, Copy, Debug, PartialEq, Eq)]
pub struct Gathered {
    pub energy: i64,
    pub distance: i64,
    pub begun: bool,
    pub finished: bool,
}

// 'Numbered answers': why something is refused.
#[derive(Clone, Copy, Debug, PartialEq, Eq)]
pub enum Refusal {
    // "ledger, map or cycle room too short, or a number in ledger or state out of bounds"
    Ground,
    Cycle,
    Tolerance,
    Vehicle,
    Sample,
    FirstNumber,
    // "offered, or passed over, would go above 4,000,000"
    Full,
    // "unknown tag, impossible length, wrong mark, tag 6 kind above 1"
    Field,
    Order,
    FewCycles,
    Energy,
    Rate,
    Range,
    Amount,
    Unfinished,
    Stretches,
}

impl Refusal {
    // Its number.
    pub fn number(self) -> u32
        ensures { result ≡ number self }
    {
        match self {
            Refusal::Ground => 1,
            Refusal::Cycle => 2,
            Refusal::Tolerance => 3,
            Refusal::Vehicle => 4,
            Refusal::Sample => 5,
            Refusal::FirstNumber => 6,
            Refusal::Full => 7,
            Refusal::Field => 8,
            Refusal::Order => 9,
            Refusal::FewCycles => 10,
            Refusal::Energy => 11,
            Refusal::Rate => 12,
            Refusal::Range => 13,
            Refusal::Amount => 14,
            Refusal::Unfinished => 15,
            Refusal::Stretches => 19,
        }
    }
}
