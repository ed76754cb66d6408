// Small functions on numbers and bytes whose types carry their bounds.
#![tactic(auto)]

ghost use Rattle.std.specs.Prelude.{◌≡◌, ◌+◌, ◌-◌, ◌*◌, ◌<◌, min, max, length};
ghost use Rattle.std.specs.Int.{w16, w64};
ghost use Rattle.std.proofs.Common.{to_z};
ghost use Rattle.rules.specs.Words.{be};

// Stays: std has it as a method, but the theorem `smaller_one_answer`, which docs/PROMISES.md names, is about it.
pub fn smaller(a: u32, b: u32) -> u32
    ensures { result ≡ min a b }
{
    a.min(b)
}

// Stays: std has it as a method, but the theorem `larger_one_answer`, which docs/PROMISES.md names, is about it.
pub fn larger(a: u32, b: u32) -> u32
    ensures { result ≡ max a b }
{
    a.max(b)
}

// a - b, or 0 where that is below 0.
// Stays: std has it as a method, but the theorem `less_one_answer`, which docs/PROMISES.md names, is about it.
pub fn less(a: u32, b: u32) -> u32
    ensures { result ≡ a - b }
{
    a.saturating_sub(b)
}

// Stays: std has it as a method, but the theorem `wide_one_answer`, which docs/PROMISES.md names, is about it.
pub fn wide(x: u8) -> usize
    ensures { result ≡ x }
{
    usize::from(x)
}

// Stays: std has it as a method, but the theorem `pair_one_answer`, which docs/PROMISES.md names, is about it.
pub fn pair(high: u8, low: u8) -> u16
    ensures { result ≡ 256 * high + low }
{
    u16::from_be_bytes([high, low])
}

// The two-byte number at place i.
// Stays: a function for each size, since `from_be_bytes` is a method of each type, which no const parameter chooses.
#[tactic(auto, unfolding(rules::specs::Words::be))]
pub fn read16(b: &[u8], i: usize) -> u16
    requires { i + 1 < length b.now }
    ensures { result ≡ be 2 b.now i }
{
    pair(b[i], b[i + 1])
}

// The four-byte number at place i.
#[tactic(auto, unfolding(rules::specs::Words::be))]
pub fn read32(b: &[u8], i: usize) -> u32
    requires { i + 3 < length b.now }
    ensures { result ≡ be 4 b.now i }
{
    u32::from_be_bytes([b[i], b[i + 1], b[i + 2], b[i + 3]])
}

// The eight-byte number at place i.
#[tactic(auto, unfolding(rules::specs::Words::be))]
pub fn read64(b: &[u8], i: usize) -> u64
    requires { i + 7 < length b.now }
    ensures { result ≡ be 8 b.now i }
{
    u64::from_be_bytes([
        b[i],
        b[i + 1],
        b[i + 2],
        b[i + 3],
        b[i + 4],
        b[i + 5],
        b[i + 6],
        b[i + 7],
    ])
}

// Two bytes as a number of either sign, two's complement.
// Stays: a function for each size, as above.
pub fn signed16(x: u16) -> i16
    ensures { result ≡ to_z w16 x }
{
    u16::cast_signed(x)
}

// Eight bytes as a number of either sign, two's complement.
pub fn signed64(x: u64) -> i64
    ensures { result ≡ to_z w64 x }
{
    u64::cast_signed(x)
}
