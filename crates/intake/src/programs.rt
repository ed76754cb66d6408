// What the programs share: the memory that they lend, and record after record from standard input.
ghost use Rattle.std.specs.Prelude.{◌≡◌, ◌<◌, ◌^◌, ℕ, pos, All};

use edges::{Fault, fill_whole};
use rules::limits::{LEDGER_NUMBERS, MAP_WORDS, MOST_BYTES};

// What a program lends to the reading of a record: a buffer for its bytes, the memory of its run, and lines of its own size.
#[derive(Drop)]
pub struct Memory<const LINES: usize> {
    pub buffer: [u8; 4864],
    pub room: [u8; MOST_BYTES],
    pub ledger: [i64; LEDGER_NUMBERS],
    pub map: [u64; MAP_WORDS],
    pub lines: [u8; LINES],
}

impl<const LINES: usize> Memory<LINES> {
    // With zeros everywhere.
    pub fn new() -> Self
        ensures buffer { All (λ byte. byte ≡ 0) result.buffer }
        ensures room { All (λ byte. byte ≡ 0) result.room }
        ensures ledger { All (λ number. number ≡ pos 0) result.ledger }
        ensures map { All (λ word. word ≡ 0) result.map }
        ensures lines { All (λ byte. byte ≡ 0) result.lines }
    {
        Memory {
            buffer: [0; 4864],
            room: [0; MOST_BYTES],
            ledger: [0; LEDGER_NUMBERS],
            map: [0; MAP_WORDS],
            lines: [0; LINES],
        }
    }
}

// How many bytes the next record has, as the four bytes before it say; none where the input ends before.
fn next_length(rt: HostRuntime) -> Option<u32> {
    let mut bytes = [0u8; 4];
    fill_whole(rt, &mut bytes).then(|| u32::from_be_bytes(bytes))
}

// Record after record, each behind its length: the step is given the length, until there is no record more, or the step fails.
pub fn each_record<F: FnMut(u64) -> Result<(), Fault>>(
    rt: HostRuntime,
    mut step: F,
) -> Result<(), Fault>
    requires { (state : F) (n : ℕ) → n < 2 ^ 32 → F.pre state n }
{
    // a proved loop has to end, and nothing says that the input does: no run uses this number up
    for _ in 0..u64::MAX {
        let Some(length) = next_length(rt) else {
            return Ok(());
        };
        step(u64::from(length))?;
    }
    Ok(())
}
