// The lines of phases, cycles and stretches, each written from a place on. Each function answers the place after what it wrote.
ghost use Rattle.std.specs.Prelude.{◌≡◌, true, ◌&&◌, ◌||◌, ◌++◌, ◌+◌, ◌≤◌, ◌<◌, suc, pos, length};
ghost use Rattle.std.specs.Int.Signed.{le_z};
ghost use Rattle.rules.specs.Words.{up, spell};
ghost use Rattle.rules.specs.Closing.{rate};
ghost use Rattle.rules.specs.Text.{digits, spaced, ended};
ghost use Rattle.rules.specs.Trace.{finished_word, gathered_text, phase_line, rate_text, row_line, stretch_line};
ghost use Rattle.numbers.specs.Whole.{Sized};
ghost use Rattle.sheet.specs.Overlaid.{Wrote};
ghost use Rattle.traces.specs.Bounds.{most_place, most_rated};

use rules::Gathered;
use sheet::lines::number_line;
use sheet::text::{put_number, put_signed, put_text};

// "energy X distance Y".
fn gathered_text(out: &mut [u8], at: usize, g: Gathered) -> usize
    requires { at + 60 ≤ length out.old }
    ensures { Wrote 60 out.old at (gathered_text g) out.new result }
{
    let word = put_text(out, at, b"energy", 32);
    let next = put_signed(out, word, g.energy, 32);
    let name = put_text(out, next, b"distance", 32);
    put_signed(out, name, g.distance, 32)
}

// "finished|open", to the end of the line.
fn finished_word(out: &mut [u8], at: usize, finished: bool) -> usize
    requires { at + 9 ≤ length out.old }
    ensures { Wrote 9 out.old at (ended (finished_word finished)) out.new result }
{
    if finished {
        return put_text(out, at, b"finished", 10);
    }
    put_text(out, at, b"open", 10)
}

// "phase C K energy X distance Y finished|open", where the phase has begun; c and k count from 0.
pub fn phase_line(out: &mut [u8], at: usize, c: u64, k: u64, g: Gathered) -> usize
    requires { (at + 117 ≤ length out.old) × (c ≤ most_place) × (k ≤ most_place) }
    ensures { Wrote 117 out.old at (phase_line c k g) out.new result }
{
    if !g.begun {
        return at;
    }
    let word = put_text(out, at, b"phase", 32);
    let cycle = put_number(out, word, c + 1, 32);
    let phase = put_number(out, cycle, k + 1, 32);
    let next = gathered_text(out, phase, g);
    finished_word(out, next, g.finished)
}

// "Q where it is finished, X >= 1 and Y >= 1".
fn has_rate(g: Gathered) -> bool
    ensures { result ≡ (g.finished && le_z (pos 1) g.energy && le_z (pos 1) g.distance) }
{
    g.finished && 1 <= g.energy && 1 <= g.distance
}

// "floor(100 X / Y)".
fn rate_of(energy: i64, distance: i64) -> u64
    requires { (le_z (pos 1) energy ≡ true) × (le_z (pos 1) distance ≡ true) × Sized most_rated energy }
    ensures { result ≡ rate (up energy) (up distance) }
{
    100 * (energy as u64) / (distance as u64)
}

// "finished|open [rate Q]".
fn rate_text(out: &mut [u8], at: usize, g: Gathered) -> usize
    requires { (at + 41 ≤ length out.old) × Sized most_rated g.energy }
    ensures { Wrote 41 out.old at (rate_text g) out.new result }
{
    if !has_rate(g) {
        return finished_word(out, at, g.finished);
    }
    let q = rate_of(g.energy, g.distance);
    let next = put_text(out, at, b"finished", 32);
    number_line(out, next, b"rate", q)
}

// "cycle C energy X distance Y".
fn row_text(out: &mut [u8], at: usize, c: u64, g: Gathered) -> usize
    requires { (at + 87 ≤ length out.old) × (c ≤ most_place) }
    ensures { Wrote 87 out.old at (spaced (spell "cycle") ++ spaced (digits (suc c)) ++ gathered_text g) out.new result }
{
    let word = put_text(out, at, b"cycle", 32);
    let next = put_number(out, word, c + 1, 32);
    gathered_text(out, next, g)
}

// "each cycle in which a share is closed or a sample is outside".
fn is_shown(begun: bool, outside: i64) -> bool
    ensures { result ≡ (begun || le_z (pos 1) outside) }
{
    begun || 1 <= outside
}

// "cycle C energy X distance Y outside O finished|open [rate Q]", where it is shown; c counts from 0.
pub fn row_line(out: &mut [u8], at: usize, c: u64, g: Gathered, outside: i64) -> usize
    requires { (at + 158 ≤ length out.old) × (c ≤ most_place) × Sized most_rated g.energy }
    ensures { Wrote 158 out.old at (row_line c g outside) out.new result }
{
    if !is_shown(g.begun, outside) {
        return at;
    }
    let text = row_text(out, at, c, g);
    let word = put_text(out, text, b"outside", 32);
    let next = put_signed(out, word, outside, 32);
    rate_text(out, next, g)
}

// "stretch M|E energy X distance Y finished|open", where the stretch has begun; the name is M or E.
pub fn stretch_line(out: &mut [u8], at: usize, name: &[u8], g: Gathered) -> usize
    requires { (at + 79 ≤ length out.old) × (length name.now ≤ 1) }
    ensures { Wrote 79 out.old at (stretch_line name.now g) out.new result }
{
    if !g.begun {
        return at;
    }
    let word = put_text(out, at, b"stretch", 32);
    let text = put_text(out, word, name, 32);
    let next = gathered_text(out, text, g);
    finished_word(out, next, g.finished)
}
