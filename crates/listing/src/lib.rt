// The field list: a line for each field, with its number and the byte at which it begins, and a line for what is refused.
#![tactic(auto)]

mod held;
pub mod lines;
pub mod passing;
pub mod refused;
mod spots;

ghost use Rattle.std.specs.Prelude.{MatchOption, ◌≡◌, true, ◌++◌, ◌+◌, ◌*◌, ◌≤◌, length};
ghost use Rattle.rules.specs.Table.{length_allowed, tags};
ghost use Rattle.rules.specs.Front.{front_of};
ghost use Rattle.rules.specs.Listing.{numbered, field_text, spot_after, list_from};
ghost use Rattle.sheet.specs.Overlaid.{Wrote};
ghost use Rattle.listing.specs.Lines.{per_byte, most_line, Counts, front_used, front_text, Takes};

use fields::front_of;
use held::field_text;
use rules::Spot;
use sheet::text::put_number;
use spots::spot_after;

// No line is longer.
pub const MOST_LINE: usize = 165;

// As a field has three bytes or more, no more bytes of lines come of a byte.
pub const PER_BYTE: usize = 55;

// Where the list stands after a field, the place behind its line, and how many bytes it takes.
#[derive(Clone, Copy, Debug, PartialEq, Eq)]
pub struct Listing {
    pub spot: Spot,
    pub next: usize,
    pub used: usize,
}

// Where the list stands after all fields of an input, and the place behind their lines.
#[derive(Clone, Copy, Debug, PartialEq, Eq)]
pub struct Lined {
    pub spot: Spot,
    pub next: usize,
}

// "K OFFSET".
fn put_numbered(out: &mut [u8], at: usize, k: u64, offset: u64) -> usize
    requires { at + 42 ≤ length out.old }
    ensures { Wrote 42 out.old at (numbered k offset) out.new result }
{
    let next = put_number(out, at, k, 32);
    put_number(out, next, offset, 32)
}

// A whole field of an allowed length: its line.
fn list_whole(spot: Spot, tag: u8, v: &[u8], out: &mut [u8], at: usize) -> Listing
    requires { (length_allowed tags tag (length v.now) ≡ true) × (at + most_line ≤ length out.old) × Counts spot (3 + length v.now) }
    ensures used_value { (result.used ≡ 3 + length v.now) × (result.spot ≡ spot_after spot (record { tag = tag; value = v.now })) }
    ensures wrote { Wrote most_line out.old at
        (numbered (spot.fields + 1) spot.offset ++ field_text spot.vehicle (record { tag = tag; value = v.now }))
        out.new result.next }
{
    let text = put_numbered(out, at, spot.fields + 1, spot.offset);
    let next = field_text(out, text, &spot.vehicle[..], tag, v);
    Listing {
        spot: spot_after(spot, tag, v),
        next,
        used: 3 + v.len(),
    }
}

// The field at the front of the input, if a whole one is there: its line.
fn list_one(spot: Spot, input: &[u8], out: &mut [u8], at: usize) -> Option<Listing>
    requires { (at + most_line ≤ length out.old) × Counts spot (length input.now) }
    ensures { MatchOption result
        ((front_used (front_of tags input.now) ≡ 0) × (out.new ≡ out.old))
        (λ x. Takes spot (front_of tags input.now) x.spot x.used × Wrote most_line out.old at (front_text spot (front_of tags input.now)) out.new x.next) }
{
    let Ok(Some(front)) = front_of(input) else {
        return None;
    };
    let value = &input[3..3 + front.size];
    Some(list_whole(spot, front.tag, value, out, at))
}

// The whole fields of the input, one after another: their lines, from the start of out on.
pub fn list_fields(spot: Spot, input: &[u8], out: &mut [u8]) -> Lined
    requires { (per_byte * length input.now + most_line ≤ length out.old) × Counts spot (length input.now) }
    ensures spot_value { result.spot ≡ (list_from spot input.now).spot }
    ensures wrote { Wrote (per_byte * length input.now) out.old 0 (list_from spot input.now).text out.new result.next }
{
    let mut on = spot;
    let mut next = 0;
    let mut used = 0;
    while let Some(x) = list_one(on, &input[used..], out, next) {
        on = x.spot;
        next = x.next;
        used += x.used;
    }
    Lined { spot: on, next }
}
