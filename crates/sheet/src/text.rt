// Bytes and numbers written from a place on. Each function answers the place after what it wrote.
// A number takes at most 20 bytes, its sign one more.
ghost use Rattle.std.specs.Prelude.{◌≡◌, ◌++◌, ◌∷◌, [], ◌+◌, ◌≤◌, nat_abs, length};
ghost use Rattle.sheet.specs.Overlaid.{Wrote};
ghost use Rattle.rules.specs.Text.{digits, signed};

fn put(out: &mut [u8], at: usize, text: &[u8]) -> usize
    requires { at + length text.now ≤ length out.old }
    ensures { Wrote (length text.now) out.old at text.now out.new result }
{
    for i in 0..text.len() {
        out[at + i] = text[i];
    }
    at + text.len()
}

// The text, and the byte `last`.
pub fn put_text(out: &mut [u8], at: usize, text: &[u8], last: u8) -> usize
    requires { at + length text.now + 1 ≤ length out.old }
    ensures { Wrote (length text.now + 1) out.old at (text.now ++ last ∷ []) out.new result }
{
    let end = put(out, at, text);
    out[end] = last;
    end + 1
}

fn put_digits(out: &mut [u8], at: usize, n: u64) -> usize
    requires { at + length (digits n) ≤ length out.old }
    ensures { Wrote (length (digits n)) out.old at (digits n) out.new result }
{
    if n < 10 {
        out[at] = 48 + (n as u8);
        return at + 1;
    }
    let next = put_digits(out, at, n / 10);
    out[next] = 48 + ((n % 10) as u8);
    next + 1
}

// The digits of n, and the byte `last`.
pub fn put_number(out: &mut [u8], at: usize, n: u64, last: u8) -> usize
    requires { at + 21 ≤ length out.old }
    ensures { Wrote 21 out.old at (digits n ++ last ∷ []) out.new result }
{
    let next = put_digits(out, at, n);
    out[next] = last;
    next + 1
}

// A number of either sign, and the byte `last`.
pub fn put_signed(out: &mut [u8], at: usize, z: i64, last: u8) -> usize
    requires { at + 22 ≤ length out.old }
    ensures { Wrote 22 out.old at (signed z ++ last ∷ []) out.new result }
{
    let n = z.unsigned_abs();
    if z < 0 {
        out[at] = 45;
        return put_number(out, at + 1, n, last);
    }
    put_number(out, at, n, last)
}
