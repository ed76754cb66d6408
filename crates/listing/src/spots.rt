// Where the list stands behind a field.
ghost use Rattle.std.specs.Prelude.{◌≡◌, true, cond, ◌+◌, ◌≤◌, eqb, length};
ghost use Rattle.rules.specs.Words.{bit};
ghost use Rattle.rules.specs.Table.{length_allowed, tags};
ghost use Rattle.rules.specs.Listing.{is_own, spot_after};
ghost use Rattle.listing.specs.Lines.{Counts};

use fields::is_same;
use opening::characters_of;
use rules::Spot;

// The vehicle: a field 2 brings it.
fn vehicle_after(me: [u8; 17], tag: u8, v: &[u8]) -> [u8; 17]
    requires { length_allowed tags tag (length v.now) ≡ true }
    ensures { result ≡ cond (eqb tag 2) v.now me }
{
    if tag == 2 {
        return characters_of(v);
    }
    me
}

// 1 where the field is an own block, else 0.
fn own_of(me: &[u8], tag: u8, v: &[u8]) -> u64
    requires { (length_allowed tags tag (length v.now) ≡ true) × (17 ≤ length me.now) }
    ensures { (result ≡ bit (is_own me.now (record { tag = tag; value = v.now }))) × (result ≤ 1) }
{
    if tag != 5 {
        return 0;
    }
    if is_same(me, v) {
        return 1;
    }
    0
}

pub fn spot_after(p: Spot, tag: u8, v: &[u8]) -> Spot
    requires { (length_allowed tags tag (length v.now) ≡ true) × Counts p (3 + length v.now) }
    ensures { result ≡ spot_after p (record { tag = tag; value = v.now }) }
{
    let own = own_of(&p.vehicle[..], tag, v);
    Spot {
        fields: p.fields + 1,
        offset: p.offset + (3 + v.len()) as u64,
        vehicle: vehicle_after(p.vehicle, tag, v),
        blocks: p.blocks + own,
    }
}
