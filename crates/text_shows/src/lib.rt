// A value written in full, in the lent bytes (02, T-02). Inner functions: all bytes of the value are lent.
#![tactic(auto)]

ghost use Rattle.std.specs.Prelude.{◌≡◌, ◌+◌, ◌≤◌, ◌<◌, length};
ghost use Rattle.std.proofs.lemmas.List.Edits.{sets};
ghost use Rattle.text_digits.specs.Pairs.{pairs};
ghost use Rattle.text_marks.specs.Shows.{spelled, shown, Based, Stands};

use signed::ZERO_ORDINATE;
use table_text::digits::MISSING;
use text_digits::store_number;
use text_marks::{Marks, mark_width};

// A value up to a place, all of whose bytes are lent. Marks are stored whether they are to be or not: what follows is stored over one that is not.
fn put_spelled(
    t: &[u8; 200],
    out: &mut [u8],
    at: usize,
    next: usize,
    space: bool,
    signed: bool,
    base: u64,
    size: u64,
)
    requires { (t.now ≡ pairs) × Stands space signed base size at next (length out.old) }
    ensures { out.new ≡ sets out.old at (spelled space signed base size) }
{
    let first = mark_width(space);
    let second = mark_width(signed);
    let minus = at + first;
    let lead = minus + second;
    out[at] = b' ';
    out[minus] = b'-';
    let further = next - lead - 1;
    store_number(t, out, lead, base, size, further);
}

// The value that an ordinate is, up to a place, all of whose bytes are lent.
pub fn put_value(t: &[u8; 200], m: Marks, out: &mut [u8], at: usize, next: usize, u: u64)
    requires { (t.now ≡ pairs) × Based m × (u < 4294967296) × (next ≡ at + length (shown m u)) × (next ≤ length out.old) }
    ensures { out.new ≡ sets out.old at (shown m u) }
{
    if ZERO_ORDINATE <= u {
        put_spelled(t, out, at, next, m.up, false, m.plus, u - ZERO_ORDINATE);
        return;
    }
    if u == 0 {
        put_spelled(t, out, at, next, m.gap, false, MISSING, 0);
        return;
    }
    let below = ZERO_ORDINATE - u;
    put_spelled(t, out, at, next, m.down, m.signed, m.minus, below);
}
