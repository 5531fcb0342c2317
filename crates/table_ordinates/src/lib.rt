// Ordinates that move by differences, and are stored in the lent slice (01, "Meaning"). An ordinate is y + 2^31, and 0 a missing one.
#![tactic(auto)]

ghost use Rattle.std.specs.Prelude.{◌≡◌, map, ◌+◌, ◌<◌, ◌≤◌, set};
ghost use Rattle.std.proofs.lemmas.List.Edits.{sets};
ghost use Rattle.table_spec.specs.Frame.{entry_for};
ghost use Rattle.table_spec.specs.Values.{By, copies, moved};
ghost use Rattle.table_ordinates.specs.Reach.{shifted_to, Reaches};

use signed::{PAST_ORDINATES, entry_for};

// An ordinate and a difference, where the sum is one.
pub fn moved_by(q: u64, minus: bool, v: u64) -> u64
    requires { Reaches minus v 1 q }
    ensures { result ≡ moved minus v q }
{
    if minus { q - v } else { q + v }
}

// An ordinate and a difference, where both sums are ones. Both are made, and the sign picks one: no processor can foresee a jump on it.
pub fn turned(q: u64, minus: bool, v: u64) -> u64
    requires { (v ≤ q) × (q < 4294967296) }
    ensures { result ≡ moved minus v q }
{
    let up = q + v;
    let down = q - v;
    if minus { down } else { up }
}

// So much higher an ordinate stands while a difference moves it: no difference is larger.
const RAISED: u64 = 1000000000000000;

// An ordinate and a difference, or 0 if that is no ordinate. The sign picks one of both sums, as above.
pub fn shifted(q: u64, minus: bool, v: u64) -> u64
    requires { (q < 4294967296) × (v < 1000000000000000) }
    ensures { result ≡ shifted_to minus v q }
{
    let up = RAISED + q + v;
    let down = RAISED + q - v;
    let u = if minus { down } else { up };
    if (RAISED..RAISED + PAST_ORDINATES).contains(&u) {
        u - RAISED
    } else {
        0
    }
}

// Stores an ordinate, if there is room for it.
pub fn put(out: &mut [i32], k: usize, u: u64)
    requires { u < 4294967296 }
    ensures { out.new ≡ set out.old k (entry_for u) }
{
    if k < out.len() {
        out[k] = entry_for(u);
    }
}

// Stores n ordinates, each a step from the one before. With no room for the first it is done: the checking pass has none to give.
pub fn repeat(out: &mut [i32], k: usize, q: u64, minus: bool, d: u64, n: usize)
    requires { (k + n ≤ 200000) × (q < 4294967296) × Reaches minus d n q }
    ensures { out.new ≡ sets out.old k (map entry_for (copies n (By minus d) q)) }
{
    if k >= out.len() {
        return;
    }
    let mut u = q;
    for i in k..k + n {
        u = moved_by(u, minus, d);
        put(out, i, u);
    }
}
