// What ordinates come to (02, T-11), gone over once. An ordinate y stands as y + 2^31, a missing one as 0, so that every sum is a number from 0 on.
#![tactic(auto)]

ghost use Rattle.std.specs.Prelude.{◌≡◌, map, ◌<◌, ◌≤◌, length, take};
ghost use Rattle.table_spec.specs.Frame.{ordinate_of};
ghost use Rattle.ordinate_tally.specs.Tally.{less_of, faint_of, with_ordinate, Tallied};

// What ordinates come to: how many are not missing and what they add up to, each as y + 2^31; the lowest and the highest of them and the faintest magnitude, 0 for none.
#[derive(Clone, Copy)]
pub struct Tally {
    pub given: u64,
    pub raised: u64,
    pub low: u64,
    pub high: u64,
    pub faint: u64,
}

// The lesser of a number and one that came before, if any did.
fn less_of(low: u64, u: u64) -> u64
    ensures { result ≡ less_of low u }
{
    if low == 0 { u } else { low.min(u) }
}

// The faintest magnitude, with one ordinate more; zero has none that counts.
fn faint_of(faint: u64, u: u64) -> u64
    ensures { result ≡ faint_of faint u }
{
    if u == 2147483648 {
        faint
    } else {
        less_of(faint, frame::distance(u, 2147483648))
    }
}

// One ordinate more; a missing one adds nothing.
#[tactic(auto, unfolding(crate::specs::Tally::with_ordinate))]
fn tallied(t: Tally, u: u64) -> Tally
    requires { (t.given < 65536) × (t.raised < 281474976710656) × (u < 4294967296) }
    ensures { result ≡ with_ordinate t u }
{
    if u == 0 {
        return t;
    }
    let given = t.given + 1;
    let raised = t.raised + u;
    let low = less_of(t.low, u);
    let high = t.high.max(u);
    let faint = faint_of(t.faint, u);
    Tally {
        given,
        raised,
        low,
        high,
        faint,
    }
}

// The first n ordinates of the slice, from the last to the first.
pub fn tally_up(ys: &[i32], n: usize) -> Tally
    requires { (n ≤ length ys.now) × (n ≤ 65536) }
    ensures { Tallied n (take n (map ordinate_of ys.now)) result }
{
    let mut t = Tally {
        given: 0,
        raised: 0,
        low: 0,
        high: 0,
        faint: 0,
    };
    for k in (0..n).rev() {
        t = tallied(t, signed::ordinate_at(ys, k));
    }
    t
}
