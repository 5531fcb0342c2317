// What the report of a file says of its ordinates (02, T-11). An ordinate y stands as y + 2^31, a missing one as 0, so that every sum is a number from 0 on.
#![tactic(auto)]

ghost use Rattle.std.specs.Prelude.{◌≡◌, map, ◌*◌, ◌<◌, ◌≤◌, length, take};
ghost use Rattle.std.proofs.Math.IntN.{sub_ℕ};
ghost use Rattle.table_spec.specs.Frame.{ordinate_of};
ghost use Rattle.night_spec.specs.Report.{account_of};
ghost use Rattle.ordinate_tally.specs.Tally.{Bounded};
ghost use Rattle.ordinate_account.specs.Account.{level_from, account_from};

use night_spec::Account;
use ordinate_tally::{Tally, tally_up};

// A sum of so many ordinates, each as y + 2^31, as the sum of the ordinates.
fn lowered(raised: u64, given: u64) -> i64
    requires { (raised < 4611686018427387904) × (given < 2147483648) }
    ensures { result ≡ sub_ℕ raised (given * 2147483648) }
{
    let base = given * 2147483648;
    let v = raised as i64;
    let w = base as i64;
    v - w
}

// A number of the report, of one ordinate or, for a magnitude, of none; 0 for `none`.
fn level_of(raised: u64, given: u64) -> Option<i64>
    requires { (raised < 4294967296) × (given < 2) }
    ensures { result ≡ level_from raised given }
{
    if raised == 0 {
        return None;
    }
    Some(lowered(raised, given))
}

// What the report says of so many points that come to this.
fn account_of(points: u64, t: Tally) -> Account
    requires { Bounded points t × (points ≤ 65536) }
    ensures { result ≡ account_from points t }
{
    let missing = points - t.given;
    let lowest = level_of(t.low, 1);
    let highest = level_of(t.high, 1);
    let sum = lowered(t.raised, t.given);
    let faintest = level_of(t.faint, 0);
    Account {
        points,
        missing,
        lowest,
        highest,
        sum,
        faintest,
    }
}

// What the report says of the first n ordinates of the slice.
pub fn account(ys: &[i32], n: usize) -> Account
    requires { (n ≤ length ys.now) × (n ≤ 65536) }
    ensures { result ≡ account_of (take n (map ordinate_of ys.now)) }
{
    let t = tally_up(ys, n);
    account_of(n as u64, t)
}
