// What a value stands for (01, "Meaning"), for the plain engine (02, T-14): no byte and no slice is named here. An ordinate is y + 2^31, and 0 a missing one.
#![tactic(auto)]

ghost use Rattle.std.specs.Prelude.{◌≡◌, false, ◌⊎◌, ◌+◌, ◌<◌, ◌≤◌};
ghost use Rattle.table_spec.specs.Values.{own, by, times, By, is_dif};
ghost use Rattle.table_numbers.specs.Numbers.{value_at, below};
ghost use Rattle.plain_values.specs.Means.{form_of, Right, Means, After, Anywhere, missing_one, same_again};

use alphabet::{DIF, DIF_MINUS, KIND};
use signed::ZERO_ORDINATE;
use table_ordinates::{moved_by, shifted};
use terms::Reason;

// The form of the value before (01, "A DUP has the form of what it repeats"): an ordinate of its own; a missing one; a difference, minus or not, and its size; or a DUP, of a difference or not.
#[derive(Clone, Copy)]
pub enum Form {
    Own,
    Missing,
    Dif(bool, u64),
    Dup(bool),
}

// The ordinates that a value stands for: n of them, each a difference from the one before, the first from q; the last one, and the form.
// The sign first: within an answer that may be a fault it then takes the place of one of that fault's numbers, and the compiler copies it whole; further on it copied the bytes beside it one by one.
#[derive(Clone, Copy)]
pub struct Points {
    pub minus: bool,
    pub q: u64,
    pub d: u64,
    pub n: usize,
    pub last: u64,
    pub form: Form,
}

// Is a form DIF?
pub fn is_dif(form: Form) -> bool
    ensures { result ≡ is_dif (form_of form) }
{
    match form {
        Form::Own => false,
        Form::Missing => false,
        Form::Dif(_, _) => true,
        Form::Dup(b) => b,
    }
}

// A missing ordinate.
pub fn missing_point() -> Points
    ensures { result ≡ missing_one }
{
    Points {
        q: 0,
        minus: false,
        d: 0,
        n: 1,
        last: 0,
        form: Form::Missing,
    }
}

// An ordinate of its own: one step of its size from 0.
fn own_points(minus: bool, v: u64) -> Result<Points, Reason>
    ensures { Anywhere (own minus v) result }
{
    if v > 2147483647 {
        return Err(Reason::OutOfRange);
    }
    let last = moved_by(ZERO_ORDINATE, minus, v);
    Ok(Points {
        q: ZERO_ORDINATE,
        minus,
        d: v,
        n: 1,
        last,
        form: Form::Own,
    })
}

// A difference after the ordinate q: none after a missing one.
fn dif_points(q: u64, minus: bool, v: u64) -> Result<Points, Reason>
    requires { (q < 4294967296) × (v < 10000000000) }
    ensures { After q (by minus v) result }
{
    if q == 0 {
        return Err(Reason::Misplaced);
    }
    let last = shifted(q, minus, v);
    if last == 0 {
        return Err(Reason::OutOfRange);
    }
    Ok(Points {
        q,
        minus,
        d: v,
        n: 1,
        last,
        form: Form::Dif(minus, v),
    })
}

// The ordinate q again, n times.
fn same_points(q: u64, n: usize) -> Result<Points, Reason>
    ensures { result ≡ same_again q n }
{
    Ok(Points {
        q,
        minus: false,
        d: 0,
        n,
        last: q,
        form: Form::Dup(false),
    })
}

// n further steps of a difference from the ordinate q: the difference is repeated, not the ordinate. All of them are in range if the last one is.
fn step_points(q: u64, minus: bool, d: u64, n: usize) -> Result<Points, Reason>
    requires { (0 < q) × (q < 4294967296) × (d < 10000000000) × (1 ≤ n) × (n < 100000) }
    ensures { Means q (By minus d) (times (n + 1)) result }
{
    let far = d * n as u64;
    let last = shifted(q, minus, far);
    if last == 0 {
        return Err(Reason::OutOfRange);
    }
    Ok(Points {
        q,
        minus,
        d,
        n,
        last,
        form: Form::Dup(true),
    })
}

// A DUP with the count v, after a value of the form whose ordinate is q (01, "c is at least 2"; "DUP does not follow DUP").
fn dup_points(q: u64, form: Form, v: u64) -> Result<Points, Reason>
    requires { (q < 4294967296) × Right form q × (v < 100000) }
    ensures { Means q (form_of form) (times v) result }
{
    if v < 2 {
        return Err(Reason::Misplaced);
    }
    let n = (v - 1) as usize;
    match form {
        Form::Own => same_points(q, n),
        Form::Missing => same_points(q, n),
        Form::Dif(minus, d) => step_points(q, minus, d, n),
        Form::Dup(_) => Err(Reason::Misplaced),
    }
}

// The value whose first byte has the entry e and whose number is v, after a value of the form whose ordinate is q.
pub fn stands_for(q: u64, form: Form, e: u64, v: u64) -> Result<Points, Reason>
    requires { (q < 4294967296) × Right form q × (e < 160) × (e < 96 ⊎ 128 ≤ e) × (v < below e) }
    ensures { Means q (form_of form) (value_at e v) result }
{
    let kind = e / KIND;
    if kind == 1 {
        return dup_points(q, form, v);
    }
    if e / DIF == 1 {
        return dif_points(q, e >= DIF_MINUS, v);
    }
    own_points(kind % 4 == 1, v)
}
