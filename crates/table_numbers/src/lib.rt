// The numbers of values (01, "Values"): a pseudo-digit, a sign, or a digit directly after a blank, and the digits that follow.
#![tactic(auto)]

ghost use Rattle.std.specs.Prelude.{◌≡◌, ◌⊎◌, ◌<◌, ◌≤◌, length};
ghost use Rattle.alphabet_spec.specs.Entries.{entry_at};
ghost use Rattle.table_numbers.specs.Numbers.{«most», Plain, Numbered};

use alphabet::{DIF, KIND, PAST_DIGITS, PLUS, digits, is_blank, is_digit, standing};

// How many digits may follow the pseudo-digit with the entry e: nine, four for DUP, none after @ and %.
fn further(e: u64) -> usize
    ensures { result ≡ most e }
{
    if e < DIF {
        return 4;
    }
    if e % KIND == 0 {
        return 0;
    }
    9
}

// The number of the digits from a place on, at most ten, and the place after it; none if there is no digit, or one too many.
fn plain(s: &[u8], from: usize) -> Option<(u64, usize)>
    requires { from ≤ length s.now }
    ensures { Plain s.now from result }
{
    let r = digits(s, from, 0, 10);
    if is_digit(r.b) {
        return None;
    }
    if r.at == from {
        return None;
    }
    Some((r.v, r.at))
}

// The number of the value at a place whose entry is e, below a point's, and neither `?` nor a blank: a digit directly after a blank, a pseudo-digit or a sign, and the digits that follow; with the
// place after it. None if it is misspelled.
pub fn number(s: &[u8], at: usize, e: u64) -> Option<(u64, usize)>
    requires { (e ≡ entry_at s.now at) × (e < 160) × (0 < at) × (e < 96 ⊎ 128 ≤ e) }
    ensures { Numbered s.now at e result }
{
    if e < PAST_DIGITS {
        if !is_blank(standing(s, at - 1)) {
            return None;
        }
        return plain(s, at);
    }
    let next = at + 1;
    if e >= PLUS {
        return plain(s, next);
    }
    let r = digits(s, next, e % KIND, further(e));
    if is_digit(r.b) {
        return None;
    }
    Some((r.v, r.at))
}
