// The alphabet of a table (01, "Values"): the entry of what stands at a place, and the loops that read digits: under a limit that comes with the call, or under one that the compiler knows.
#![tactic(auto)]

ghost use Rattle.std.specs.Prelude.{◌≡◌, ◌+◌, ◌*◌, ◌^◌, ◌<◌, ◌≤◌, length};
ghost use Rattle.alphabet_spec.specs.Entries.{entry_at};
ghost use Rattle.alphabet.specs.Ran.{RunEnd, Ran, Few};
ghost use Rattle.alphabet.specs.Standing.{«standing», blanking};
ghost use Rattle.alphabet_spec.specs.Digits.{within};
// Entries of bytes, passed on.
use byte_entry::wide;
pub use byte_entry::{
    BLANK, CR, DIF, DIF_MINUS, DOLLAR, KIND, LF, MINUS, MISSING, PAST_DIGITS, PLUS, POINT, entry_of,
};

// What stands at the end of the text: no byte has this entry. Entries are numbers and no enum: `alphabet_spec` Entries, which may not change, defines `entry_at` by them.
pub const END: u64 = 256;

// A run of digits: its number, the place after it, and the byte that stands there, END at the end of the text.
#[derive(Clone, Copy)]
pub struct Run {
    pub v: u64,
    pub at: usize,
    pub b: u64,
}

// The entry of the byte at a place, END at the end of the text.
pub fn entry_at(s: &[u8], i: usize) -> u64
    ensures { result ≡ entry_at s.now i }
{
    if i < s.len() { entry_of(s[i]) } else { END }
}

// The byte at a place, END at the end of the text.
#[tactic(auto, unfolding(crate::specs::Standing::standing))]
pub fn standing(s: &[u8], i: usize) -> u64
    ensures { result ≡ standing s.now i }
{
    if i < s.len() { wide(s[i]) } else { END }
}

// The byte at a place within the text: no end is asked for.
pub fn standing_in(s: &[u8], i: usize) -> u64
    requires { i < length s.now }
    ensures { result ≡ standing s.now i }
{
    wide(s[i])
}

// Is the byte that stands there a digit?
pub fn is_digit(b: u64) -> bool
    ensures { result ≡ within 48 10 b }
{
    b >= 48 && b < 58
}

// Is the byte that stands there a blank? A tab is none (02, T-13).
pub fn is_blank(b: u64) -> bool
    ensures { result ≡ blanking b }
{
    b == 32
}

// The entry of what stands at a place. A digit is asked for first: it needs no ranges.
pub fn entry_there(s: &[u8], at: usize) -> u64
    ensures { result ≡ entry_at s.now at }
{
    let b = standing(s, at);
    if is_digit(b) { b - 48 } else { entry_at(s, at) }
}

// Where a run of so many digits ends at the latest, in a text of n bytes: at the end of the text, if that is nearer.
fn run_end(n: usize, from: usize, most: usize) -> usize
    requires { from ≤ n }
    ensures { RunEnd n from most result }
{
    from + most.min(n - from)
}

// The digits from a place on, after the number v: at most `most` of them are taken, and as many as there are up to that (01, "A digit run is always as long as it can be"). One test in the
// loop holds both the limit and the end of the text.
pub fn digits(s: &[u8], from: usize, v: u64, most: usize) -> Run
    requires { (from ≤ length s.now) × ((v + 1) * 10 ^ most ≤ 10000000000000000000) }
    ensures { Ran s.now from v most result.v result.at (entry_at s.now result.at) × (result.b ≡ standing s.now result.at) }
{
    let end = run_end(s.len(), from, most);
    let mut w = v;
    for i in from..end {
        let b = standing_in(s, i);
        if !is_digit(b) {
            return Run { v: w, at: i, b };
        }
        w = w * 10 + (b - 48);
    }
    let b = standing(s, end);
    Run { v: w, at: end, b }
}

// The same where more bytes stand than may be taken, for a limit that the compiler knows and unrolls the loop for: no end of the text is asked for.
pub fn digits_in(s: &[u8], from: usize, v: u64, most: usize) -> Run
    requires { (from + most < length s.now) × ((v + 1) * 10 ^ most ≤ 10000000000000000000) }
    ensures { Ran s.now from v most result.v result.at (entry_at s.now result.at) × (result.b ≡ standing s.now result.at) }
{
    let end = from + most;
    let mut w = v;
    for i in from..end {
        let b = standing_in(s, i);
        if !is_digit(b) {
            return Run { v: w, at: i, b };
        }
        w = w * 10 + (b - 48);
    }
    let b = standing_in(s, end);
    Run { v: w, at: end, b }
}

// At most three digits from a place on, after the number v, where four bytes stand: without a loop, and no end of the text is asked for. The number does not fall.
pub fn few_digits(s: &[u8], from: usize, v: u64) -> Run
    requires { (from + 4 ≤ length s.now) × (v < 10) }
    ensures { Few s.now from v result.v result.at result.b }
{
    let x = standing_in(s, from);
    if !is_digit(x) {
        return Run { v, at: from, b: x };
    }
    let one = v * 10 + (x - 48);
    let second = from + 1;
    let y = standing_in(s, second);
    if !is_digit(y) {
        return Run {
            v: one,
            at: second,
            b: y,
        };
    }
    let two = one * 10 + (y - 48);
    let third = second + 1;
    let z = standing_in(s, third);
    if !is_digit(z) {
        return Run {
            v: two,
            at: third,
            b: z,
        };
    }
    let three = two * 10 + (z - 48);
    let end = third + 1;
    let b = standing_in(s, end);
    Run {
        v: three,
        at: end,
        b,
    }
}
