// Differences that stand alone, as most points of most tables do, in one short loop over a line (01, "The written text"), without a jump on a sign or on how many digits there are. Inner functions.
#![tactic(auto)]

ghost use Rattle.std.specs.Prelude.{◌≡◌, true, ◌+◌, ◌-◌, ◌*◌, ◌^◌, ◌≤◌, ◌<◌, length, get_or};
ghost use Rattle.std.proofs.lemmas.List.Edits.{sets};
ghost use Rattle.table_spec.specs.Frame.{apart};
ghost use Rattle.table_text.specs.Digits.{further};
ghost use Rattle.table_text.specs.Pieces.{number, ordinates};
ghost use Rattle.text_digits.specs.Pairs.{pairs};
ghost use Rattle.text_tokens.specs.Tokens.{lone};
ghost use Rattle.text_openings.specs.Lines.{Countable, difference_state};
ghost use Rattle.text_differences.specs.Small.{scales, four, Over, Scales};
ghost use Rattle.text_differences.specs.Stored.{Stored};

use frame::{Frame, distance};
use signed::ordinate_at;
use table_text::digits::{DIGIT, small_further};
use text_digits::{ones, tens};
use text_openings::State;
use text_tokens::base_of;

// What makes a number of one digit, of two, three or four one of four digits. Lent as the pairs of digits are.
pub const SCALES: [u32; 4] = [1000, 100, 10, 1];

// The bytes of the DIF for y after p, whose number is v, if it stands alone before z and has at most four digits; else more than a line has.
fn quick_width(p: u64, y: u64, z: u64, v: u64) -> usize
    requires { (p < 4294967296) × (y < 4294967296) × (z < 4294967296) × (v ≡ apart p y) }
    ensures { (result ≤ 81) × (result ≤ 80 → (result ≡ lone p y z) × (result ≡ 1 + further 9 v) × (v < 10000)) }
{
    if y == 0 || p + z == y + y || 9999 < v {
        return 81;
    }
    1 + small_further(v)
}

// Four digits, the first written as `base` plus the digit.
fn store_four(t: &[u8; 200], out: &mut [u8], at: usize, base: u64, w: u32)
    requires { (t.now ≡ pairs) × (base ≤ 105) × (w < 10000) × (at + 3 < length out.old) }
    ensures { out.new ≡ sets out.old at (four base w) }
{
    let high = w / 100;
    let low = w % 100;
    let first = tens(t, high);
    let second = ones(t, high);
    let third = tens(t, low);
    let fourth = ones(t, low);
    let lead = (base + first as u64 - DIGIT) as u8;
    out[at] = lead;
    out[at + 1] = second;
    out[at + 2] = third;
    out[at + 3] = fourth;
}

// A number of at most four digits, n of them after the first, moved to the left until it has four.
fn scaled(k: &[u32; 4], v: u64, n: usize) -> u32
    requires { (k.now ≡ scales) × (v < 10000) × (n ≡ further 9 v) }
    ensures { (result ≡ v * get_or scales (further 9 v) 0) × (result < 10000) }
{
    let scale = k[n];
    v as u32 * scale
}

// A number of at most four digits in four bytes, of which those after its digits are to be stored over.
fn put_small(t: &[u8; 200], k: &[u32; 4], out: &mut [u8], at: usize, base: u64, v: u64, n: usize)
    requires { Scales t.now k.now × (base ≤ 105) × (v < 10000) × (n ≡ further 9 v) × (at + 3 < length out.old) }
    ensures { Over out.old at out.new (number base v) }
{
    let w = scaled(k, v, n);
    store_four(t, out, at, base, w);
}

// The state after differences on one line: i points given, the last of them p, the line's bytes so far.
pub fn state_after(s: State, i: usize, p: u64, column: usize) -> State
    requires { (s.column ≤ column) × (column ≤ 2 ^ 59) × (s.at < 2 ^ 59) }
    ensures { result ≡ difference_state s i p column }
{
    State {
        given: i,
        at: s.at + (column - s.column),
        column,
        last: p,
        dif: true,
    }
}

// Points in DIF form without DUP, of at most four digits, after one in DIF form, as long as they fit on the line. The line is lent, and three bytes after it.
fn put_lone(t: &[u8; 200], k: &[u32; 4], ys: &[i32], out: &mut [u8], s: State) -> State
    requires { Scales t.now k.now × Countable (2 ^ 58) ys.now s × (s.given < length ys.now) × (s.dif ≡ true) × (0 < s.last) × (s.at - s.column + 83 ≤ length out.old) }
    ensures { Stored (ordinates ys.now) s out.old out.new result × (result.given < length ys.now) }
{
    let line = s.at - s.column;
    let mut p = s.last;
    let mut column = s.column;
    let mut y = ordinate_at(ys, s.given);
    for next in s.given + 1..ys.len() {
        let z = ordinate_at(ys, next);
        let v = distance(p, y);
        let width = quick_width(p, y, z, v);
        let all = column + width;
        if all > Frame::LONGEST_LINE {
            return state_after(s, next - 1, p, column);
        }
        let base = base_of(p, y);
        put_small(t, k, out, line + column, base, v, width - 1);
        p = y;
        column = all;
        y = z;
    }
    state_after(s, ys.len() - 1, p, column)
}

// The same from any state: nothing is done where the last value is not in DIF form, or the line is not lent with three bytes after it.
pub fn put_differences(t: &[u8; 200], k: &[u32; 4], ys: &[i32], out: &mut [u8], s: State) -> State
    requires { Scales t.now k.now × Countable (2 ^ 58) ys.now s × (s.given < length ys.now) }
    ensures { Stored (ordinates ys.now) s out.old out.new result × (result.given < length ys.now) }
{
    let line = s.at - s.column;
    if s.last == 0 || !s.dif || out.len() < line + 83 {
        return s;
    }
    put_lone(t, k, ys, out, s)
}
