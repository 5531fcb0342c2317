// Groups of equal tokens, found and stored (01, "The written text"). Inner functions: an index within the ordinates, places far from the largest number.
#![tactic(auto)]

ghost use Rattle.std.specs.Prelude.{◌≡◌, ◌++◌, ◌+◌, ◌^◌, ◌≤◌, ◌<◌, length, drop};
ghost use Rattle.std.proofs.lemmas.List.Edits.{sets};
ghost use Rattle.alphabet_spec.specs.Kinds.{dup};
ghost use Rattle.table_spec.specs.Numerals.{lead_byte};
ghost use Rattle.table_spec.specs.Groups.{dup_text};
ghost use Rattle.table_text.specs.Digits.{further};
ghost use Rattle.table_text.specs.Pieces.{Put, number, ordinates};
ghost use Rattle.text_tokens.specs.Tokens.{SmallToken, again, run, Found};

use signed::ordinate_at;
use table_text::digits::{DUP, further_digits, put, put_digits, put_number};
use text_tokens::{Group, Token, token_of};

// Has the ordinate z after q the same token again?
fn is_again(t: Token, q: u64, z: u64) -> bool
    requires { SmallToken t × (q < 4294967296) × (z < 4294967296) }
    ensures { result ≡ again t q z }
{
    q + t.up == z + t.down && (0 < z) == t.dif
}

// How many ordinates from a place on have the token again, after p.
fn copies_of(ys: &[i32], start: usize, t: Token, p: u64) -> usize
    requires { SmallToken t × (p < 4294967296) × (start ≤ length ys.now) }
    ensures { (result ≡ run t p (drop start (ordinates ys.now))) × (start + result ≤ length ys.now) }
{
    let mut q = p;
    for k in start..ys.len() {
        let z = ordinate_at(ys, k);
        if !is_again(t, q, z) {
            return k - start;
        }
        q = z;
    }
    ys.len() - start
}

// The bytes of the DUP for m more of a token: the place after it where nothing is lent.
fn dup_bytes(m: usize) -> usize
    requires { m ≤ 65536 }
    ensures { (result ≡ length (dup_text m)) × (result ≤ 10) }
{
    put_dup(&mut [], 0, m)
}

// The group that starts with the ordinate at i, after p.
pub fn find(ys: &[i32], i: usize, p: u64) -> Group
    requires { (i < length ys.now) × (length ys.now ≤ 65536) × (p < 4294967296) }
    ensures { Found (ordinates ys.now) i p result }
{
    let y = ordinate_at(ys, i);
    let t = token_of(p, y);
    let next = i + 1;
    let more = copies_of(ys, next, t, y);
    let size = t.size;
    let digits = further_digits(size);
    let rest = dup_bytes(more);
    let width = 1 + digits + rest;
    Group {
        base: t.base,
        size,
        digits,
        more,
        width,
        dif: t.dif,
    }
}

// The byte of a DUP's first digit.
fn dup_byte(d: u64) -> u8
    requires { d < 10 }
    ensures { result ≡ lead_byte dup d }
{
    if d == 9 {
        return b's';
    }
    (DUP + d) as u8
}

// The DUP for m more of a token. The place after it.
fn put_dup(out: &mut [u8], at: usize, m: usize) -> usize
    requires { (m ≤ 65536) × (at < 2 ^ 61) }
    ensures { Put out.old at out.new result (dup_text m) × (result ≤ at + 10) }
{
    if m == 0 {
        return at;
    }
    let count = (m + 1) as u64;
    let n = further_digits(count);
    let next = at + 1;
    let d = put_digits(out, next, count, n);
    let b = dup_byte(d);
    put(out, at, b);
    next + n
}

// The bytes of a group; where the first is past the end there is nothing to do.
pub fn put_group(out: &mut [u8], at: usize, g: Group)
    requires { (g.base ≤ 105) × (g.size < 10000000000) × (g.digits ≡ further 9 g.size) × (g.more ≤ 65536) × (at < 2 ^ 60) }
    ensures { out.new ≡ sets out.old at (number g.base g.size ++ dup_text g.more) }
{
    if out.len() <= at {
        return;
    }
    let base = g.base;
    let size = g.size;
    let digits = g.digits;
    let more = g.more;
    let a = put_number(out, at, base, size, digits);
    put_dup(out, a, more);
}
