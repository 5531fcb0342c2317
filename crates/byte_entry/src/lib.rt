// The entry of a byte (01, "Values"), by ranges. An entry is 16 times the byte's kind, and its digit. Kinds: 0 digit, 1 DUP,
// 2 DIF +, 3 DIF -, 4 SQZ +, 5 SQZ -, 6 missing, 7 blank, 8 +, 9 -, 10 point, 11 LF, 12 CR, 13 $, 15 outside the alphabet.
#![tactic(auto)]

ghost use Rattle.std.specs.Prelude.{◌≡◌};
ghost use Rattle.alphabet_spec.specs.Entries.{«entry»};
ghost use Rattle.byte_entry.specs.Ranged.{«either»};

// So many entries has a kind: an entry divided by it is the kind, and what is left the digit.
pub const KIND: u64 = 16;

// The first entry that is no digit's: a digit's is the digit itself.
pub const PAST_DIGITS: u64 = 16;

// The first entry of DIF, of 0; the other digits follow, and then DIF that is minus.
pub const DIF: u64 = 32;

// The first entry of DIF that is minus.
pub const DIF_MINUS: u64 = 48;

// The entry of `?`, a missing ordinate.
pub const MISSING: u64 = 96;

// The entry of a blank: a space.
pub const BLANK: u64 = 112;

// The entry of `+`.
pub const PLUS: u64 = 128;

// The entry of `-`.
pub const MINUS: u64 = 144;

// The entry of the point.
pub const POINT: u64 = 160;

// The entry of LF, which ends a line.
pub const LF: u64 = 176;

// The entry of CR, which ends a line with LF after it.
pub const CR: u64 = 192;

// The entry of `$`, two of which begin a comment.
pub const DOLLAR: u64 = 208;

// The entry of a byte outside the alphabet.
const OUTSIDE: u64 = 240;

// A byte as a number of 64 bits.
pub fn wide(x: u8) -> u64
    ensures { result ≡ x }
{
    x as u64
}

// The entry u of the byte x, the entry v of the byte y, and that of a byte outside the alphabet for any other.
fn either(b: u8, x: u8, u: u64, y: u8, v: u64) -> u64
    ensures { result ≡ either b x u y v }
{
    if b == x {
        return u;
    }
    if b == y {
        return v;
    }
    OUTSIDE
}

// The entry of a byte (01, "a match with ranges over the byte gives kind and digit"). A range that is no kind's holds two bytes at most: with three the compiler makes a table of them.
pub fn entry_of(b: u8) -> u64
    ensures { result ≡ entry b }
{
    match b {
        48..=57 => wide(b) - 48,
        74..=82 => wide(b) - 41,
        106..=114 => wide(b) - 57,
        64..=73 => wide(b),
        83..=90 => wide(b) - 66,
        97..=105 => wide(b) - 16,
        115 => 25,
        58..=63 => either(b, b'.', POINT, b'?', MISSING),
        46..=47 => either(b, b'.', POINT, b'?', MISSING),
        38..=45 => either(b, b'+', PLUS, b'-', MINUS),
        33..=37 => either(b, b'$', DOLLAR, b'%', DIF),
        11..=32 => either(b, b'\r', CR, b' ', BLANK),
        0..=10 => either(b, b'\n', LF, b'\r', CR),
        _ => OUTSIDE,
    }
}
