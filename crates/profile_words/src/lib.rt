// The words that are listed for the records of the ion mobility profile: fixed byte strings, compared with the texts of a file or of a page (02, T-09; document 001).
#![tactic(auto)]

ghost use Rattle.std.specs.Prelude.{◌≡◌};
ghost use Rattle.profile_spec.specs.Wanted.{kth, polarities, modes, xunits, yunits};
ghost use Rattle.profile_spec.specs.Profile.{any_word, listed};

use keyword::is_keyword;

// One of the two polarities? (001, 3.2.6)
fn is_polarity(t: &[u8]) -> bool
    ensures { result ≡ any_word polarities t.now }
{
    is_keyword(t, b"POSITIVE") | is_keyword(t, b"NEGATIVE")
}

// One of the ten ionisation codes? (001, 3.2.7)
fn is_mode(t: &[u8]) -> bool
    ensures { result ≡ any_word modes t.now }
{
    is_keyword(t, b"UV")
        | is_keyword(t, b"BR")
        | is_keyword(t, b"AL")
        | is_keyword(t, b"PD")
        | is_keyword(t, b"CD")
        | is_keyword(t, b"ESI")
        | is_keyword(t, b"LI")
        | is_keyword(t, b"LD")
        | is_keyword(t, b"SI")
        | is_keyword(t, b"SY")
}

// One of the four X units? (001, 3.3.1)
fn is_x_unit(t: &[u8]) -> bool
    ensures { result ≡ any_word xunits t.now }
{
    is_keyword(t, b"SECONDS")
        | is_keyword(t, b"MILLISECONDS")
        | is_keyword(t, b"MICROSECONDS")
        | is_keyword(t, b"NANOSECONDS")
}

// One of the three Y units? (001, 3.3.1)
fn is_y_unit(t: &[u8]) -> bool
    ensures { result ≡ any_word yunits t.now }
{
    is_keyword(t, b"MICROAMPERES") | is_keyword(t, b"NANOAMPERES") | is_keyword(t, b"PICOAMPERES")
}

// Is a text a word that is listed for the k-th record of the profile? Where none is listed, any text will do.
pub fn is_listed(t: &[u8], k: usize) -> bool
    ensures { result ≡ listed (kth k).words t.now }
{
    match k {
        0 => is_keyword(t, b"5.01"),
        1 => is_keyword(t, b"ION MOBILITY SPECTRUM"),
        2 => is_keyword(t, b"XYDATA"),
        9 => is_polarity(t),
        10 => is_mode(t),
        13 => is_x_unit(t),
        14 => is_y_unit(t),
        _ => true,
    }
}
