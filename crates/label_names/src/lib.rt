// Names of labels: they compare in upper case without blanks, `-`, `/`, `_` (01, The file).
#![tactic(auto)]

ghost use Rattle.std.specs.Prelude.{◌≡◌, ◌≤◌, length};
ghost use Rattle.label_spec.specs.Names.{ignored, upper, norm, name_in, sames, TITLE, END};
ghost use Rattle.label_names.specs.Post.{empty, first_of, unlike};

use text::byte_at;

// Is this byte left out where names are compared?
#[tactic(auto, unfolding(label_spec::specs::Names::ignored, label_spec::specs::Names::blank))]
fn is_ignored(b: u8) -> bool
    ensures { result ≡ ignored b }
{
    matches!(b, b' ' | b'\t' | b'-' | b'/' | b'_')
}

// The byte in upper case, if it is a letter a to z.
#[tactic(auto, unfolding(label_spec::specs::Names::upper))]
fn upper_of(b: u8) -> u8
    ensures { result ≡ upper b }
{
    b.to_ascii_uppercase()
}

// The first byte of a name as it is compared; 0 says nothing, as where it is left out or the text is over.
#[tactic(auto, unfolding(crate::specs::Post::first_of))]
pub fn first_of(s: &[u8], i: usize) -> u8
    ensures { result ≡ first_of s.now i }
{
    let b = byte_at(s, i);
    if is_ignored(b) { 0 } else { upper_of(b) }
}

// Do names differ by these first bytes? Most do, and are then compared no further.
#[tactic(auto, unfolding(crate::specs::Post::unlike))]
pub fn differ(x: u8, y: u8) -> bool
    ensures { result ≡ unlike x y }
{
    x != 0 && y != 0 && x != y
}

// Are two names equal as they are compared? They stand in one text or in two.
pub fn same_name(s: &[u8], a: usize, ae: usize, t: &[u8], b: usize, be: usize) -> bool
    requires { (a ≤ ae) × (ae ≤ length s.now) × (b ≤ be) × (be ≤ length t.now) }
    ensures { result ≡ sames (name_in s.now a ae) (name_in t.now b be) }
{
    let x = s[a..ae]
        .iter()
        .filter(|b| !is_ignored(**b))
        .map(|b| upper_of(*b));
    let y = t[b..be]
        .iter()
        .filter(|b| !is_ignored(**b))
        .map(|b| upper_of(*b));
    x.eq(y)
}

// How many bytes a name has as it is compared.
pub fn name_length(s: &[u8], i: usize, e: usize) -> usize
    requires { (i ≤ e) × (e ≤ length s.now) }
    ensures { result ≡ length (name_in s.now i e) }
{
    s[i..e].iter().filter(|b| !is_ignored(**b)).count()
}

// Is the name empty as it is compared?
pub fn is_empty(s: &[u8], i: usize, e: usize) -> bool
    requires { (i ≤ e) × (e ≤ length s.now) }
    ensures { result ≡ empty (name_in s.now i e) }
{
    s[i..e].iter().all(|b| is_ignored(*b))
}

// Is the name this word?
pub fn is_word(s: &[u8], n: usize, e: usize, w: &[u8]) -> bool
    requires { (n ≤ e) × (e ≤ length s.now) }
    ensures { result ≡ sames (name_in s.now n e) (norm w.now) }
{
    same_name(s, n, e, w, 0, w.len())
}

// Is the name END?
pub fn is_end(s: &[u8], n: usize, e: usize) -> bool
    requires { (n ≤ e) × (e ≤ length s.now) }
    ensures { result ≡ sames (name_in s.now n e) END }
{
    is_word(s, n, e, b"END")
}

// Is the name TITLE?
pub fn is_title(s: &[u8], n: usize, e: usize) -> bool
    requires { (n ≤ e) × (e ≤ length s.now) }
    ensures { result ≡ sames (name_in s.now n e) TITLE }
{
    is_word(s, n, e, b"TITLE")
}
