// The records of one line of a written file (02, T-04), into the lent bytes at a place. Past their end nothing is stored, so that a heading can be measured with none lent.
#![tactic(auto)]

ghost use Rattle.std.specs.Prelude.{[], ◌∷◌, ◌++◌, ◌+◌, ◌^◌, ◌≤◌, ◌<◌, length};
ghost use Rattle.table_spec.specs.Groups.{plain_text};
ghost use Rattle.decimal_spec.specs.Number.{bound};
ghost use Rattle.table_text.specs.Pieces.{Put};
ghost use Rattle.file_write_spec.specs.Records.{entry_text, entries_text, line};
ghost use Rattle.file_pieces.specs.Decimals.{text_of, Writable};
ghost use Rattle.file_lines.specs.Lines.{AllWritable, from_title, from_firstx, from_firsty, heading_of};

use file_pieces::{put_bytes, put_count, put_decimal};
use file_spec::{Decimal, Numbers};
use table_text::digits::{put, put_end};

// A label: `##`, its name and `=`. The place after it.
fn put_label(out: &mut [u8], at: usize, name: &[u8]) -> usize
    requires { (length name.now ≤ 40) × (at < 2 ^ 58) }
    ensures { Put out.old at out.new result (35 ∷ 35 ∷ (name.now ++ 61 ∷ [])) × (result ≤ at + 43) }
{
    put(out, at, b'#');
    put(out, at + 1, b'#');
    let n = at + 2;
    let e = put_bytes(out, n, name);
    put(out, e, b'=');
    e + 1
}

// A record of one line. The place after it.
pub fn put_line(out: &mut [u8], at: usize, name: &[u8], text: &[u8]) -> usize
    requires { (length name.now ≤ 40) × (length text.now ≤ 72) × (at < 2 ^ 57) }
    ensures { Put out.old at out.new result (entry_text (line name.now text.now)) × (result ≤ at + 120) }
{
    let a = put_label(out, at, name);
    let b = put_bytes(out, a, text);
    put_end(out, b)
}

// A record that is a decimal. The place after it.
fn put_decimal_line(out: &mut [u8], at: usize, name: &[u8], d: Decimal) -> usize
    requires { (length name.now ≤ 40) × Writable d × (at < 2 ^ 56) }
    ensures { Put out.old at out.new result (entry_text (line name.now (text_of d))) × (result ≤ at + 120) }
{
    let a = put_label(out, at, name);
    let b = put_decimal(out, a, d);
    put_end(out, b)
}

// A record that is a count. The place after it.
fn put_count_line(out: &mut [u8], at: usize, name: &[u8], v: u64) -> usize
    requires { (length name.now ≤ 40) × (v < bound) × (at < 2 ^ 56) }
    ensures { Put out.old at out.new result (entry_text (line name.now (plain_text v))) × (result ≤ at + 120) }
{
    let a = put_label(out, at, name);
    let b = put_count(out, a, v);
    put_end(out, b)
}

// TITLE, XFACTOR and YFACTOR, from the start. The place after them.
fn put_from_title(out: &mut [u8], title: &[u8], n: Numbers) -> usize
    requires { (length title.now ≤ 72) × AllWritable n }
    ensures { Put out.old 0 out.new result (entries_text (from_title title.now n)) × (result ≤ 360) }
{
    let xfactor = n.xfactor;
    let yfactor = n.yfactor;
    let a = put_line(out, 0, b"TITLE", title);
    let b = put_decimal_line(out, a, b"XFACTOR", xfactor);
    put_decimal_line(out, b, b"YFACTOR", yfactor)
}

// FIRSTX, LASTX and NPOINTS. The place after them.
fn put_from_firstx(out: &mut [u8], at: usize, n: Numbers) -> usize
    requires { AllWritable n × (at < 2 ^ 55) }
    ensures { Put out.old at out.new result (entries_text (from_firstx n)) × (result ≤ at + 360) }
{
    let firstx = n.firstx;
    let lastx = n.lastx;
    let points = n.npoints;
    let a = put_decimal_line(out, at, b"FIRSTX", firstx);
    let b = put_decimal_line(out, a, b"LASTX", lastx);
    put_count_line(out, b, b"NPOINTS", points)
}

// FIRSTY, and XYDATA with its list. The place after them.
fn put_from_firsty(out: &mut [u8], at: usize, n: Numbers) -> usize
    requires { AllWritable n × (at < 2 ^ 55) }
    ensures { Put out.old at out.new result (entries_text (from_firsty n)) × (result ≤ at + 240) }
{
    let firsty = n.firsty;
    let a = put_decimal_line(out, at, b"FIRSTY", firsty);
    put_line(out, a, b"XYDATA", b"(X++(Y..Y))")
}

// All that stands before the body. Its length.
pub fn put_heading(out: &mut [u8], title: &[u8], n: Numbers) -> usize
    requires { (length title.now ≤ 72) × AllWritable n }
    ensures { Put out.old 0 out.new result (entries_text (heading_of title.now n)) × (result ≤ 960) }
{
    let a = put_from_title(out, title, n);
    let b = put_from_firstx(out, a, n);
    put_from_firsty(out, b, n)
}
