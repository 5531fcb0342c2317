// The functions that C calls to write a table and to measure its text (include/lastarunc.h; 02, T-01, T-02, T-10). Each fills its answer, a struct of 64-bit numbers for C, and returns the
// first of them, `refused`: 0 for acceptance. Every argument is answered, every number is set, and what is not given is 0.
#![tactic(auto)]

ghost use Rattle.host_text.specs.Answers.{no_form, FormOf, written_numbers, TextTold, FormTold, TextLengthTold};
ghost use Rattle.host_numbers.specs.Numbers.{no_flags, Told};
ghost use Rattle.table_spec.specs.declared.Style.TheVariants.{Difdup};
ghost use Rattle.std.specs.Prelude.{◌∷◌};

use table_spec::Style;
use terms::Fault;

// What is answered for a number that is no form's, -1 for C (LASTARUNC_NO_FORM in the header): no refusal has this number.
const NO_FORM: u64 = 18446744073709551615;

// The form of this number (02, T-02). A function of its own: an impl of `TryFrom` for `Style` can stand only in `table_spec`, and its error would be a public type there.
fn form_of(form: u64) -> Option<Style>
    ensures { FormOf form result }
{
    match form {
        0 => Some(Style::Difdup),
        1 => Some(Style::Affn),
        2 => Some(Style::Pac),
        3 => Some(Style::Sqz),
        _ => None,
    }
}

// Tells what a writer of tables answered: refused, length, and three zeros where a file has what is exact.
fn tell_text(written: Result<usize, Fault>, answer: &mut [u64; 5]) -> u64
    ensures { Told (written_numbers written) answer.new result }
{
    match written {
        Ok(n) => {
            *answer = [0, n as u64, 0, 0, 0];
            0
        }
        Err(f) => {
            *answer = [f.number, 0, 0, 0, 0];
            f.number
        }
    }
}

// Tells that a number is no form's.
fn tell_no_form(answer: &mut [u64; 5]) -> u64
    ensures { Told (no_form ∷ 0 ∷ no_flags) answer.new result }
{
    *answer = [NO_FORM, 0, 0, 0, 0];
    NO_FORM
}

// Writes a table in a form: refused, length, and three zeros where a file has what is exact.
fn write_style(
    style: Style,
    first: i64,
    last: i64,
    points: usize,
    ordinates: &[i32],
    text: &mut [u8],
    answer: &mut [u64; 5],
) -> u64
    ensures { TextTold style first last points ordinates.now text.old text.new answer.new result }
{
    let written = table_write::write_form(style, first, last, points, ordinates, text);
    tell_text(written, answer)
}

// Writes a table in DIFDUP form, and answers as the form does.
pub fn lastarunc_write_table(
    first: i64,
    last: i64,
    points: usize,
    ordinates: &[i32],
    text: &mut [u8],
    answer: &mut [u64; 5],
) -> u64
    ensures { TextTold Difdup first last points ordinates.now text.old text.new answer.new result }
{
    write_style(Style::Difdup, first, last, points, ordinates, text, answer)
}

// Writes a table in the form of this number (02, T-02), and answers as the form does. A number that is no form's is answered too.
pub fn lastarunc_write_form(
    form: u64,
    first: i64,
    last: i64,
    points: usize,
    ordinates: &[i32],
    text: &mut [u8],
    answer: &mut [u64; 5],
) -> u64
    ensures { FormTold form first last points ordinates.now text.old text.new answer.new result }
{
    match form_of(form) {
        None => tell_no_form(answer),
        Some(style) => write_style(style, first, last, points, ordinates, text, answer),
    }
}

// The length of a table's text in the form of this number (02, T-10): as writing it answers, and never with 15. A number that is no form's is answered too.
pub fn lastarunc_text_length(
    form: u64,
    first: i64,
    last: i64,
    points: usize,
    ordinates: &[i32],
    answer: &mut [u64; 5],
) -> u64
    ensures { TextLengthTold form first last points ordinates.now answer.new result }
{
    match form_of(form) {
        None => tell_no_form(answer),
        Some(style) => {
            let written = table_write::text_length(style, first, last, points, ordinates);
            tell_text(written, answer)
        }
    }
}
