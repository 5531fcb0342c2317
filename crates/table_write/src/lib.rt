// Writing a table in one of the four forms (01, "The written text"; 02, T-02).
#![tactic(auto)]

ghost use Rattle.std.specs.Prelude.{◌≤◌, length};
ghost use Rattle.table_spec.specs.declared.Style.TheVariants.{Difdup};
ghost use Rattle.frame.specs.Legal.{Sound};
ghost use Rattle.table_text.specs.Answers.{Answered, FramedAnswer};
ghost use Rattle.table_write.specs.Room.{Measured};

use frame::Frame;
use table_given::check;
use table_spec::Style;
use terms::{Fault, Reason};
use text_forms::{fits, lay, length_of};

// Writing in a legal frame, with an ordinate for each point: refusal 15, or the text.
fn write_framed(style: Style, fr: Frame, ordinates: &[i32], text: &mut [u8]) -> Result<usize, Fault>
    requires { Sound fr × (fr.points ≤ length ordinates.now) }
    ensures { FramedAnswer style fr ordinates.now text.old text.new result }
{
    let n = fr.points;
    let ys = &ordinates[..n];
    if fits(style, ys, fr, text.len()) {
        let length = lay(style, ys, text, fr);
        return Ok(length);
    }
    Err(Fault::of(Reason::NoFit, 0))
}

// Writes the table of a frame, its numbers as they come, and its ordinates in a form into the lent bytes; or refuses and leaves them as they were.
pub fn write_form(
    style: Style,
    first: i64,
    last: i64,
    points: usize,
    ordinates: &[i32],
    text: &mut [u8],
) -> Result<usize, Fault>
    ensures { Answered style first last points ordinates.now text.old text.new result }
{
    let fr = check(first, last, points, ordinates)?;
    write_framed(style, fr, ordinates, text)
}

// The length of the text that `write_form` would write, however little room there is; or its refusal, which is never 15 (02, T-10). One measuring pass, and nothing is written.
pub fn text_length(
    style: Style,
    first: i64,
    last: i64,
    points: usize,
    ordinates: &[i32],
) -> Result<usize, Fault>
    ensures { Measured style first last points ordinates.now result }
{
    let fr = check(first, last, points, ordinates)?;
    Ok(length_of(style, &ordinates[..fr.points], fr))
}

// The same in DIFDUP form (01).
pub fn write_table(
    first: i64,
    last: i64,
    points: usize,
    ordinates: &[i32],
    text: &mut [u8],
) -> Result<usize, Fault>
    ensures { Answered Difdup first last points ordinates.now text.old text.new result }
{
    write_form(Style::Difdup, first, last, points, ordinates, text)
}
