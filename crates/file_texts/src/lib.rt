// The number that the text of a record is (01, "The file").
#![tactic(auto)]

ghost use Rattle.std.specs.Prelude.{◌≡◌, length};
ghost use Rattle.file_spec.specs.Texts.{text_in};
ghost use Rattle.file_spec.specs.Figures.{decimal_in, exceeding, count_in};
ghost use Rattle.file_marks.specs.Spans.{Within};
ghost use Rattle.file_texts.specs.Counts.{CountSmall};
ghost use Rattle.figure.specs.Bounds.{GivenIn, FactorIn};

use decimal_spec::Count;
use figure::exceed;
use file_spec::Decimal;
use label_space::past_space;
use label_spec::Span;

// The decimal that the text of a record is, with blanks, line ends and comments around it.
pub fn decimal_in(file: &[u8], x: Span) -> Option<Decimal>
    requires { Within (length file.now) x }
    ensures { (result ≡ decimal_in (text_in file.now x)) × GivenIn result }
{
    let from = x.from;
    let to = x.to;
    decimal_alone(&file[from..to])
}

// The decimal that a text is.
fn decimal_alone(part: &[u8]) -> Option<Decimal>
    ensures { (result ≡ decimal_in part.now) × GivenIn result }
{
    let at = past_space(part, 0);
    let number = decimal::number(part, at)?;
    if past_space(part, number.end) != part.len() {
        return None;
    }
    Some(Decimal {
        minus: number.minus,
        mantissa: number.mantissa,
        power: number.power,
    })
}

// The factor that the text of a record is.
pub fn factor_in(file: &[u8], x: Span) -> Option<Decimal>
    requires { Within (length file.now) x }
    ensures { (result ≡ exceeding (decimal_in (text_in file.now x))) × FactorIn result }
{
    exceed(decimal_in(file, x))
}

// The count that a text is (NPOINTS).
fn count_alone(part: &[u8]) -> Option<Count>
    ensures { (result ≡ count_in part.now) × CountSmall result }
{
    let at = past_space(part, 0);
    let count = decimal_digits::count(part, at)?;
    if past_space(part, count.end) != part.len() {
        return None;
    }
    Some(count)
}

// The count that the text of a record is.
pub fn count_in(file: &[u8], x: Span) -> Option<Count>
    requires { Within (length file.now) x }
    ensures { (result ≡ count_in (text_in file.now x)) × CountSmall result }
{
    let from = x.from;
    let to = x.to;
    count_alone(&file[from..to])
}
