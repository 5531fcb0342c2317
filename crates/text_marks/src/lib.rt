// How a form marks the values that it writes in full, and how many bytes a value has (02, T-02). Inner functions: the lent table is the definition's, an ordinate has 32 bits.
#![tactic(auto)]

ghost use Rattle.std.specs.Prelude.{◌≡◌, ◌≤◌, ◌<◌, length};
ghost use Rattle.terms.specs.Logic.{pick};
ghost use Rattle.text_digits.specs.Counts.{counts};
ghost use Rattle.text_marks.specs.Shows.{shown, marks_of};

use signed::ZERO_ORDINATE;
use table_spec::Style;
use table_text::digits::{DIGIT, SQZ, SQZ_MINUS};
use text_digits::digits_in;

// How a form writes its values: is there a space before a missing one, before one that is not negative, before one that is; has the last a minus; and to what their first digits are added.
#[derive(Clone, Copy)]
pub struct Marks {
    pub gap: bool,
    pub up: bool,
    pub down: bool,
    pub signed: bool,
    pub plus: u64,
    pub minus: u64,
}

// The marks of a form. DIFDUP writes its values in full as SQZ does.
#[tactic(auto, unfolding(crate::specs::Shows::marks_of))]
pub fn marks_of(style: Style) -> Marks
    ensures { result ≡ marks_of style }
{
    match style {
        Style::Affn => Marks {
            gap: true,
            up: true,
            down: true,
            signed: true,
            plus: DIGIT,
            minus: DIGIT,
        },
        Style::Pac => Marks {
            gap: false,
            up: true,
            down: false,
            signed: true,
            plus: DIGIT,
            minus: DIGIT,
        },
        Style::Sqz | Style::Difdup => Marks {
            gap: false,
            up: false,
            down: false,
            signed: false,
            plus: SQZ,
            minus: SQZ_MINUS,
        },
    }
}

// The bytes of a mark.
pub fn mark_width(yes: bool) -> usize
    ensures { (result ≡ pick yes 1 0) × (result ≤ 1) }
{
    usize::from(yes)
}

// The bytes of the value that an ordinate is.
pub fn width_of(d: &[u64; 32], m: Marks, u: u64) -> usize
    requires { (d.now ≡ counts) × (u < 4294967296) }
    ensures { (result ≡ length (shown m u)) × (result ≤ 12) }
{
    if ZERO_ORDINATE <= u {
        return mark_width(m.up) + digits_in(d, u - ZERO_ORDINATE);
    }
    if u == 0 {
        return mark_width(m.gap) + 1;
    }
    mark_width(m.down) + mark_width(m.signed) + digits_in(d, ZERO_ORDINATE - u)
}
