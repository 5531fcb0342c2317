// The text in one of the four forms (01, "The written text"; 02, T-02), its length, and whether it fits. Inner functions: the frame is a sound one, with an ordinate for each point.
#![tactic(auto)]

ghost use Rattle.std.specs.Prelude.{◌≡◌, ◌≤◌, leb, length};
ghost use Rattle.table_spec.specs.declared.Style.TheVariants.{Difdup};
ghost use Rattle.table_spec.specs.Groups.{in_full};
ghost use Rattle.table_spec.specs.Writing.{lines_of};
ghost use Rattle.frame.specs.Legal.{Sound};
ghost use Rattle.table_text.specs.Pieces.{Put, head_of, ordinates};

use frame::Frame;
use table_spec::Style;
use text_differences::{SCALES, put_differences};
use text_digits::PAIRS;
use text_ends::{begin, finish};
use text_length::measure;
use text_lines::turn;

// Enough bytes for the text of any point, and for all else (table_write_law, `written_most`).
const BYTES_A_POINT: usize = 15;

const BYTES_BESIDE: usize = 44;

// The whole text in DIFDUP form from the start of the lent bytes. Its length. A loop by hand: a turn takes the differences that stand alone, and a group.
fn pass(ys: &[i32], text: &mut [u8], fr: Frame) -> usize
    requires { Sound fr × (length ys.now ≡ fr.points) }
    ensures { Put text.old 0 text.new result (lines_of Difdup (head_of fr) (ordinates ys.now)) }
{
    let t = PAIRS;
    let k = SCALES;
    let mut s = begin(text, fr);
    while s.given < ys.len() {
        let r = put_differences(&t, &k, ys, text, s);
        s = turn(ys, text, fr, r);
    }
    finish(text, fr, s)
}

// Does a form write each value in full?
fn is_full(style: Style) -> bool
    ensures { result ≡ in_full style }
{
    !matches!(style, Style::Difdup)
}

// The text in a form, from the start of the lent bytes, which hold it. Its length.
pub fn lay(style: Style, ys: &[i32], text: &mut [u8], fr: Frame) -> usize
    requires { Sound fr × (length ys.now ≡ fr.points) × (length (lines_of style (head_of fr) (ordinates ys.now)) ≤ length text.old) }
    ensures { Put text.old 0 text.new result (lines_of style (head_of fr) (ordinates ys.now)) }
{
    if is_full(style) {
        return text_values::lay(style, ys, text, fr);
    }
    pass(ys, text, fr)
}

// The length of the text in a form; nothing is stored.
pub fn length_of(style: Style, ys: &[i32], fr: Frame) -> usize
    requires { Sound fr × (length ys.now ≡ fr.points) }
    ensures { result ≡ length (lines_of style (head_of fr) (ordinates ys.now)) }
{
    if is_full(style) {
        return text_values::measure(style, ys, &mut [], fr);
    }
    measure(ys, &mut [], fr)
}

// Does the text in a form fit into so many bytes? It is measured only where there are fewer than always suffice.
pub fn fits(style: Style, ys: &[i32], fr: Frame, room: usize) -> bool
    requires { Sound fr × (length ys.now ≡ fr.points) }
    ensures { result ≡ leb (length (lines_of style (head_of fr) (ordinates ys.now))) room }
{
    let enough = BYTES_A_POINT * fr.points + BYTES_BESIDE;
    enough <= room || length_of(style, ys, fr) <= room
}
