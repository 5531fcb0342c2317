// Values in full on lines: the text of AFFN, PAC and SQZ (02, T-02). Inner functions: the frame is a sound one, and the ordinates are its points.
#![tactic(auto)]

ghost use Rattle.std.specs.Prelude.{◌≡◌, true, map, ◌≤◌, length};
ghost use Rattle.table_spec.specs.Frame.{ordinate_of};
ghost use Rattle.table_spec.specs.Groups.{in_full};
ghost use Rattle.table_spec.specs.Writing.{lines_of};
ghost use Rattle.frame.specs.Legal.{Sound};
ghost use Rattle.table_text.specs.Pieces.{Put, head_of};
ghost use Rattle.text_digits.specs.Counts.{counts};
ghost use Rattle.text_digits.specs.Lent.{Tables};
ghost use Rattle.text_marks.specs.Shows.{Based};
ghost use Rattle.text_value_lines.specs.Lines.{whole};

use frame::Frame;
use table_spec::Style;
use text_digits::{COUNTS, PAIRS};
use text_heads::{head_bytes, put_head};
use text_marks::{Marks, marks_of};
use text_value_lines::{State, count_line, fill_line, store_end};

// The whole text from the start of the lent bytes, which hold it, a line at a time. Its length. A loop by hand: a turn takes the points of a line, as many as fit.
fn pass(t: &[u8; 200], d: &[u64; 32], m: Marks, ys: &[i32], text: &mut [u8], fr: Frame) -> usize
    requires { Tables t.now d.now × Based m × Sound fr × (length ys.now ≡ fr.points) × (length (whole m fr (map ordinate_of ys.now)) ≤ length text.old) }
    ensures { Put text.old 0 text.new result (whole m fr (map ordinate_of ys.now)) }
{
    let mut i = 0;
    let mut at = 0;
    while i < ys.len() {
        let head = put_head(text, at, fr, i);
        let s = State {
            given: i,
            at: head,
            column: head - at,
        };
        let r = fill_line(t, d, m, ys, text, s);
        at = store_end(text, r.at);
        i = r.given;
    }
    at
}

// The same with nothing lent: the length of the text. A loop of its own, since nothing that it calls is what the other calls; by hand, since a turn is a line and moves
// the index to the next line's first point.
fn count(d: &[u64; 32], m: Marks, ys: &[i32], fr: Frame) -> usize
    requires { (d.now ≡ counts) × Sound fr × (length ys.now ≡ fr.points) }
    ensures { result ≡ length (whole m fr (map ordinate_of ys.now)) }
{
    let mut i = 0;
    let mut at = 0;
    while i < ys.len() {
        let column = head_bytes(fr, i);
        let s = State {
            given: i,
            at: at + column,
            column,
        };
        let r = count_line(d, m, ys, s);
        at = r.at + 2;
        i = r.given;
    }
    at
}

// The text of a form whose values are written in full, from the start of the lent bytes, which hold it. Its length.
pub fn lay(style: Style, ys: &[i32], text: &mut [u8], fr: Frame) -> usize
    requires { (in_full style ≡ true) × Sound fr × (length ys.now ≡ fr.points) × (length (lines_of style (head_of fr) (map ordinate_of ys.now)) ≤ length text.old) }
    ensures { Put text.old 0 text.new result (lines_of style (head_of fr) (map ordinate_of ys.now)) }
{
    let m = marks_of(style);
    let t = PAIRS;
    let d = COUNTS;
    pass(&t, &d, m, ys, text, fr)
}

// The length of that text.
pub fn measure(style: Style, ys: &[i32], none: &mut [u8], fr: Frame) -> usize
    requires { (in_full style ≡ true) × Sound fr × (length ys.now ≡ fr.points) × (length none.old ≡ 0) }
    ensures { result ≡ length (lines_of style (head_of fr) (map ordinate_of ys.now)) }
{
    let m = marks_of(style);
    let d = COUNTS;
    count(&d, m, ys, fr)
}
