// The start and the end of a text (01, "The written text"), with its last check line. Inner functions: the frame is a sound one, and places are far from the largest number.
#![tactic(auto)]

ghost use Rattle.std.specs.Prelude.{◌≡◌, false, ◌∷◌, ◌^◌, ◌≤◌, ◌<◌};
ghost use Rattle.table_spec.specs.declared.Style.TheVariants.{Difdup};
ghost use Rattle.table_spec.specs.Writing.{close};
ghost use Rattle.frame.specs.Legal.{Sound};
ghost use Rattle.table_text.specs.Pieces.{Put, head_of};
ghost use Rattle.text_openings.specs.Lines.{start};

use frame::Frame;
use table_text::digits::put_end;
use text_heads::put_head;
use text_openings::{State, put_check};

// The last check line, if the text ends in DIF form. The place after it.
fn put_close(out: &mut [u8], at: usize, fr: Frame, dif: bool, p: u64) -> usize
    requires { Sound fr × (p < 4294967296) × (at < 2 ^ 58) }
    ensures { Put out.old at out.new result (close Difdup (head_of fr) dif fr.points p) }
{
    if !dif {
        return at;
    }
    let n = fr.points;
    let a = put_check(out, at, fr, n, p);
    put_end(out, a)
}

// The text's start, the head of the first point. The state after it.
pub fn begin(text: &mut [u8], fr: Frame) -> State
    requires { Sound fr }
    ensures { (result ≡ start result.at) × (result.at ≤ 15) × Put text.old 0 text.new result.at (head_of fr 0) }
{
    let at = put_head(text, 0, fr, 0);
    State {
        given: 0,
        at,
        column: at,
        last: 0,
        dif: false,
    }
}

// The text's end after the last group, with a check line if one is needed. The place after it.
pub fn finish(text: &mut [u8], fr: Frame, s: State) -> usize
    requires { Sound fr × (s.last < 4294967296) × (s.at < 2 ^ 57) }
    ensures { Put text.old s.at text.new result (13 ∷ 10 ∷ close Difdup (head_of fr) s.dif fr.points s.last) }
{
    let at = s.at;
    let dif = s.dif;
    let last = s.last;
    let e = put_end(text, at);
    put_close(text, e, fr, dif, last)
}
