// What stands at a place of a spool (02, T-11). The spool is lent and never written to.
#![tactic(auto)]

ghost use Rattle.std.specs.Prelude.{◌≡◌, ◌+◌, ◌<◌, ◌≤◌, length};
ghost use Rattle.night_spec.specs.Spool.{record_at, length_at};

use label_spec::Span;
use terms::{Fault, Reason};

// The two bytes that a record begins with.
const FIRST_MARK: u8 = b'J';

const SECOND_MARK: u8 = b'D';

// The length of the file whose record stands at a place: three bytes, high byte first.
fn length_at(s: &[u8], at: usize) -> usize
    requires { at + 5 ≤ length s.now }
    ensures { (result ≡ length_at s.now at) × (result < 16777216) }
{
    let high = usize::from(s[at + 2]);
    let middle = usize::from(s[at + 3]);
    let low = usize::from(s[at + 4]);
    high * 65536 + middle * 256 + low
}

// What stands at a place of a spool, where so many files may still come: a file, from one place up to another; nothing, where no byte is left; or why the spool is refused. A spool is no text, so its
// refusal has no line and no column.
pub fn record_at(s: &[u8], at: usize, left: usize) -> Result<Option<Span>, Fault>
    ensures { result ≡ record_at left s.now at }
{
    let len = s.len();
    if len <= at {
        return Ok(None);
    }
    if left == 0 {
        return Err(Fault::of(Reason::ManyFiles, at));
    }
    let rest = len - at;
    if rest < 5 {
        return Err(Fault::of(Reason::CutOff, at));
    }
    if s[at] != FIRST_MARK || s[at + 1] != SECOND_MARK {
        return Err(Fault::of(Reason::NoMark, at));
    }
    let size = length_at(s, at);
    if size > rest - 5 {
        return Err(Fault::of(Reason::CutOff, at));
    }
    let from = at + 5;
    let to = from + size;
    Ok(Some(Span { from, to }))
}
