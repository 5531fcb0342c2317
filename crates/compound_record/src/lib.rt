// A record of a data block of a file (02, T-07). `compound_find::find_blocks` tells its places; `compound_read` passes the function on.
#![tactic(auto)]

ghost use Rattle.std.specs.Prelude.{◌≡◌, length};
ghost use Rattle.label_spec.specs.Names.{norm};
ghost use Rattle.label.specs.Answers.{FindIn};
ghost use Rattle.compound_spec.specs.Answers.{record_in_block};

use label_lines::is_hashed;
use label_page::find_from_mark;
use label_spec::Span;
use terms::{Reason, Refusal};
use text::refusal_in;

// The most bytes of a file.
const LONGEST_FILE: usize = 1048576;

// Where the text of the record with a name stands in a data block, TITLE's own among its records: `from` is the place of its TITLE's `##`, `end` that of its END's. None if it is absent.
pub fn find_in_block(
    file: &[u8],
    from: usize,
    end: usize,
    name: &[u8],
) -> Result<Option<Span>, Refusal>
    ensures { (result ≡ record_in_block file.now from end (norm name.now)) × FindIn (length file.now) result }
{
    if file.len() > LONGEST_FILE {
        return Err(refusal_in(file, Reason::LongFile.number(), 0));
    }
    if end > file.len() {
        return Ok(None);
    }
    if from >= end {
        return Ok(None);
    }
    if !is_hashed(file, from) {
        return Ok(None);
    }
    Ok(find_from_mark(file, from, end, name))
}
