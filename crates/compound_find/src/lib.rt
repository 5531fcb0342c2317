// Finding the data blocks of a file (02, T-07): the survey, then BLOCKS (25, 32), and only then the blocks are stored. A refusal leaves every lent number as it was.
#![tactic(auto)]

ghost use Rattle.std.specs.Prelude.{◌≡◌, ◌<◌, length};
ghost use Rattle.label.specs.Answers.{found_in};
ghost use Rattle.file_marks.specs.Spans.{Within};
ghost use Rattle.compound_find.specs.Answers.{counted_by, judged_by, Stores, FindsBlocks};

use compound_blocks::store_blocks;
use compound_spec::{Blocks, Own};
use compound_survey::survey;
use decimal_spec::Count;
use file_marks::mark_in;
use file_texts::count_in;
use label_spec::Span;
use terms::{Fault, Reason, Refusal};
use text::refusal_in;

// BLOCKS, whose text this is, against the number of data blocks (32).
fn judge_count(file: &[u8], x: Span, count: usize) -> Result<Blocks, Fault>
    requires { Within (length file.now) x }
    ensures { result ≡ counted_by file.now x count }
{
    match count_in(file, x) {
        None => Err(Fault::of(Reason::WrongBlocks, mark_in(file, x))),
        Some(Count { value, end: _ }) => {
            if value == count as u64 {
                return Ok(Blocks::Compound(count));
            }
            Err(Fault::of(Reason::WrongBlocks, mark_in(file, x)))
        }
    }
}

// The outermost block, by what its own labels say: LINK or not; then BLOCKS (25, 32).
fn judge_whole(file: &[u8], end: usize, own: Own, count: usize) -> Result<Blocks, Fault>
    requires { found_in 0 (length file.now) own.blocks }
    ensures { result ≡ judged_by file.now end own count }
{
    if !own.link {
        return Ok(Blocks::One);
    }
    match own.blocks {
        None => Err(Fault::of(Reason::NoRecord, end)),
        Some(x) => judge_count(file, x, count),
    }
}

// Stores as many of the data blocks as there is room for. The outermost TITLE's `##` and `=` stand at these places.
fn store_fitting(file: &[u8], blocks: &mut [u64], title: usize, eq: usize, count: usize)
    requires { eq < length file.now }
    ensures { Stores file.now blocks.old title eq count blocks.new }
{
    let room = blocks.len() / 4;
    if count <= room {
        store_blocks(file, blocks, title, eq, count);
    } else {
        store_blocks(file, blocks, title, eq, room);
    }
}

// Finds the data blocks of a file: any bytes, any slice. Refused: number, place, line and column in the file, and every lent number is what it was. Otherwise whether the file is one data block
// or how many a compound one has, and as many of them as there is room for are stored, four numbers each: from, to, start, end. The numbers past them are what they were.
pub fn find_blocks(file: &[u8], blocks: &mut [u64]) -> Result<Blocks, Refusal>
    ensures { FindsBlocks file.now blocks.old blocks.new result }
{
    match survey(file) {
        Err(f) => Err(refusal_in(file, f.number, f.place)),
        Ok(told) => {
            let block = told.outermost;
            match judge_whole(file, block.end, told.own, told.count) {
                Err(f) => Err(refusal_in(file, f.number, f.place)),
                Ok(found) => {
                    store_fitting(file, blocks, block.title, block.eq, told.count);
                    Ok(found)
                }
            }
        }
    }
}
