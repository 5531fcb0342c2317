// What a C host is told of a file, a record and data blocks (02, T-01, T-07): the numbers of its answer, of which the first, `refused`, is returned. C calls `host_file` and `host_blocks`.
#![tactic(auto)]

ghost use Rattle.host_numbers.specs.Numbers.{Told};
ghost use Rattle.host_read.specs.Answers.{file_numbers, record_numbers, blocks_numbers, block_numbers};

use compound_spec::Blocks;
use file_spec::FileTable;
use host_numbers::{bits_of, flags_of};
use label_spec::Span;
use terms::Refusal;

// What is answered for a record or a block that is absent, -1 for C (LASTARUNC_ABSENT in the header): no refusal has this number.
const ABSENT: u64 = 18446744073709551615;

// A file read: refused, place, line, column, points, first, last, and whether F, L and FIRSTY's quotient are exact.
pub fn tell_file(read: Result<FileTable, Refusal>, answer: &mut [u64; 10]) -> u64
    ensures { Told (file_numbers read) answer.new result }
{
    match read {
        Ok(t) => {
            let n = t.points;
            let f = bits_of(t.first);
            let l = bits_of(t.last);
            let [ef, el, ey] = flags_of(t.exact);
            *answer = [0, 0, 0, 0, n as u64, f, l, ef, el, ey];
            0
        }
        Err(r) => {
            *answer = [
                r.number,
                r.place as u64,
                r.line as u64,
                r.column as u64,
                0,
                0,
                0,
                0,
                0,
                0,
            ];
            r.number
        }
    }
}

// A data block read: as a file is; or that there is no block.
pub fn tell_block(read: Option<Result<FileTable, Refusal>>, answer: &mut [u64; 10]) -> u64
    ensures { Told (block_numbers read) answer.new result }
{
    match read {
        Some(read) => tell_file(read, answer),
        None => {
            *answer = [ABSENT, 0, 0, 0, 0, 0, 0, 0, 0, 0];
            ABSENT
        }
    }
}

// Where the text of a record stands, or that there is none, after the four numbers of a refusal.
fn tell_place(place: Option<Span>, answer: &mut [u64; 6]) -> u64
    ensures { Told (record_numbers (Ok place)) answer.new result }
{
    match place {
        Some(x) => {
            *answer = [0, 0, 0, 0, x.from as u64, x.to as u64];
            0
        }
        None => {
            *answer = [ABSENT, 0, 0, 0, 0, 0];
            ABSENT
        }
    }
}

// A record looked for: refused, place, line, column, from, to.
pub fn tell_record(found: Result<Option<Span>, Refusal>, answer: &mut [u64; 6]) -> u64
    ensures { Told (record_numbers found) answer.new result }
{
    match found {
        Ok(place) => tell_place(place, answer),
        Err(r) => {
            *answer = [
                r.number,
                r.place as u64,
                r.line as u64,
                r.column as u64,
                0,
                0,
            ];
            r.number
        }
    }
}

// Whether a file is compound, and how many data blocks it has, after the four numbers of a refusal.
fn tell_count(blocks: Blocks, answer: &mut [u64; 6]) -> u64
    ensures { Told (blocks_numbers (Ok blocks)) answer.new result }
{
    *answer = match blocks {
        Blocks::One => [0, 0, 0, 0, 0, 1],
        Blocks::Compound(n) => [0, 0, 0, 0, 1, n as u64],
    };
    0
}

// The data blocks of a file: refused, place, line, column, compound, blocks.
pub fn tell_blocks(found: Result<Blocks, Refusal>, answer: &mut [u64; 6]) -> u64
    ensures { Told (blocks_numbers found) answer.new result }
{
    match found {
        Err(r) => {
            *answer = [
                r.number,
                r.place as u64,
                r.line as u64,
                r.column as u64,
                0,
                0,
            ];
            r.number
        }
        Ok(blocks) => tell_count(blocks, answer),
    }
}
