// The functions that C calls for the data blocks of a compound file (include/lastarunc.h; 02, T-07). Each fills its answer, a struct of 64-bit numbers for C, and returns the first of them,
// `refused`: 0 for acceptance. Every argument is answered, every number is set, and what is not given is 0.
#![tactic(auto)]

ghost use Rattle.host_blocks.specs.Answers.{BlocksTold, BlockTold, BlockRecordTold};

use host_read::{tell_block, tell_blocks, tell_record};

// Finds the data blocks of a file (02, T-07): refused, place, line, column, compound, blocks.
pub fn lastarunc_find_blocks(file: &[u8], blocks: &mut [u64], answer: &mut [u64; 6]) -> u64
    ensures { BlocksTold file.now blocks.old blocks.new answer.new result }
{
    let found = compound_find::find_blocks(file, blocks);
    tell_blocks(found, answer)
}

// Reads a data block (02, T-07), whose numbers are from, to, start, end: as a file is read. A negative number is one beyond every file here.
pub fn lastarunc_read_block(
    file: &[u8],
    block: &[u64; 4],
    out: &mut [i32],
    answer: &mut [u64; 10],
) -> u64
    ensures { BlockTold file.now block.now out.old out.new answer.new result }
{
    let [_, _, start, end] = *block;
    let read = compound_read::read_block(file, start as usize, end as usize, out);
    tell_block(read, answer)
}

// Finds the text of a record of a data block (02, T-07): refused, place, line, column, from, to.
pub fn lastarunc_find_in_block(
    file: &[u8],
    block: &[u64; 4],
    name: &[u8],
    answer: &mut [u64; 6],
) -> u64
    ensures { BlockRecordTold file.now block.now name.now answer.new result }
{
    let [from, _, _, end] = *block;
    let found = compound_read::find_in_block(file, from as usize, end as usize, name);
    tell_record(found, answer)
}
