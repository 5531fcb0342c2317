// What C calls of host_blocks (include/lastarunc.h): its functions under the names that the library exports, each with the clauses of the function that it calls.
#![tactic(auto)]

ghost use Rattle.host_blocks.specs.Answers.{BlocksTold, BlockTold, BlockRecordTold};

// Finds the data blocks of a file (02, T-07): refused, place, line, column, compound, blocks.
#[unsafe(no_mangle)]
pub extern "C" fn lastarunc_find_blocks(
    file: &[u8],
    blocks: &mut [u64],
    answer: &mut [u64; 6],
) -> u64
    ensures { BlocksTold file.now blocks.old blocks.new answer.new result }
{
    host_blocks::lastarunc_find_blocks(file, blocks, answer)
}

// Reads a data block (02, T-07), whose numbers are from, to, start, end: as a file is read. A negative number is one beyond every file here.
#[unsafe(no_mangle)]
pub extern "C" fn lastarunc_read_block(
    file: &[u8],
    block: &[u64; 4],
    out: &mut [i32],
    answer: &mut [u64; 10],
) -> u64
    ensures { BlockTold file.now block.now out.old out.new answer.new result }
{
    host_blocks::lastarunc_read_block(file, block, out, answer)
}

// Finds the text of a record of a data block (02, T-07): refused, place, line, column, from, to.
#[unsafe(no_mangle)]
pub extern "C" fn lastarunc_find_in_block(
    file: &[u8],
    block: &[u64; 4],
    name: &[u8],
    answer: &mut [u64; 6],
) -> u64
    ensures { BlockRecordTold file.now block.now name.now answer.new result }
{
    host_blocks::lastarunc_find_in_block(file, block, name, answer)
}
