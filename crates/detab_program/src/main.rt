// The program that converts old files (02, T-13): reads a file from standard input and writes it with a space for each tab in its body, or in the body of each data block of a compound file.
// A file without a body to be found is written as it is, and that is said on standard error. A read that fails or ends early ends the input: what came before it is the file.
#![tactic(auto)]

use compound_spec::Blocks;
use standard_input::read_full;
use std::io;
use std::io::Print;

// The most bytes that are read, as jdx has it.
const LONGEST_INPUT: usize = 49152;

// Four numbers for each of the most data blocks that so many bytes have: a block has 16 bytes or more.
const BLOCK_NUMBERS: usize = 12288;

// Converts the data block that stands from one place up to another: it is a file of its own. Has it a body?
fn convert_block(file: &mut [u8], from: usize, to: usize) -> bool {
    file.get_mut(from..to)
        .is_some_and(|block| file_detab::detab_file(block))
}

// Converts the data blocks, so many of them. Has any of them a body?
fn convert_each(file: &mut [u8], blocks: &[u64; BLOCK_NUMBERS], n: usize) -> bool {
    let mut found = false;
    for block in blocks.chunks_exact(4).take(n) {
        found |= convert_block(file, block[0] as usize, block[1] as usize);
    }
    found
}

// Converts a file, or each data block of a compound file. Is there a body?
fn convert(file: &mut [u8]) -> bool {
    if file_detab::detab_file(file) {
        return true;
    }
    let mut blocks = [0u64; BLOCK_NUMBERS];
    match compound_find::find_blocks(file, &mut blocks) {
        Err(_) => false,
        Ok(Blocks::One) => false,
        Ok(Blocks::Compound(n)) => convert_each(file, &blocks, n),
    }
}

// Converts a file and writes it.
fn answer(output: &impl Print, errors: &impl Print, file: &mut [u8]) -> io::Result<()> {
    if !convert(file) {
        println!(errors; "no body of a table was found: the file is written as it was")?;
    }
    output.write_all(file)
}

fn main(rt: HostRuntime) -> io::Result<()> {
    let errors = rt.stderr();
    let mut file = [0u8; LONGEST_INPUT + 1];
    let n = read_full(&mut rt.stdin(), &mut file);
    if n > LONGEST_INPUT {
        println!(errors; "the input has more than {LONGEST_INPUT} bytes: nothing is written")
    } else {
        answer(&rt.stdout(), &errors, &mut file[..n])
    }
}
