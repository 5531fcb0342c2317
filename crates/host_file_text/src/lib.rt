// The functions that C calls to write a file and to measure it (include/lastarunc.h; 02, T-04, T-10). Each fills its answer, a struct of 64-bit numbers for C, and returns the first of them,
// `refused`: 0 for acceptance. Every argument is answered, every number is set, and what is not given is 0.
#![tactic(auto)]

ghost use Rattle.std.specs.Prelude.{◌≡◌};
ghost use Rattle.host_file_text.specs.Answers.{scales_of, file_numbers, FileTextTold, FileLengthTold};
ghost use Rattle.host_numbers.specs.Numbers.{Told};

use file_write_spec::{FileLength, GivenDecimal, Scales};
use host_numbers::flags_of;
use terms::Fault;

// Tells what the writer of files answered: refused, length, and whether F, L and FIRSTY's quotient are exact.
fn tell_file(written: Result<FileLength, Fault>, answer: &mut [u64; 5]) -> u64
    ensures { Told (file_numbers written) answer.new result }
{
    match written {
        Ok(n) => {
            let [ef, el, ey] = flags_of(n.exact);
            *answer = [0, n.length as u64, ef, el, ey];
            0
        }
        Err(refusal) => {
            *answer = [refusal.number, 0, 0, 0, 0];
            refusal.number
        }
    }
}

// The five decimals of a file, each a mantissa and an exponent: XFACTOR, YFACTOR, FIRSTX, LASTX, FIRSTY.
fn scales_of(scales: &[i64; 10]) -> Scales
    ensures { result ≡ scales_of scales.now }
{
    Scales {
        xfactor: GivenDecimal {
            mantissa: scales[0],
            exponent: scales[1],
        },
        yfactor: GivenDecimal {
            mantissa: scales[2],
            exponent: scales[3],
        },
        firstx: GivenDecimal {
            mantissa: scales[4],
            exponent: scales[5],
        },
        lastx: GivenDecimal {
            mantissa: scales[6],
            exponent: scales[7],
        },
        firsty: GivenDecimal {
            mantissa: scales[8],
            exponent: scales[9],
        },
    }
}

// Writes a file (02, T-04): refused, length, and whether F, L and FIRSTY's quotient are exact.
pub fn lastarunc_write_file(
    title: &[u8],
    points: usize,
    scales: &[i64; 10],
    ordinates: &[i32],
    text: &mut [u8],
    answer: &mut [u64; 5],
) -> u64
    ensures { FileTextTold title.now points scales.now ordinates.now text.old text.new answer.new result }
{
    let written = file_write::write_file(title, points, scales_of(scales), ordinates, text);
    tell_file(written, answer)
}

// The length of a file (02, T-10): as writing it answers, and never with 15.
pub fn lastarunc_file_length(
    title: &[u8],
    points: usize,
    scales: &[i64; 10],
    ordinates: &[i32],
    answer: &mut [u64; 5],
) -> u64
    ensures { FileLengthTold title.now points scales.now ordinates.now answer.new result }
{
    let written = file_write::file_length(title, points, scales_of(scales), ordinates);
    tell_file(written, answer)
}
