// What C calls of host_file_text (include/lastarunc.h): its functions under the names that the library exports, each with the clauses of the function that it calls.
#![tactic(auto)]

ghost use Rattle.host_file_text.specs.Answers.{FileTextTold, FileLengthTold};

// Writes a file (02, T-04): refused, length, and whether F, L and FIRSTY's quotient are exact.
#[unsafe(no_mangle)]
pub extern "C" fn lastarunc_write_file(
    title: &[u8],
    points: usize,
    scales: &[i64; 10],
    ordinates: &[i32],
    text: &mut [u8],
    answer: &mut [u64; 5],
) -> u64
    ensures { FileTextTold title.now points scales.now ordinates.now text.old text.new answer.new result }
{
    host_file_text::lastarunc_write_file(title, points, scales, ordinates, text, answer)
}

// The length of a file (02, T-10): as writing it answers, and never with 15.
#[unsafe(no_mangle)]
pub extern "C" fn lastarunc_file_length(
    title: &[u8],
    points: usize,
    scales: &[i64; 10],
    ordinates: &[i32],
    answer: &mut [u64; 5],
) -> u64
    ensures { FileLengthTold title.now points scales.now ordinates.now answer.new result }
{
    host_file_text::lastarunc_file_length(title, points, scales, ordinates, answer)
}
