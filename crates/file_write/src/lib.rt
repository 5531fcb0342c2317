// Writing a file (02, T-04): title, N, five decimals and ordinates into the lent bytes, or a refusal, which leaves them as they were; and how long the file is (T-10).
#![tactic(auto)]

ghost use Rattle.std.specs.Prelude.{length};
ghost use Rattle.file_write_spec.specs.File.{file_exact, write_file};
ghost use Rattle.file_lay.specs.Answers.{FileTells};
ghost use Rattle.file_write.specs.Room.{FileMeasured};

use file_lay::lay;
use file_measure::measure;
use file_plan::plan_file;
use file_write_spec::{FileLength, Scales};
use terms::Fault;

// Writes a file: any title, N, decimals and slices. Written: its length and what of it is exact, and the file stands from the first
// of the lent bytes on. Refused, at place 0: every lent byte is what it was.
pub fn write_file(
    title: &[u8],
    points: usize,
    scales: Scales,
    ordinates: &[i32],
    text: &mut [u8],
) -> Result<FileLength, Fault>
    ensures { FileTells (file_exact scales points ordinates.now)
        (write_file title.now points scales ordinates.now (length text.old)) text.old text.new result }
{
    let p = plan_file(title, points, scales, ordinates)?;
    lay(title, p.numbers, p.first, p.last, p.exact, ordinates, text)
}

// The length of the file that `write_file` would write, however little room there is, and what of it is exact; or its refusal, which is never 15 (02, T-10). Nothing is written.
pub fn file_length(
    title: &[u8],
    points: usize,
    scales: Scales,
    ordinates: &[i32],
) -> Result<FileLength, Fault>
    ensures { FileMeasured title.now points scales ordinates.now result }
{
    let p = plan_file(title, points, scales, ordinates)?;
    measure(title, p.numbers, p.first, p.last, p.exact, ordinates)
}
