// Reading a file (01, "The file"): it is first checked (`file_check`), with nothing to write to, and then its ordinates are stored. So a refusal leaves every lent ordinate as it was.
// The file is lent and never written to.
#![tactic(auto)]

ghost use Rattle.std.specs.Prelude.{◌≡◌, ◌-◌, ◌≤◌, length};
ghost use Rattle.label_spec.specs.File.{longest_file};
ghost use Rattle.table_spec.specs.Reading.{stored};
ghost use Rattle.file_spec.specs.Texts.{gathered_from};
ghost use Rattle.file_spec.specs.File.{by_records};
ghost use Rattle.file.specs.Answers.{staged_by, left_by, StageSays, FileSays};
ghost use Rattle.file_body.specs.Checks.{table_at, Laid, LaidIn};

use file_check::{check_file, check_part};
use file_spec::FileTable;
use file_tabled::TablePlace;
use terms::{Fault, Refusal};
use text::refusal_in;

// Stores the ordinates of a table that was checked and found right.
pub fn store_file(file: &[u8], out: &mut [i32], k: TablePlace)
    requires { Laid file.now (length out.old) k }
    ensures { out.new ≡ stored out.old (table_at file.now (length out.old) k) }
{
    let t = k.table;
    let b = k.body;
    let from = b.from;
    let to = b.to;
    table_read::store_table(t.first, t.last, t.points, &file[from..to], out);
}

// What was checked, its ordinates stored if it has no fault.
fn settle(file: &[u8], out: &mut [i32], c: Result<TablePlace, Fault>) -> Result<FileTable, Fault>
    requires { LaidIn file.now (length out.old) c }
    ensures { (result ≡ staged_by c) × (out.new ≡ left_by file.now out.old c) }
{
    let k = c?;
    store_file(file, out, k);
    Ok(k.table)
}

// Reads the records from the place `start`, after TITLE's `=`, up to END's `##`. The reader of the blocks of a file calls it.
pub fn read_part(file: &[u8], out: &mut [i32], start: usize, end: usize) -> Result<FileTable, Fault>
    requires { (start ≤ length file.now) × (length file.now ≤ longest_file) }
    ensures { StageSays (by_records file.now (length out.old) end (gathered_from file.now start end)) out.old out.new result }
{
    let c = check_part(file, out.len(), start, end);
    settle(file, out, c)
}

// Reads a file: any bytes, any slice. Accepted: N, F, L and what is exact, and the first N entries are the ordinates.
// Refused: number, place, line and column in the file, and every entry is what it was.
pub fn read_file(file: &[u8], out: &mut [i32]) -> Result<FileTable, Refusal>
    ensures { FileSays file.now out.old out.new result }
{
    let c = check_file(file, out.len());
    match settle(file, out, c) {
        Ok(t) => Ok(t),
        Err(f) => Err(refusal_in(file, f.number, f.place)),
    }
}
