// The report of a file (02, T-11): it is read as a simple one, and its ordinates are gone over once.
#![tactic(auto)]

ghost use Rattle.file_tally.specs.Says.{ReportSays};

use night_spec::Account;
use ordinate_account::account;
use terms::Refusal;

// The report of a file: any bytes, any slice. The slice is left as reading the file leaves it.
pub fn report_file(file: &[u8], out: &mut [i32]) -> Result<Account, Refusal>
    ensures { ReportSays file.now out.old out.new result }
{
    let table = file::read_file(file, out)?;
    Ok(account(out, table.points))
}
