// Reading a file of the ion mobility profile, with the site's page lent beside it (02, T-09; document 001). It is first checked, with nothing lent written to, and then its ordinates and the
// numbers that show its fifteen texts are stored. So a refusal leaves both as they were.
#![tactic(auto)]

ghost use Rattle.std.specs.Prelude.{◌≡◌, length};
ghost use Rattle.profile.specs.Answers.{ProfileSays};

use file::store_file;
use file_spec::FileTable;
use profile_check::check_profile;
use profile_judged::PageFault;
use profile_spec::PageRefusal;
use profile_told::{refuse, store_numbers};

// What was checked is stored if it has no fault. The numbers that show the fifteen texts are first left in `places`.
fn settle(
    file: &[u8],
    page: &[u8],
    out: &mut [i32],
    shown: &mut [u64],
    places: &mut [u64],
) -> Result<FileTable, PageRefusal>
    requires { length places.old ≡ 45 }
    ensures { ProfileSays file.now page.now out.old out.new shown.old shown.new result }
{
    match check_profile(file, page, out.len(), places) {
        Err(PageFault { page: q, fault }) => refuse(file, page, q, fault.number, fault.place),
        Ok(k) => {
            let table = k.table;
            store_file(file, out, k);
            store_numbers(places, shown);
            Ok(table)
        }
    }
}

// Reads a file of the profile with the site's page: any bytes, any slices. Accepted: as a file, and `shown` has three numbers a record in 001's order, whether it is on the page, and from where up
// to where its text stands, as many as there is room for. Refused: number, and place, line and column on the page or in the file; every ordinate and every number is what it was.
pub fn read_profile(
    file: &[u8],
    page: &[u8],
    out: &mut [i32],
    shown: &mut [u64],
) -> Result<FileTable, PageRefusal>
    ensures { ProfileSays file.now page.now out.old out.new shown.old shown.new result }
{
    let mut places = [0u64; 45];
    settle(file, page, out, shown, &mut places)
}
