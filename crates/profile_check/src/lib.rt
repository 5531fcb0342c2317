// Checking a file of the ion mobility profile, with the site's page lent beside it, with nothing to store its ordinates in (02, T-09; document 001).
#![tactic(auto)]

ghost use Rattle.std.specs.Prelude.{◌≡◌, length};
ghost use Rattle.profile_check.specs.Post.{Checks};

use file_check::check_part;
use file_tabled::TablePlace;
use label_spec::Places;
use profile_judged::{PageFault, check_records};

// What a profile says, with room for so many ordinates: all that the plain reader refuses, then 30 and 31. The numbers that show its fifteen texts are left in `places`.
pub fn check_profile(
    file: &[u8],
    page: &[u8],
    room: usize,
    places: &mut [u64],
) -> Result<TablePlace, PageFault>
    requires { length places.old ≡ 45 }
    ensures { Checks file.now page.now room places.new result }
{
    match label_walk::labels(file) {
        Err(fault) => Err(PageFault { page: false, fault }),
        Ok(Places { title: _, eq, end }) => {
            let start = eq + 1;
            match check_part(file, room, start, end) {
                Err(fault) => Err(PageFault { page: false, fault }),
                Ok(k) => check_records(file, start, end, page, places, k),
            }
        }
    }
}
