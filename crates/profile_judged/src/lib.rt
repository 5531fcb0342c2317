// The fifteen records of a file of the ion mobility profile whose table was checked (02, T-09; document 001): 30 and 31.
#![tactic(auto)]

ghost use Rattle.std.specs.Prelude.{◌≡◌, ◌≤◌, length};
ghost use Rattle.profile_judged.specs.Judged.{unfit_fault, ChecksRecords};

use file_tabled::TablePlace;
use profile_records::survey;
use profile_spec::Unfit;
use terms::{Fault, Reason};

// The fault of a profile: its place is counted on the page or in the file.
#[derive(Clone, Copy)]
pub struct PageFault {
    pub page: bool,
    pub fault: Fault,
}

// The fault of records that are unfit: 30 stands at END's `##`, 31 at its word.
fn fault_of(unfit: Unfit, end: usize) -> PageFault
    ensures { result ≡ unfit_fault end unfit }
{
    match unfit {
        Unfit::Lacking => PageFault {
            page: false,
            fault: Fault::of(Reason::NoProfileRecord, end),
        },
        Unfit::Unlisted { page, place } => PageFault {
            page,
            fault: Fault::of(Reason::UnlistedWord, place),
        },
    }
}

// The fifteen records of a file whose table was checked: 30, at END's `##`, then 31. Its own records stand from the place `start` up to `end`.
pub fn check_records(
    file: &[u8],
    start: usize,
    end: usize,
    page: &[u8],
    places: &mut [u64],
    k: TablePlace,
) -> Result<TablePlace, PageFault>
    requires { (start ≤ length file.now) × (length places.old ≡ 45) }
    ensures { ChecksRecords file.now start end page.now k places.new result }
{
    match survey(file, start, end, page, places) {
        Ok(()) => Ok(k),
        Err(unfit) => Err(fault_of(unfit, end)),
    }
}
