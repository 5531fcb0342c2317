// What a reader of the ion mobility profile is told (02, T-09): the refusal, on the page or in the file, and the numbers that show its texts.
#![tactic(auto)]

ghost use Rattle.std.specs.Prelude.{◌≡◌};
ghost use Rattle.std.proofs.lemmas.List.Edits.{sets};
ghost use Rattle.profile_spec.specs.Profile.{refuse_profile, told_profile};

use file_spec::FileTable;
use profile_spec::PageRefusal;
use text::refusal_in;

// The refusal of a number at a place of the page or of the file, with line and column there.
pub fn refuse(
    file: &[u8],
    page: &[u8],
    on_page: bool,
    number: u64,
    place: usize,
) -> Result<FileTable, PageRefusal>
    ensures { result ≡ told_profile file.now page.now (refuse_profile on_page number place) }
{
    if on_page {
        let refusal = refusal_in(page, number, place);
        return Err(PageRefusal {
            page: true,
            refusal,
        });
    }
    let refusal = refusal_in(file, number, place);
    Err(PageRefusal {
        page: false,
        refusal,
    })
}

// Stores numbers from the first entry on, as many as there is room for. One by one: of `copy_from_slice` the compiler makes a call of `memcpy`, and no archive for C may need that from outside.
pub fn store_numbers(numbers: &[u64], out: &mut [u64])
    ensures { out.new ≡ sets out.old 0 numbers.now }
{
    for i in 0..numbers.len() {
        if i >= out.len() {
            return;
        }
        out[i] = numbers[i];
    }
}
