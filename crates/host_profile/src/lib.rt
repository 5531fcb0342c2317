// The function that C calls to read a profile (include/lastarunc.h; 02, T-09).
// It fills its answer, a struct of 64-bit numbers for C, and returns the first of them, `refused`: 0 for acceptance. Every number is set, and what is not given is 0.
#![tactic(auto)]

ghost use Rattle.host_profile.specs.Answers.{ProfileTold};

use host_numbers::{bits_of, flag_of, flags_of};
use profile_spec::PageRefusal;

// Reads a profile (02, T-09), with the site's page beside the file: refused, place, line, column, points, first, last, whether F, L and FIRSTY's quotient are exact, and whether the refusal is on
// the page. `shown` has three numbers a record in 001's order: whether it is on the page, and from where up to where its text stands.
pub fn lastarunc_read_profile(
    file: &[u8],
    page: &[u8],
    out: &mut [i32],
    shown: &mut [u64; 45],
    answer: &mut [u64; 11],
) -> u64
    ensures { ProfileTold file.now page.now out.old out.new shown.old shown.new answer.new result }
{
    match profile::read_profile(file, page, out, shown) {
        Ok(t) => {
            let n = t.points;
            let f = bits_of(t.first);
            let l = bits_of(t.last);
            let [ef, el, ey] = flags_of(t.exact);
            *answer = [0, 0, 0, 0, n as u64, f, l, ef, el, ey, 0];
            0
        }
        Err(PageRefusal { page: q, refusal }) => {
            let on_page = flag_of(q);
            *answer = [
                refusal.number,
                refusal.place as u64,
                refusal.line as u64,
                refusal.column as u64,
                0,
                0,
                0,
                0,
                0,
                0,
                on_page,
            ];
            refusal.number
        }
    }
}
