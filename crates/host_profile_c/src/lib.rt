// What C calls of host_profile (include/lastarunc.h): its function under the name that the library exports, with the clauses of the function that it calls.
#![tactic(auto)]

ghost use Rattle.host_profile.specs.Answers.{ProfileTold};

// Reads a profile (02, T-09), with the site's page beside the file: refused, place, line, column, points, first, last, whether F, L and FIRSTY's quotient are exact, and whether the refusal is on
// the page. `shown` has three numbers a record in 001's order: whether it is on the page, and from where up to where its text stands.
#[unsafe(no_mangle)]
pub extern "C" fn lastarunc_read_profile(
    file: &[u8],
    page: &[u8],
    out: &mut [i32],
    shown: &mut [u64; 45],
    answer: &mut [u64; 11],
) -> u64
    ensures { ProfileTold file.now page.now out.old out.new shown.old shown.new answer.new result }
{
    host_profile::lastarunc_read_profile(file, page, out, shown, answer)
}
