// What C calls of host_text (include/lastarunc.h): its functions under the names that the library exports, each with the clauses of the function that it calls.
#![tactic(auto)]

ghost use Rattle.host_text.specs.Answers.{TextTold, FormTold, TextLengthTold};
ghost use Rattle.table_spec.specs.declared.Style.TheVariants.{Difdup};

// Writes a table in DIFDUP form, and answers as the form does.
#[unsafe(no_mangle)]
pub extern "C" fn lastarunc_write_table(
    first: i64,
    last: i64,
    points: usize,
    ordinates: &[i32],
    text: &mut [u8],
    answer: &mut [u64; 5],
) -> u64
    ensures { TextTold Difdup first last points ordinates.now text.old text.new answer.new result }
{
    host_text::lastarunc_write_table(first, last, points, ordinates, text, answer)
}

// Writes a table in the form of this number (02, T-02), and answers as the form does. A number that is no form's is answered too.
#[unsafe(no_mangle)]
pub extern "C" fn lastarunc_write_form(
    form: u64,
    first: i64,
    last: i64,
    points: usize,
    ordinates: &[i32],
    text: &mut [u8],
    answer: &mut [u64; 5],
) -> u64
    ensures { FormTold form first last points ordinates.now text.old text.new answer.new result }
{
    host_text::lastarunc_write_form(form, first, last, points, ordinates, text, answer)
}

// The length of a table's text in the form of this number (02, T-10): as writing it answers, and never with 15. A number that is no form's is answered too.
#[unsafe(no_mangle)]
pub extern "C" fn lastarunc_text_length(
    form: u64,
    first: i64,
    last: i64,
    points: usize,
    ordinates: &[i32],
    answer: &mut [u64; 5],
) -> u64
    ensures { TextLengthTold form first last points ordinates.now answer.new result }
{
    host_text::lastarunc_text_length(form, first, last, points, ordinates, answer)
}
