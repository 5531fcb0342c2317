// What C calls of host_detab (include/lastarunc.h): its functions under the names that the library exports, each with the clauses of the function that it calls.
#![tactic(auto)]

ghost use Rattle.host_detab.specs.Answers.{TableConverted, FileConverted};

// Converts the body of an old table in place (02, T-13): a space for each tab outside comments.
#[unsafe(no_mangle)]
pub extern "C" fn lastarunc_detab_table(body: &mut [u8])
    ensures { TableConverted body.old body.new }
{
    host_detab::lastarunc_detab_table(body);
}

// Converts the body of an old file in place (02, T-13): 1 where it has one, and 0 where it has none and is left as it is.
#[unsafe(no_mangle)]
pub extern "C" fn lastarunc_detab_file(file: &mut [u8]) -> u64
    ensures { FileConverted file.old file.new result }
{
    host_detab::lastarunc_detab_file(file)
}
