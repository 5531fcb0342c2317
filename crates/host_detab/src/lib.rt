// The functions that C calls to convert an old table or file in place (include/lastarunc.h; 02, T-13).
#![tactic(auto)]

ghost use Rattle.host_detab.specs.Answers.{TableConverted, FileConverted};

// Converts the body of an old table in place (02, T-13): a space for each tab outside comments.
pub fn lastarunc_detab_table(body: &mut [u8])
    ensures { TableConverted body.old body.new }
{
    detab::detab(body);
}

// Converts the body of an old file in place (02, T-13): 1 where it has one, and 0 where it has none and is left as it is.
pub fn lastarunc_detab_file(file: &mut [u8]) -> u64
    ensures { FileConverted file.old file.new result }
{
    u64::from(file_detab::detab_file(file))
}
