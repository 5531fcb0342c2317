// What checking a file answers (01, "The file"): its table and where its body stands, or a fault, with its place counted in the file.
#![tactic(auto)]

ghost use Rattle.std.specs.Prelude.{◌≡◌, ◌+◌, ◌≤◌};
ghost use Rattle.label_spec.specs.File.{longest_file};
ghost use Rattle.terms.specs.Refusals.{fault_at};
ghost use Rattle.file_spec.specs.File.{in_file};

use file_spec::FileTable;
use label_spec::Span;
use terms::Fault;

// A table that was checked: N, F, L and what is exact, and the part of the file that is its body.
#[derive(Clone, Copy)]
pub struct TablePlace {
    pub table: FileTable,
    pub body: Span,
}

// A fault of the body, with its place counted in the file; 1 and 2 stand at 0.
pub fn moved_in(fault: Fault, start: usize) -> Fault
    requires { start + fault.place ≤ longest_file }
    ensures { result ≡ fault_at fault.number (in_file start fault.number fault.place) }
{
    let number = fault.number;
    if number <= 2 {
        return Fault { number, place: 0 };
    }
    Fault {
        number,
        place: start + fault.place,
    }
}
