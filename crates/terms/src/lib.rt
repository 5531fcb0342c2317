// The types that definitions and code share (01, "Refusal numbers"; 02, T-01): why something is refused, a fault, and a refusal.
#![tactic(auto)]

ghost use Rattle.std.specs.Prelude.{◌≡◌};
ghost use Rattle.terms.specs.Refusals.{fault_at, reason_number};

// Why something is refused: the refusals of documents 01 and 02, by name. Their numbers are what a fault carries, since definitions, pages and C know them by number.
#[derive(Clone, Copy, Debug, PartialEq, Eq)]
pub enum Reason {
    OutsideLimits,
    LittleRoom,
    StrayByte,
    NoHead,
    Misspelled,
    WrongHead,
    BareHead,
    Misplaced,
    OutOfRange,
    CheckFailed,
    TooMany,
    TooFew,
    NoCheckLine,
    NoFit,
    LongLine,
    LongFile,
    BadLabel,
    NoTitle,
    NoEnd,
    LabelTwice,
    StrayTitle,
    NoRecord,
    BadNumber,
    OtherForm,
    FarAbscissa,
    WrongFirst,
    NoProfileRecord,
    UnlistedWord,
    WrongBlocks,
    TableInLink,
    NoMark,
    CutOff,
    ManyFiles,
    BadTitle,
}

// A fault: its number in document 01, and its place, in bytes from 0. What is inside the readers, and the writers, answer it.
#[derive(Clone, Copy, Debug, PartialEq, Eq)]
pub struct Fault {
    pub number: u64,
    pub place: usize,
}

// A refusal of a reader: a fault, with the line and the column of its place in the text that was read, both from 1. All readers share it; `text::refusal_in` makes it.
#[derive(Clone, Copy, Debug, PartialEq, Eq)]
pub struct Refusal {
    pub number: u64,
    pub place: usize,
    pub line: usize,
    pub column: usize,
}

impl Reason {
    // The number of a refusal in documents 01 and 02.
    pub fn number(self) -> u64
        ensures { result ≡ reason_number self }
    {
        match self {
            Reason::OutsideLimits => 1,
            Reason::LittleRoom => 2,
            Reason::StrayByte => 3,
            Reason::NoHead => 4,
            Reason::Misspelled => 5,
            Reason::WrongHead => 6,
            Reason::BareHead => 7,
            Reason::Misplaced => 8,
            Reason::OutOfRange => 9,
            Reason::CheckFailed => 10,
            Reason::TooMany => 11,
            Reason::TooFew => 12,
            Reason::NoCheckLine => 13,
            Reason::NoFit => 15,
            Reason::LongLine => 16,
            Reason::LongFile => 19,
            Reason::BadLabel => 20,
            Reason::NoTitle => 21,
            Reason::NoEnd => 22,
            Reason::LabelTwice => 23,
            Reason::StrayTitle => 24,
            Reason::NoRecord => 25,
            Reason::BadNumber => 26,
            Reason::OtherForm => 27,
            Reason::FarAbscissa => 28,
            Reason::WrongFirst => 29,
            Reason::NoProfileRecord => 30,
            Reason::UnlistedWord => 31,
            Reason::WrongBlocks => 32,
            Reason::TableInLink => 33,
            Reason::NoMark => 34,
            Reason::CutOff => 35,
            Reason::ManyFiles => 36,
            Reason::BadTitle => 37,
        }
    }
}

impl Fault {
    // The fault of a number at a place.
    pub fn new(number: u64, place: usize) -> Fault
        ensures { result ≡ fault_at number place }
    {
        Fault { number, place }
    }

    // The fault of a reason at a place.
    pub fn of(why: Reason, place: usize) -> Fault
        ensures { result ≡ fault_at (reason_number why) place }
    {
        Fault::new(why.number(), place)
    }
}

// A reason alone concerns the whole: its place is 0.
impl From<Reason> for Fault {
    ghost from_gives = { λ why fault. fault ≡ fault_at (reason_number why) 0 };

    fn from(why: Reason) -> Fault {
        Fault::of(why, 0)
    }
}
