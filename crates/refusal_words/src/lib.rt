// What refusals mean, in words. Nothing is claimed of them: that the programs print them is tested against stored output.
#![tactic(auto)]

// What the number of a file's refusal means. Of those in `0..=18` only 16 comes so far, and of the rest only 29.
pub fn meaning(number: u64) -> &'static str {
    match number {
        1 => "the frame or the body is outside its limits",
        2 => "there are more points than there is room for",
        3 => "this byte cannot stand here",
        4 => "a line must begin with a head: sign, 1 to 7 digits, a point and 0 to 3 digits",
        5 => "this value is misspelled, or a digit stands directly after ?",
        6 => "this head is not the abscissa of its point",
        7 => "no value follows this head",
        8 => "a difference or a repeat cannot stand here, or repeats fewer than 2",
        9 => "this value gives an ordinate out of range",
        10 => "the first value of this line does not equal the last ordinate before it",
        11 => "more points than NPOINTS says",
        12 => "fewer points than NPOINTS says",
        13 => "the last line ends in difference form, and no check line follows",
        0..=18 => "this line has more than 80 bytes",
        19 => "the file is too long",
        20 => "this label has no =, or its name is too long",
        21 => "TITLE must be the first label",
        22 => "there is no END",
        23 => "this label stands twice",
        24 => "TITLE stands again before END",
        25 => "one of XFACTOR, YFACTOR, FIRSTX, LASTX, NPOINTS, FIRSTY, XYDATA is absent",
        26 => "this number is misspelled or outside its rule",
        27 => "the list after XYDATA= is not (X++(Y..Y))",
        28 => "FIRSTX or LASTX divided by XFACTOR is beyond its limit",
        _ => "the first ordinate does not agree with FIRSTY divided by YFACTOR",
    }
}
