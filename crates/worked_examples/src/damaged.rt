// Task files, most of them damaged, and how each is answered. tests/damaged-tasks.txt has the same cases for the program.

// A task file; the number and the place of its refusal, or none where it is accepted; and why.
pub struct Case {
    pub file: &'static [u8],
    pub refusal: Option<(u8, usize)>,
    pub why: &'static str,
}

// A row is a file, its refusal and why.
macro_rules! cases {
    ($($file:literal => $refusal:expr, $why:literal;)*) => {
        &[$(Case { file: $file, refusal: $refusal, why: $why }),*]
    };
}

pub const COMMANDS: &[Case] = cases! {
    b"" => Some((2, 0)), "the empty file";
    b"\x00" => Some((2, 0)), "00 is no command";
    b"\x01" => Some((2, 0)), "SIZES without its operands";
    b"\x01\x01\x01" => Some((2, 0)), "SIZES lacks an operand";
    b"\x02" => Some((2, 0)), "an operand is missing, which is asked before the order";
    b"\x01\x01\x01\x01" => Some((2, 4)), "the file ends after SIZES";
    b"\x01\x01\x01\x01\x0b" => Some((2, 4)), "0B is no command";
    b"\x01\x01\x01\x01\x10" => Some((2, 4)), "10 is no command";
    b"\x01\x01\x01\x01\x81\x01\x01\x01" => Some((2, 4)), "a command byte has no sign";
    b"\x01\x01\x01\x01\x04" => Some((2, 4)), "MOVE lacks its operand";
    b"\x01\x01\x01\x01\x04\x00" => Some((2, 6)), "END is missing";
    b"\x01\x01\x01\x01\x04\x00\x05" => Some((2, 6)), "NEED lacks its operand";
    b"\x01\x01\x01\x01\x04\x00\x07" => Some((2, 7)), "END is missing after an effect";
    b"\x01\x01\x01\x01\x04\x00\x07\x0a" => Some((2, 7)), "THEN lacks its operand";
    b"\x01\x01\x01\x01\x04\x00\x0f" => None, "the smallest task";
    b"\x01\x01\x01\x01\x04\x00\x0f\x00" => Some((2, 7)), "an unknown byte after END";
    b"\x01\x01\x01\x01\x04\x00\x0f\x05" => Some((2, 7)), "a command that is cut off after END";
    b"\x01\x01\x01\x01\x04\x00\x0f\x0f" => Some((3, 7)), "a second END";
    b"\x01\x01\x01\x01\x04\x00\x0f\x0f\x00" => Some((3, 7)), "only the first command after END is looked at";
    b"\x01\x01\x01\x01\x04\x00\x0f\x05\x00" => Some((3, 7)), "NEED after END";
    b"\x01\x01\x01\x01\x04\x00\x0f\x01\x01\x01\x01\x04\x00\x0f" => Some((3, 7)), "a second task after END";
};

pub const ORDER: &[Case] = cases! {
    b"\x02\x00" => Some((3, 0)), "the first command is START";
    b"\x04\x00" => Some((3, 0)), "the first command is MOVE";
    b"\x0f" => Some((3, 0)), "the first command is END";
    b"\x01\x01\x01\x01\x01\x01\x01\x01" => Some((3, 4)), "a second SIZES";
    b"\x01\x01\x01\x01\x01\x00\x00\x00" => Some((3, 4)), "a second SIZES is out of order before it is out of range";
    b"\x01\x01\x01\x01\x04\x00\x01\x01\x01\x01" => Some((3, 6)), "SIZES in a move";
    b"\x01\x01\x01\x01\x04\x00\x07\x01\x01\x01\x01" => Some((3, 7)), "SIZES in an effect";
    b"\x01\x01\x01\x01\x03\x00\x02\x00\x04\x00\x0f" => None, "GOAL before START";
    b"\x01\x01\x01\x01\x05\x00" => Some((3, 4)), "NEED before any MOVE";
    b"\x01\x01\x01\x01\x06\x00" => Some((3, 4)), "WITH before any MOVE";
    b"\x01\x01\x01\x01\x07" => Some((3, 4)), "EFFECT before any MOVE";
    b"\x01\x01\x01\x01\x08\x00" => Some((3, 4)), "IF before any MOVE";
    b"\x01\x01\x01\x01\x09\x00" => Some((3, 4)), "IFMOVE before any MOVE";
    b"\x01\x01\x01\x01\x0a\x00" => Some((3, 4)), "THEN before any MOVE";
    b"\x01\x01\x01\x01\x04\x00\x02\x00" => Some((3, 6)), "START after MOVE";
    b"\x01\x01\x01\x01\x04\x00\x03\x00" => Some((3, 6)), "GOAL after MOVE";
    b"\x01\x01\x01\x01\x04\x00\x08\x00" => Some((3, 6)), "IF outside an effect";
    b"\x01\x01\x01\x01\x04\x00\x09\x00" => Some((3, 6)), "IFMOVE outside an effect";
    b"\x01\x01\x01\x01\x04\x00\x0a\x00" => Some((3, 6)), "THEN outside an effect";
    b"\x01\x01\x01\x01\x04\x00\x07\x02\x00" => Some((3, 7)), "START after EFFECT";
    b"\x01\x01\x01\x01\x04\x00\x07\x03\x00" => Some((3, 7)), "GOAL after EFFECT";
    b"\x01\x01\x01\x01\x04\x00\x07\x05\x00" => Some((3, 7)), "NEED after EFFECT";
    b"\x01\x01\x01\x01\x04\x00\x07\x06\x00" => Some((3, 7)), "WITH after EFFECT";
    b"\x01\x01\x01\x01\x04\x00\x02\x09" => Some((3, 6)), "the order is asked before the range";
    b"\x01\x01\x01\x01\x0f" => Some((3, 4)), "END before the move";
    b"\x01\x01\x01\x02\x04\x00\x0f" => Some((3, 6)), "END with a move missing";
    b"\x01\x01\x01\x02\x04\x00\x07\x0f" => Some((3, 7)), "END with a move missing, after an effect";
    b"\x01\x01\x01\x01\x04\x00\x04\x00" => Some((3, 6)), "a move too many";
    b"\x01\x01\x01\x01\x04\x00\x04\x09" => Some((3, 6)), "a move too many, at a station that the line has not";
    b"\x01\x01\x01\x01\x04\x00\x07\x04\x09" => Some((3, 7)), "the same after an effect";
};

pub const SIZES: &[Case] = cases! {
    b"\x01\x00\x01\x01" => Some((4, 0)), "no station";
    b"\x01\x10\x01\x01\x04\x0f\x0f" => None, "16 stations";
    b"\x01\x11\x01\x01" => Some((4, 0)), "17 stations";
    b"\x01\x01\x00\x01" => Some((4, 0)), "no fluent";
    b"\x01\x01\x80\x01\x04\x00\x0f" => None, "128 fluents";
    b"\x01\x01\x81\x01" => Some((4, 0)), "129 fluents";
    b"\x01\x01\x01\x00\x0f" => Some((4, 0)), "no move";
    b"\x01\x01\x01\x40\x0f" => Some((3, 4)), "64 moves are in range, and none is there";
    b"\x01\x01\x01\x41" => Some((4, 0)), "65 moves";
    b"\x01\xff\xff\xff" => Some((4, 0)), "all sizes out of range";
};

pub const OPERANDS: &[Case] = cases! {
    b"\x01\x01\x01\x01\x02\x01" => Some((4, 4)), "START of a fluent that the line has not";
    b"\x01\x01\x01\x01\x02\x80" => Some((4, 4)), "START takes a number, not a literal";
    b"\x01\x01\x80\x01\x02\x7f\x04\x00\x0f" => None, "START of the last of 128 fluents";
    b"\x01\x01\x80\x01\x02\x80" => Some((4, 4)), "START with its high bit set";
    b"\x01\x01\x01\x01\x03\x01" => Some((4, 4)), "GOAL 1 with one fluent";
    b"\x01\x01\x01\x01\x03\x81" => Some((4, 4)), "GOAL not 1 with one fluent";
    b"\x01\x01\x80\x01\x03\xff\x04\x00\x0f" => None, "GOAL not 127 with 128 fluents";
    b"\x01\x01\x7f\x01\x03\xff" => Some((4, 4)), "GOAL not 127 with 127 fluents";
    b"\x01\x02\x01\x01\x04\x01\x0f" => None, "a move of the last station";
    b"\x01\x02\x01\x01\x04\x02" => Some((4, 4)), "a move of a station that the line has not";
    b"\x01\x10\x01\x01\x04\x10" => Some((4, 4)), "a move of station 16";
    b"\x01\x01\x01\x01\x04\x80" => Some((4, 4)), "a station is a number, not a literal";
    b"\x01\x01\x01\x01\x04\x00\x05\x01" => Some((4, 6)), "NEED 1 with one fluent";
    b"\x01\x01\x80\x01\x04\x00\x05\xff\x0f" => None, "NEED not 127 with 128 fluents";
    b"\x01\x01\x7f\x01\x04\x00\x05\xff" => Some((4, 6)), "NEED not 127 with 127 fluents";
    b"\x01\x01\x01\x02\x04\x00\x06\x01\x04\x00\x0f" => None, "WITH names the last move, which comes later";
    b"\x01\x01\x01\x02\x04\x00\x06\x81\x04\x00\x0f" => None, "the same with its high bit set";
    b"\x01\x01\x01\x02\x04\x00\x06\x02" => Some((4, 6)), "WITH 2 with two moves";
    b"\x01\x01\x01\x02\x04\x00\x06\x82" => Some((4, 6)), "WITH not 2 with two moves";
    b"\x01\x01\x01\x40\x04\x00\x06\xbf\x0f" => Some((3, 8)), "WITH not 63 is in range with 64 moves, of which 63 are missing";
    b"\x01\x01\x01\x40\x04\x00\x06\x40" => Some((4, 6)), "WITH 64 with 64 moves";
    b"\x01\x01\x01\x01\x04\x00\x06\x00\x0f" => None, "WITH names its own move";
    b"\x01\x01\x01\x01\x04\x00\x07\x08\x01" => Some((4, 7)), "IF 1 with one fluent";
    b"\x01\x01\x80\x01\x04\x00\x07\x08\xff\x0f" => None, "IF not 127 with 128 fluents";
    b"\x01\x01\x01\x02\x04\x00\x07\x09\x81\x04\x00\x0f" => None, "IFMOVE names the last move";
    b"\x01\x01\x01\x02\x04\x00\x07\x09\x82" => Some((4, 7)), "IFMOVE not 2 with two moves";
    b"\x01\x01\x01\x01\x04\x00\x07\x0a\x81" => Some((4, 7)), "THEN not 1 with one fluent";
    b"\x01\x01\x80\x01\x04\x00\x07\x0a\xff\x0f" => None, "THEN not 127 with 128 fluents";
};

pub const LISTS: &[Case] = cases! {
    b"\x01\x01\x01\x01\x02\x00\x02\x00" => Some((5, 6)), "START twice";
    b"\x01\x01\x01\x01\x03\x00\x03\x00" => Some((5, 6)), "GOAL twice";
    b"\x01\x01\x01\x01\x03\x00\x03\x80" => Some((5, 6)), "GOAL 0 and GOAL not 0";
    b"\x01\x01\x01\x01\x03\x00\x02\x00\x03\x80" => Some((5, 8)), "the same with a START between them";
    b"\x01\x01\x01\x01\x04\x00\x05\x80\x05\x00" => Some((5, 8)), "NEED twice";
    b"\x01\x01\x01\x01\x04\x00\x06\x00\x06\x80" => Some((5, 8)), "WITH twice";
    b"\x01\x01\x01\x01\x04\x00\x07\x08\x00\x08\x80" => Some((5, 9)), "IF twice";
    b"\x01\x01\x01\x01\x04\x00\x07\x09\x80\x09\x80" => Some((5, 9)), "IFMOVE twice";
    b"\x01\x01\x01\x01\x04\x00\x07\x0a\x00\x0a\x80" => Some((5, 9)), "THEN twice";
    b"\x01\x01\x01\x01\x03\x01\x03\x01" => Some((4, 4)), "the range is asked before the list";
    b"\x01\x01\x01\x01\x02\x00\x03\x00\x04\x00\x05\x00\x06\x00\x07\x08\x00\x09\x00\x0a\x00\x0f" => None, "0 in each of the seven kinds of list";
    b"\x01\x01\x01\x02\x04\x00\x05\x00\x04\x00\x05\x80\x0f" => None, "the NEED lists of two moves";
    b"\x01\x01\x01\x01\x04\x00\x07\x0a\x00\x07\x0a\x80\x0f" => None, "the THEN lists of two effects";
};

pub const EFFECTS: &[Case] = cases! {
    b"\x01\x01\x01\x01\x04\x00\x07\x0f" => None, "an effect without results";
    b"\x01\x01\x01\x01\x04\x00\x07\x07\x07\x07\x07\x07\x07\x07\x0f" => None, "eight effects";
    b"\x01\x01\x01\x01\x04\x00\x07\x07\x07\x07\x07\x07\x07\x07\x07" => Some((6, 14)), "a ninth effect";
    b"\x01\x01\x01\x01\x04\x00\x07\x0a\x00\x07\x07\x07\x07\x07\x07\x07\x07" => Some((6, 16)), "a ninth effect, the first of which has a result";
    b"\x01\x01\x01\x02\x04\x00\x07\x07\x07\x07\x07\x07\x07\x07\x04\x00\x07\x07\x07\x07\x07\x07\x07\x07\x0f" => None, "effects are counted anew for the next move";
    b"\x01\x01\x01\x02\x04\x00\x07\x07\x07\x07\x07\x07\x07\x07\x04\x00\x07\x07\x07\x07\x07\x07\x07\x07\x07" => Some((6, 24)), "a ninth effect of the next move";
};
