// The lines that the program prints. They are definitions, in specs/; there is no code here.
#![tactic(auto)]

// What a reply is called.
#[derive(Clone, Copy, Debug, PartialEq, Eq)]
pub enum Word {
    Equal,
    Different,
    Size,
    Rows,
    Steps,
}

// The most bytes of a line beside those of its setting.
pub const LINE_ROOM: usize = 67;
