// Drawing files of both editions: what their records, a whole file's check and the netlist that it holds are.
#![tactic(auto)]

mod edition;

pub use edition::{Edition, UnknownEdition};
use refusal::Refusal;

pub const MAX_BYTES: usize = 65536;

pub const MAX_GATES: u32 = 4096;

// The most bytes of an input's name.
pub const MAX_NAME: usize = 16;

// Which file of a pair it is: the first, or the second of a pair whose first file has this edition, as a number: `Edition` would ask more of callers.
#[derive(Clone, Copy, Debug, PartialEq, Eq)]
pub enum Role {
    First,
    Second(u32),
}

#[derive(Clone, Copy, Debug, PartialEq, Eq)]
pub enum Operation {
    And,
    Or,
    Xor,
}

// What a line of the layout is. An input's name is no part of it: it is read again from its line. The edition is the numeral of line 1, which test 3 has
// still to look at.
#[derive(Clone, Copy, Debug, PartialEq, Eq)]
pub enum Record {
    Header {
        edition: u32,
        inputs: u32,
        gates: u32,
        outputs: u32,
    },
    Name,
    Gate {
        op: Operation,
        p: u32,
        q: u32,
    },
    Output(u32),
    Constraint(u32),
}

// The edition and the counts of line 1, how many names it makes due, how many C lines may come, the numbers of names, gates, outputs and C lines
// read so far, the ANDs that these gates stand for, and the reference that a C line gave, 1 where none has. C lines, at most one, are counted beside
// their reference and are no `Option`: `line_due` adds them to the other lines, and the table's word is 1 where no line gives it (RULES 1.13, 4.1).
#[derive(Clone, Copy, Debug, PartialEq, Eq)]
pub struct Body {
    pub edition: Edition,
    pub inputs: u32,
    pub names: u32,
    pub gates: u32,
    pub outputs: u32,
    pub constraints: u32,
    pub name: u32,
    pub gate: u32,
    pub output: u32,
    pub constraint: u32,
    pub ands: u32,
    pub reference: u32,
}

// What is due: line 1 of a file, or a line after it.
#[derive(Clone, Copy, Debug, PartialEq, Eq)]
pub enum Due {
    First(Role),
    Later(Body),
}

// What an accepted file has; `reference` is that of its C line, 1 where there is none, and `start` is where its gate lines start.
#[derive(Clone, Copy, Debug, PartialEq, Eq)]
pub struct Summary {
    pub edition: Edition,
    pub inputs: u32,
    pub names: u32,
    pub gates: u32,
    pub outputs: u32,
    pub ands: u32,
    pub reference: u32,
    pub start: usize,
}

// Why a file is not accepted, and at which line.
#[derive(Clone, Copy, Debug, PartialEq, Eq)]
pub struct Rejected {
    pub refusal: Refusal,
    pub line: u32,
}
