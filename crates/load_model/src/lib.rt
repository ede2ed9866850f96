// Loading: two drawing files into one table. What it answers and what it must be lent.
#![tactic(auto)]

ghost use Rattle.load_model.specs.Lent.{lists_in, room_beside, room_with};
ghost use Rattle.std.specs.Prelude.{◌≡◌};

use netlist_model::{Edition, Summary};
use refusal::Refusal;

// The most vertices: the constant, the inputs and the ANDs.
pub const MAX_VERTICES: usize = 1 + table::MAX_INPUTS as usize + table::MAX_ANDS as usize;

// The words that every table fits in: a header, a row for each AND, the outputs of both sides, and the constraint.
pub const MAX_TABLE: usize = table::HEADER
    + 2 * table::MAX_ANDS as usize
    + 2 * table::MAX_OUTPUTS as usize
    + 1;

// The words that each working slice needs: two for each vertex.
pub const WORKING_ROOM: usize = 2 * MAX_VERTICES;

// A file that was accepted, and what its check found.
#[derive(Clone, Copy, Debug, PartialEq, Eq)]
pub struct Accepted<'a> {
    pub file: &'a [u8],
    pub summary: Summary,
}

// The working slices, which are lent beside the table. They may hold anything.
#[derive(Drop)]
pub struct Working<'a> {
    pub pairs: &'a mut [u32],
    pub look: &'a mut [u32],
    pub literals: &'a mut [u32],
    pub outputs: &'a mut [u32],
}

// The lengths of the table and of the working slices.
#[derive(Clone, Copy, Debug, PartialEq, Eq)]
pub struct Lengths {
    pub table: usize,
    pub pairs: usize,
    pub look: usize,
    pub literals: usize,
    pub outputs: usize,
}

impl<'a> Working<'a> {
    // Their lengths, and that of a table.
    pub fn lengths(&self, table: &[u32]) -> Lengths
        ensures { room_with result ≡ room_beside table.now (lists_in self.now) }
    {
        Lengths {
            table: table.len(),
            pairs: self.pairs.len(),
            look: self.look.len(),
            literals: self.literals.len(),
            outputs: self.outputs.len(),
        }
    }
}

// How the ANDs that were asked for ended.
#[derive(Clone, Copy, Debug, PartialEq, Eq)]
pub struct Tally {
    pub asked: u32,
    pub folded: u32,
    pub found: u32,
    pub made: u32,
}

// What an accepted load says: the edition of the pair and its tally.
#[derive(Clone, Copy, Debug, PartialEq, Eq)]
pub struct Loaded {
    pub edition: Edition,
    pub tally: Tally,
}

// Why a load is refused, and in which file and line; 0 where it is about no file, or about no line.
// Both are numbers as the rules print them, 0 too: each caller would make an `Option` 0 again. (RULES 11.6)
#[derive(Clone, Copy, Debug, PartialEq, Eq)]
pub struct Refused {
    pub refusal: Refusal,
    pub file: u32,
    pub line: u32,
}
