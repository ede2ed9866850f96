// The table that load writes and the other calls read: its layout and limits.
#![tactic(auto)]

ghost use Rattle.std.specs.Prelude.{◌*◌, ◌+◌, ◌<◌, drop, get_or, take, ◌≡◌};
ghost use Rattle.aig.specs.Literal.{lit};
ghost use Rattle.table.specs.Accepted.{WellFormed};
ghost use Rattle.table.specs.Table.{beyond_limits?, constraint_of, inputs_of, made_of, outputs_of, row_at, side_outputs, vertices_of};

use aig::literal::Literal;

pub const MAX_INPUTS: u32 = 64;

pub const MAX_OUTPUTS: u32 = 64;

pub const MAX_ANDS: u32 = 6144;

// The words of the header: inputs, made, outputs.
pub const HEADER: usize = 3;

// Whether a header is beyond the limits.
pub fn beyond_limits(inputs: u32, made: u32, outputs: u32) -> bool
    ensures { result ≡ beyond_limits? inputs made outputs }
{
    MAX_INPUTS < inputs || MAX_ANDS < made || outputs == 0 || MAX_OUTPUTS < outputs
}

// Words that are a whole table with a header within the limits.
// That the refusals 10 and 11 do not apply to them stays a clause where it is needed (`Accepted`): the tests of both read a `Table`.
#[derive(Clone, Copy)]
pub struct Table<'a> {
    pub words: &'a [u32],
    ghost formed: { WellFormed words.now },
}

impl<'a> Table<'a> {
    // The words of the header.
    pub fn inputs(&self) -> u32
        ensures { result ≡ inputs_of self.now.words.now }
    {
        self.words[0]
    }

    pub fn made(&self) -> u32
        ensures { result ≡ made_of self.now.words.now }
    {
        self.words[1]
    }

    pub fn outputs(&self) -> u32
        ensures { result ≡ outputs_of self.now.words.now }
    {
        self.words[2]
    }

    // The number of vertices: the constant, the inputs, and the made ones.
    pub fn vertices(&self) -> usize
        ensures { result ≡ vertices_of self.now.words.now }
    {
        1 + self.inputs() as usize + self.made() as usize
    }

    // The first word after the rows: that of the first output.
    pub fn rows_end(&self) -> usize
        ensures { result ≡ 3 + 2 * made_of self.now.words.now }
    {
        HEADER + 2 * self.made() as usize
    }

    // The two literals of row i, which is that of the i-th made vertex.
    pub fn row(&self, i: usize) -> (Literal, Literal)
        requires { i < made_of self.now.words.now }
        ensures first { result.0 ≡ lit (row_at self.now.words.now (3 + 2 * i)).0 }
        ensures second { result.1 ≡ lit (row_at self.now.words.now (3 + 2 * i)).1 }
    {
        let at = HEADER + 2 * i;
        (Literal(self.words[at]), Literal(self.words[at + 1]))
    }

    // The words of the rows.
    pub fn rows(&self) -> &[u32]
        ensures { result.now ≡ take (2 * made_of self.now.words.now) (drop 3 self.now.words.now) }
    {
        &self.words[HEADER..self.rows_end()]
    }

    // An output's literal, of side 1 or 2. The side is a number, as those who call evaluate give it: a type of two sides would ask more of them.
    pub fn output_literal(&self, side: u32, output: usize) -> Literal
        requires { output < outputs_of self.now.words.now }
        ensures { result ≡ lit (get_or (side_outputs self.now.words.now side) output 0) }
    {
        let at = self.rows_end() + output;
        if side == 1 {
            Literal(self.words[at])
        } else {
            Literal(self.words[at + self.outputs() as usize])
        }
    }

    // The literal of the constraint, after the outputs: 1 where there is none.
    pub fn constraint(&self) -> Literal
        ensures { result ≡ lit (constraint_of self.now.words.now) }
    {
        Literal(self.words[self.rows_end() + 2 * self.outputs() as usize])
    }
}
