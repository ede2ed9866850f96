// A sweep under way.
ghost use Rattle.std.specs.Prelude.{◌*◌, ◌+◌, ◌/◌, ◌<◌, ◌≤◌, length, set, ◌≡◌};
ghost use Rattle.aig.specs.Literal.{lit, vertex_of};
ghost use Rattle.aig.specs.Lookup.{first_word, second_word, with_row};
ghost use Rattle.bdd.specs.code.Owners.{with_owner};
ghost use Rattle.bdd.specs.code.Rows.{RADIX};
ghost use Rattle.sweep_graph.specs.code.Stages.{stage_in, stage_word, staged, with_stage};
ghost use Rattle.sweep_model.specs.Normalise.{resolve};
ghost use Rattle.sweep_model.specs.State.{open?, waits?};
ghost use Rattle.sweep_state.specs.code.Look.{reference_of};
ghost use Rattle.sweep_state.specs.code.Marks.{mark_byte};
ghost use Rattle.sweep_state.specs.code.Sweep.{put_diagrams, put_marks, put_pairs, put_rows, put_stages};

use crate::end::{End, Ended};
use crate::mark::Mark;
use crate::task::Task;
use aig::literal::Literal;
use sweep_graph::reference::{own_row, reference_of};
use sweep_graph::resolve::resolve;
use sweep_graph::stage::{Stage, is_open_at, set_stage, stage_at, waits_at};
use words::{first_word, second_word, set_words};

// The slices that the caller lends, what is asked, the rows used and the steps taken. The pairs, the look-up, the diagrams (reference and
// size) and the stages have two words a vertex, the marks a byte.
// The store of the rows is a literal in each function that needs it: a method that lends it was tried and has no generated proof, and a function
// of its three fields would be called with the same three.
// No ghost field: the contracts give the sweep after a call as `record s { .. }`, which a fact about a field would not allow.
#[derive(Drop)]
pub struct Sweep<'a> {
    pub pairs: &'a mut [u32],
    pub look: &'a mut [u32],
    pub diagrams: &'a mut [u32],
    pub stages: &'a mut [u32],
    pub rows: &'a mut [u32],
    pub marks: &'a mut [u8],
    pub task: Task,
    pub used: usize,
    pub steps: usize,
}

impl<'a> Sweep<'a> {
    // The two words of a vertex's row. Words, as in the slices: each contract and definition would unpack `Literal`s.
    pub fn pair(&self, v: u32) -> (u32, u32)
        requires { 2 * v + 1 < length self.now.pairs.now }
        ensures { result ≡ record { 0 = first_word self.now.pairs.now v; 1 = second_word self.now.pairs.now v } }
    {
        (
            first_word(&self.pairs[..], v),
            second_word(&self.pairs[..], v),
        )
    }

    pub fn set_pair(&mut self, v: u32, p: u32, q: u32)
        requires { 2 * v + 1 < length self.old.pairs.now }
        ensures { self.new ≡ put_pairs (with_row self.old.pairs.now v p q) self.old }
    {
        set_words(self.pairs, v, p, q);
    }

    // What a literal became.
    pub fn resolve(&self, r: Literal) -> Literal
        requires { 2 * vertex_of r.0 + 1 < length self.now.pairs.now }
        ensures { result ≡ lit (resolve self.now.pairs.now r.0) }
    {
        resolve(&self.pairs[..], r)
    }

    pub fn stage(&self, v: u32) -> Stage
        requires { 2 * v < length self.now.stages.now }
        ensures { staged result ≡ stage_in self.now.stages.now v }
    {
        stage_at(&self.stages[..], v)
    }

    pub fn waits(&self, v: u32) -> bool
        requires { 2 * v < length self.now.stages.now }
        ensures { result ≡ waits? (stage_in self.now.stages.now v) }
    {
        waits_at(&self.stages[..], v)
    }

    pub fn is_open(&self, v: u32) -> bool
        requires { 2 * v < length self.now.stages.now }
        ensures { result ≡ open? (stage_in self.now.stages.now v) }
    {
        is_open_at(&self.stages[..], v)
    }

    pub fn set_stage(&mut self, v: u32, stage: Stage)
        requires { 2 * v < length self.old.stages.now }
        ensures { self.new ≡ put_stages (with_stage self.old.stages.now v (stage_word (staged stage))) self.old }
    {
        set_stage(self.stages, v, u32::from(stage));
    }

    // The reference and the size of a vertex's diagram.
    pub fn diagram(&self, v: u32) -> (u32, u32)
        requires { 2 * v + 1 < length self.now.diagrams.now }
        ensures { result ≡ record { 0 = first_word self.now.diagrams.now v; 1 = second_word self.now.diagrams.now v } }
    {
        (
            first_word(&self.diagrams[..], v),
            second_word(&self.diagrams[..], v),
        )
    }

    pub fn size(&self, v: u32) -> u32
        requires { 2 * v + 1 < length self.now.diagrams.now }
        ensures { result ≡ second_word self.now.diagrams.now v }
    {
        self.diagram(v).1
    }

    pub fn set_diagram(&mut self, v: u32, reference: u32, size: u32)
        requires { 2 * v + 1 < length self.old.diagrams.now }
        ensures { self.new ≡ put_diagrams (with_row self.old.diagrams.now v reference size) self.old }
    {
        set_words(self.diagrams, v, reference, size);
    }

    // The reference of a literal's function.
    pub fn reference(&self, r: Literal) -> usize
        requires { 2 * vertex_of r.0 < length self.now.diagrams.now }
        ensures { result ≡ reference_of self.now.diagrams.now r.0 }
    {
        reference_of(&self.diagrams[..], r)
    }

    // The row of a reference has the owner w; the constant has no row.
    pub fn own_row(&mut self, reference: u32, w: u32)
        requires { (reference / 2 * 4 ≤ length self.old.rows.now) × (w < RADIX) }
        ensures { self.new ≡ put_rows (with_owner self.old.rows.now (reference / 2) w) self.old }
    {
        own_row(self.rows, reference, w);
    }

    pub fn mark(&mut self, v: u32, mark: Mark)
        requires { v < length self.old.marks.now }
        ensures { self.new ≡ put_marks (set self.old.marks.now v (mark_byte mark)) self.old }
    {
        self.marks[v as usize] = u8::from(mark);
    }

    // An end, with the rows used and the steps taken, and the rows that a product which broke off had added.
    pub fn ended(&self, end: End, added: usize) -> Ended
        ensures { result ≡ record { end = end; used = self.now.used; steps = self.now.steps; added = added } }
    {
        Ended {
            end,
            used: self.used,
            steps: self.steps,
            added,
        }
    }
}
