// The table and the slices that loading, comparing and evaluating are lent.
use comparer::{Lent, Limits, Refusal, Reply};
use load::{Loaded, Refused, Working};
use std::alloc::{AllocError, Global};

// The words of the largest row limit that is answered: four a row.
const ROWS: usize = 32768;

// The bytes of the marks and of the evaluator's values, one a vertex, the two next vertices of a comparison among them.
const VERTICES: usize = load::MAX_VERTICES + compare_model::NEXT_VERTICES;

// Two marks of RULES 7.4, written here as its table has them: those of `sweep_state` are part of what is judged.
const TOO_LARGE: u8 = 2;

pub const SHORT: u8 = 3;

#[derive(Drop)]
pub struct Memory {
    table: Vec<u32>,
    pairs: Vec<u32>,
    look: Vec<u32>,
    diagrams: Vec<u32>,
    stages: Vec<u32>,
    rows: Vec<u32>,
    marks: Vec<u8>,
}

impl Memory {
    pub fn new(alloc: Global) -> Result<Memory, AllocError> {
        Ok(Memory {
            table: vec![in alloc; 0; load::MAX_TABLE]?,
            pairs: vec![in alloc; 0; load::MAX_TABLE]?,
            look: vec![in alloc; 0; load::MAX_TABLE]?,
            diagrams: vec![in alloc; 0; load::MAX_TABLE]?,
            stages: vec![in alloc; 0; load::MAX_TABLE]?,
            rows: vec![in alloc; 0; ROWS]?,
            marks: vec![in alloc; 0; VERTICES]?,
        })
    }

    pub fn load(&mut self, left: &[u8], right: &[u8]) -> Result<Loaded, Refused> {
        let mut working = Working {
            pairs: self.pairs.as_mut_slice(),
            look: self.look.as_mut_slice(),
            literals: self.diagrams.as_mut_slice(),
            outputs: self.stages.as_mut_slice(),
        };
        load::load(left, right, self.table.as_mut_slice(), &mut working)
    }

    // The value of an output on a setting.
    pub fn evaluate(&mut self, side: u32, output: u32, setting: &[u8]) -> Result<u8, Refusal> {
        let values = self.marks.as_mut_slice();
        evaluate::evaluate(self.table.as_slice(), side, output, setting, values)
    }

    pub fn compare(
        &mut self,
        output: u32,
        limits: Limits,
        setting: &mut [u8],
    ) -> Result<Reply, Refusal> {
        let mut lent = Lent {
            pairs: self.pairs.as_mut_slice(),
            look: self.look.as_mut_slice(),
            diagrams: self.diagrams.as_mut_slice(),
            stages: self.stages.as_mut_slice(),
            rows: self.rows.as_mut_slice(),
            marks: self.marks.as_mut_slice(),
            setting,
        };
        comparer::compare(self.table.as_mut_slice(), output, limits, &mut lent)
    }

    // A word of the table.
    pub fn word(&self, at: usize) -> Option<u32> {
        self.table.get(at).copied()
    }

    pub fn mark(&self, vertex: u32) -> Option<u8> {
        self.marks.get(vertex as usize).copied()
    }

    // Whether one of the first vertices is marked too large.
    pub fn has_dropped(&self, vertices: usize) -> bool {
        self.marks
            .iter()
            .take(vertices)
            .any(|mark| *mark == TOO_LARGE)
    }
}
