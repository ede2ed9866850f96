// A circuit as it stands in a drawing file: gates upon inputs, outputs, and a constraint or none.
ghost use Rattle.std.specs.Prelude.{◌%◌, ◌*◌, ◌+◌, ◌-◌, ◌/◌, ◌<◌, IsTrue, ◌↔◌, ◌≡◌, ◌≢◌};

use crate::random::Random;
use std::alloc::{AllocError, Global};
use std::fmt;

// The most outputs.
pub const OUTPUTS: usize = 3;

// The judge's own operations and references: those of `netlist_model` and `aig` are part of what is judged.
#[derive(Clone, Copy, PartialEq, Eq)]
pub enum Operation {
    And,
    Or,
    Xor,
}

impl Operation {
    fn draw(random: &mut Random) -> Operation {
        match random.draw(3) {
            0 => Operation::And,
            1 => Operation::Or,
            _ => Operation::Xor,
        }
    }

    // Another operation; used twice it gives the third.
    pub fn next(self) -> Operation
        ensures { result ≢ self }
    {
        match self {
            Operation::And => Operation::Or,
            Operation::Or => Operation::Xor,
            Operation::Xor => Operation::And,
        }
    }
}

impl fmt::Display for Operation {
    fn fmt<W: fmt::Write>(&self, f: &mut fmt::Formatter<W>) -> fmt::Result {
        let name = match *self {
            Operation::And => "and",
            Operation::Or => "or",
            Operation::Xor => "xor",
        };
        f.write_str(name)
    }
}

// Twice a vertex, plus 1 if inverted.
#[derive(Clone, Copy, PartialEq, Eq)]
pub struct Reference(pub usize);

impl Reference {
    pub const TRUE: Reference = Reference(1);

    pub fn to(vertex: usize) -> Reference {
        Reference(vertex << 1)
    }

    pub fn vertex(self) -> usize
        ensures { result ≡ self.0 / 2 }
    {
        self.0 / 2
    }

    pub fn is_inverted(self) -> bool
        ensures { IsTrue result ↔ self.0 % 2 ≡ 1 }
    {
        self.0 % 2 == 1
    }

    pub fn inverted(self) -> Reference
        ensures { result.0 ≡ self.0 + 1 - 2 * (self.0 % 2) }
    {
        if self.is_inverted() {
            Reference(self.0 - 1)
        } else {
            Reference(self.0 + 1)
        }
    }

    // This reference, inverted where r is.
    pub fn onto(self, r: Reference) -> Reference {
        Reference(self.0 ^ r.0 % 2)
    }
}

impl fmt::Display for Reference {
    fn fmt<W: fmt::Write>(&self, f: &mut fmt::Formatter<W>) -> fmt::Result {
        let number = self.0;
        write!(f, "{number}")
    }
}

#[derive(Clone, Copy)]
pub struct Gate {
    pub operation: Operation,
    pub left: Reference,
    pub right: Reference,
}

#[derive(Drop)]
pub struct Circuit {
    pub inputs: u32,
    pub gates: Vec<Gate>,
    pub outputs: Vec<Reference>,
    pub constraint: Option<Reference>,
}

impl Circuit {
    pub fn new(alloc: Global, inputs: u32) -> Circuit
        ensures { result.inputs ≡ inputs }
    {
        Circuit {
            inputs,
            gates: Vec::new(alloc),
            outputs: Vec::new(alloc),
            constraint: None,
        }
    }

    // The constant, the inputs and the gates.
    fn vertices(&self) -> usize
        ensures { 0 < result }
    {
        self.gates.len().saturating_add(1 + self.inputs as usize)
    }

    // How many references there are: two for each vertex.
    pub fn references(&self) -> usize
        ensures { 1 < result }
    {
        self.vertices().saturating_mul(2)
    }

    // Adds a gate and gives back its reference.
    pub fn add(
        &mut self,
        operation: Operation,
        left: Reference,
        right: Reference,
    ) -> Result<Reference, AllocError> {
        let vertex = self.vertices();
        self.gates.push(Gate {
            operation,
            left,
            right,
        })?;
        Ok(Reference::to(vertex))
    }

    // A circuit of 0 to 10 inputs, 0 to 20 gates and 1 to 3 outputs.
    pub fn draw(alloc: Global, random: &mut Random) -> Result<Circuit, AllocError> {
        let mut circuit = Circuit::new(alloc, random.draw(11) as u32);
        let outputs = 1 + random.draw(OUTPUTS);
        for _ in 0..random.draw(21) {
            circuit.draw_gate(random)?;
        }
        let drawn = [
            circuit.draw_output(random),
            circuit.draw_output(random),
            circuit.draw_output(random),
        ];
        circuit.outputs.extend_from_slice(&drawn[..outputs])?;
        Ok(circuit)
    }

    fn draw_gate(&mut self, random: &mut Random) -> Result<(), AllocError> {
        let count = self.references();
        let operation = Operation::draw(random);
        let left = Reference(random.draw_late(count));
        let right = Reference(random.draw_late(count));
        self.add(operation, left, right)?;
        Ok(())
    }

    // One of the last references.
    fn draw_output(&self, random: &mut Random) -> Reference {
        let last = self.references() - 1;
        Reference(last.saturating_sub(random.draw(6)))
    }

    // A constraint: any reference, a late one more often.
    pub fn draw_constraint(&mut self, random: &mut Random) {
        self.constraint = Some(Reference(random.draw_late(self.references())));
    }
}
