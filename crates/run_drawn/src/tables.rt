// Truth tables: a bit for each of 1,024 settings, setting 0 first, input 1 the leading digit. With fewer than ten inputs the table repeats, so
// that a first difference is always among the settings that there are.
ghost use Rattle.std.specs.Prelude.{◌<◌};

use crate::circuit::{Circuit, Operation, Reference};
use std::alloc::{AllocError, Global};
use std::array;
use std::ops::{BitAnd, BitOr, BitXor, Not};

// The words of a table.
const WORDS: usize = 16;

// The settings of a table.
pub const SETTINGS: usize = 64 * WORDS;

// A word of the digits that have 0 to 5 digits after them.
const PATTERNS: [u64; 6] = [
    0xaaaa_aaaa_aaaa_aaaa,
    0xcccc_cccc_cccc_cccc,
    0xf0f0_f0f0_f0f0_f0f0,
    0xff00_ff00_ff00_ff00,
    0xffff_0000_ffff_0000,
    0xffff_ffff_0000_0000,
];

// A truth table, 64 settings a word.
#[derive(Clone, Copy)]
pub struct Bits([u64; WORDS]);

impl Bits {
    const FALSE: Bits = Bits([0; WORDS]);

    // The digit that has so many digits after it.
    fn digit(after: u32) -> Bits {
        Bits(array::from_fn(|k| digit_word(after, k)))
    }

    // The value on a setting.
    pub fn value(&self, setting: usize) -> u8
        ensures { result < 2 }
    {
        (self.0[setting / 64 % WORDS] >> (setting % 64) & 1) as u8
    }

    // The first setting on which the value is 1.
    fn first(&self) -> Option<usize> {
        let k = self.0.iter().position(|word| *word != 0)?;
        Some(64 * k + self.0[k].trailing_zeros() as usize)
    }
}

fn digit_word(after: u32, k: usize) -> u64 {
    match PATTERNS.get(after as usize) {
        Some(pattern) => *pattern,
        None if k.wrapping_shr(after.saturating_sub(6)) & 1 == 0 => 0,
        None => u64::MAX,
    }
}

impl Not for Bits {
    type Output = Bits;

    fn not(self) -> Bits {
        Bits(self.0.map(|word| !word))
    }
}

impl BitAnd for Bits {
    type Output = Bits;

    fn bitand(self, other: Bits) -> Bits {
        Bits(array::from_fn(|k| self.0[k] & other.0[k]))
    }
}

impl BitOr for Bits {
    type Output = Bits;

    fn bitor(self, other: Bits) -> Bits {
        Bits(array::from_fn(|k| self.0[k] | other.0[k]))
    }
}

impl BitXor for Bits {
    type Output = Bits;

    fn bitxor(self, other: Bits) -> Bits {
        Bits(array::from_fn(|k| self.0[k] ^ other.0[k]))
    }
}

// The tables of a circuit's vertices.
#[derive(Drop)]
pub struct Truth(Vec<Bits>);

impl Truth {
    pub fn of(alloc: Global, circuit: &Circuit) -> Result<Truth, AllocError> {
        let mut vertices = vec![in alloc; Bits::FALSE]?;
        for after in (0..circuit.inputs).rev() {
            vertices.push(Bits::digit(after))?;
        }
        let mut truth = Truth(vertices);
        for gate in circuit.gates.iter() {
            let left = truth.bits(gate.left);
            let right = truth.bits(gate.right);
            truth.0.push(combine(gate.operation, left, right))?;
        }
        Ok(truth)
    }

    // The table of a reference.
    pub fn bits(&self, r: Reference) -> Bits {
        let bits = self.0.get(r.vertex()).copied().unwrap_or(Bits::FALSE);
        if r.is_inverted() { !bits } else { bits }
    }
}

fn combine(operation: Operation, p: Bits, q: Bits) -> Bits {
    match operation {
        Operation::And => p & q,
        Operation::Or => p | q,
        Operation::Xor => p ^ q,
    }
}

// The first setting that is allowed and on which two tables differ.
pub fn first_difference(p: Bits, q: Bits, allowed: Bits) -> Option<usize> {
    ((p ^ q) & allowed).first()
}
