// The drawing files of a pair: those that stand in its card, files of newlines, and chains of gates.
ghost use Rattle.std.specs.Prelude.{◌<◌, ◌≤◌};

use load::Edition;
use run_card_file::{number, number_at, number_count};
use std::alloc::{AllocError, Global};

// The most bytes of a file of newlines or of a text: one more than a file may have.
const MOST: usize = 65537;

const MAX_GATES: u32 = 4096;

const MAX_OUTPUTS: u32 = 64;

const INPUTS: u32 = 64;

// A chain of ANDs over 64 inputs: the edition, by how much its names are turned, how many gates, whether the vertex before a gate is inverted, and
// how many outputs. The names are the numbers from 0 to 63 or, where they are turned by 64 or more, from 1 to 64.
#[derive(Clone, Copy)]
struct Chain {
    edition: Edition,
    turn: u32,
    gates: u32,
    is_inverted: bool,
    outputs: u32,
    ghost small_turn: { turn < 128 },
    ghost few_gates: { gates ≤ 4096 },
    ghost few_outputs: { outputs ≤ 64 },
}

// Makes a file: of three numbers or four a chain; else the text, or so many newlines as the number says.
pub fn make(alloc: Global, text: &[u8], numbers: &[u8]) -> Result<Vec<u8>, AllocError> {
    if 3 <= number_count(numbers) {
        return Ok(chain_of(numbers).text(alloc)?.into_bytes());
    }
    if text.is_empty() {
        return Ok(vec![in alloc; b'\n'; (number(numbers) as usize).min(MOST)]?);
    }
    let mut file = Vec::new(alloc);
    file.extend_from_slice(&text[..text.len().min(MOST)])?;
    Ok(file)
}

// The chain of some numbers: gates, inverted, outputs and, in edition 2, the turn of the names.
fn chain_of(numbers: &[u8]) -> Chain {
    Chain {
        edition: if number_count(numbers) == 4 {
            Edition::ByName
        } else {
            Edition::ByPlace
        },
        turn: number_at(numbers, 3) % 128,
        gates: number_at(numbers, 0).min(MAX_GATES),
        is_inverted: number_at(numbers, 1) % 2 == 1,
        outputs: number_at(numbers, 2).min(MAX_OUTPUTS),
    }
}

impl Chain {
    // Its file.
    fn text(&self, alloc: Global) -> Result<String, AllocError> {
        let edition = u32::from(self.edition);
        let mut file = String::new(alloc);
        writeln!(
            file,
            "N\t{edition}\t{INPUTS}\t{}\t{}",
            self.gates, self.outputs
        )?;
        if self.edition == Edition::ByName {
            self.put_names(&mut file)?;
        }
        self.put_gates(&mut file)?;
        self.put_outputs(&mut file)?;
        Ok(file)
    }

    fn put_names(&self, file: &mut String) -> Result<(), AllocError> {
        for input in 0..INPUTS {
            let name = (input + self.turn) % INPUTS + self.turn / INPUTS;
            writeln!(file, "I\t{name}")?;
        }
        Ok(())
    }

    // A gate is an AND of an input and the vertex before this one, which is inverted by adding 1.
    fn put_gates(&self, file: &mut String) -> Result<(), AllocError> {
        for gate in 0..self.gates {
            let p = 2 * (1 + gate % INPUTS);
            let q = 2 * (INPUTS + gate) + u32::from(self.is_inverted);
            writeln!(file, "G\tand\t{p}\t{q}")?;
        }
        Ok(())
    }

    // An output is a vertex of the last 64.
    fn put_outputs(&self, file: &mut String) -> Result<(), AllocError> {
        for output in 0..self.outputs {
            writeln!(file, "O\t{}", 2 * (1 + self.gates + output % 64))?;
        }
        Ok(())
    }
}
