// What is asked of a table: drawn outputs under drawn limits, every output under large limits from a drawn one on, drawn ones again, and a
// comparison that is refused.
ghost use Rattle.std.specs.Prelude.{◌<◌};

use crate::random::Random;
use comparer::{Limits, Refusal};
use std::alloc::{AllocError, Global};

// A comparison, and the refusal that must come, if any.
#[derive(Clone, Copy)]
pub struct Asked {
    pub output: u32,
    pub limits: Limits,
    pub refusal: Option<Refusal>,
}

// How many comparisons under drawn limits are made in a row.
const TURNS: u32 = 3;

// Limits under which each of these circuits is decided.
const LARGE: Limits = Limits {
    size: 4096,
    rows: 8192,
    steps: 1_000_000,
};

// The comparisons of a table with so many outputs.
pub fn draw_all(alloc: Global, outputs: u32, random: &mut Random) -> Result<Vec<Asked>, AllocError>
    requires { 0 < outputs }
{
    let mut all = Vec::new(alloc);
    add_drawn(&mut all, outputs, random)?;
    let first = random.draw(3) as u32;
    for turn in 0..outputs {
        all.push(Asked {
            output: first.wrapping_add(turn) % outputs,
            limits: LARGE,
            refusal: None,
        })?;
    }
    add_drawn(&mut all, outputs, random)?;
    all.push(draw_refused(outputs, random))?;
    Ok(all)
}

fn add_drawn(all: &mut Vec<Asked>, outputs: u32, random: &mut Random) -> Result<(), AllocError>
    requires { 0 < outputs }
{
    for _ in 0..TURNS {
        all.push(Asked {
            output: random.draw(3) as u32 % outputs,
            limits: draw_limits(random),
            refusal: None,
        })?;
    }
    Ok(())
}

// Limits that are large, or of which one or all are small.
fn draw_limits(random: &mut Random) -> Limits {
    let kind = random.draw(5);
    let size = 1 + random.draw(5) as u32;
    let rows = 1 + random.draw(30) as u32;
    let steps = 1 + random.draw(80) as u64;
    match kind {
        0 => LARGE,
        1 => Limits { size, ..LARGE },
        2 => Limits { rows, ..LARGE },
        3 => Limits { steps, ..LARGE },
        _ => Limits { size, rows, steps },
    }
}

// A comparison that is refused: an output that is too high, rows for which the lent slice is short, a size limit of 0, a row limit that is too
// high, a step limit of 0, or one that is too high.
fn draw_refused(outputs: u32, random: &mut Random) -> Asked {
    match random.draw(6) {
        0 => refused(outputs, LARGE, Refusal::UnknownOutput),
        1 => refused(0, limits(1, 32768, 1), Refusal::ShortSlice),
        2 => refused(0, limits(0, 1, 1), Refusal::Limits),
        3 => refused(0, limits(1, 32769, 1), Refusal::Limits),
        4 => refused(0, limits(1, 1, 0), Refusal::Limits),
        _ => refused(0, limits(1, 1, 4_294_967_296), Refusal::Limits),
    }
}

fn refused(output: u32, limits: Limits, refusal: Refusal) -> Asked {
    Asked {
        output,
        limits,
        refusal: Some(refusal),
    }
}

fn limits(size: u32, rows: u32, steps: u64) -> Limits {
    Limits { size, rows, steps }
}

impl Asked {
    pub fn is_large(&self) -> bool {
        self.limits == LARGE
    }
}
