// Many drawn pairs of circuits: each is written as two drawing files, loaded and compared under varied limits, and each reply is held
// against truth tables that this program computes from the gates that it drew. Every third pair is of edition 2, and the inputs of its second
// file are shuffled. A third of the pairs, of either edition, have a constraint r in the first file, and their replies are held against the truth
// tables on allowed settings. First how many pairs were drawn, how many of them with names, how many of these with a cycle of three inputs, how
// many pairs with r, and how often Equal was replied to outputs that differ on a setting that is not allowed; then a line for each kind of reply,
// how many came, and how many answers were wrong.
#![tactic(auto)]

mod asked;
mod circuit;
mod compared;
mod evaluated;
mod file;
mod memory;
mod order;
mod pair;
mod random;
mod rewrite;
mod run;
mod settings;
mod tables;
mod tally;

use crate::run::Run;
use std::io;

// How many pairs are drawn.
const PAIRS: u32 = 600;

// Draws the pairs, one after the other, and prints what came of them.
fn main(rt: HostRuntime) -> io::Result<()> {
    let mut run = Run::new(rt.alloc())?;
    for number in 0..PAIRS {
        pair::try_pair(&mut run, number)?;
    }
    run.tally.print(&rt, PAIRS)
}
