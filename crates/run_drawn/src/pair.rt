// A drawn pair: two circuits, their files, the table, and the comparisons on it.
ghost use Rattle.std.specs.Prelude.{◌<◌};

use crate::circuit::{Circuit, OUTPUTS, Reference};
use crate::compared::{Differences, Facts, compare_all};
use crate::evaluated::hold_side;
use crate::file;
use crate::order::Order;
use crate::random::Random;
use crate::rewrite::rewrite;
use crate::run::Run;
use crate::tables::{Bits, Truth, first_difference};
use crate::tally::{Tally, count};
use load::{Edition, Loaded, Refused};
use std::alloc::{AllocError, Global};

// A circuit and the tables of its vertices.
#[derive(Drop)]
pub struct Side {
    pub circuit: Circuit,
    pub truth: Truth,
}

impl Side {
    fn new(alloc: Global, circuit: Circuit) -> Result<Side, AllocError> {
        let truth = Truth::of(alloc, &circuit)?;
        Ok(Side { circuit, truth })
    }
}

// Draws two circuits, loads them, makes the comparisons, and evaluates before and after these. `number` is the pair's, counted from 0.
pub fn try_pair(run: &mut Run, number: u32) -> Result<(), AllocError> {
    let one = draw_circuit(run, number)?;
    let two = rewrite(run.alloc, &one, &mut run.random)?;
    let made = load_pair(run, &one, &two, number)?;
    let left = Side::new(run.alloc, one)?;
    let right = Side::new(run.alloc, two)?;
    let facts = facts_of(run, &left, &right, made)?;
    hold_side(run, 1, &left)?;
    hold_side(run, 2, &right)?;
    compare_all(run, &facts)?;
    hold_side(run, 1, &left)?;
    hold_side(run, 2, &right)
}

// A third of the pairs have a constraint, those with names too. It is drawn from the pair's number and not from the seed: the pairs and what is
// asked of them are those without constraints.
fn draw_circuit(run: &mut Run, number: u32) -> Result<Circuit, AllocError> {
    let mut circuit = Circuit::draw(run.alloc, &mut run.random)?;
    if number / 3 % 3 == 1 {
        circuit.draw_constraint(&mut Random::new(number));
        count(&mut run.tally.constrained);
    }
    Ok(circuit)
}

// Every third pair has names, and the inputs of its second file are shuffled. The order is drawn from the pair's number and not from the seed: the
// pairs and all replies are those of inputs in one order.
fn draw_order(order: &mut Order, number: u32, tally: &mut Tally) -> Edition {
    if number % 3 != 2 {
        return Edition::ByPlace;
    }
    order.shuffle(&mut Random::new(number));
    count(&mut tally.by_name);
    if order.has_cycle() {
        count(&mut tally.cycles);
    }
    Edition::ByName
}

// Writes both circuits as files, the second with its inputs in an order, and loads them; gives back how many vertices were made.
fn load_pair(run: &mut Run, one: &Circuit, two: &Circuit, number: u32) -> Result<u32, AllocError> {
    let same = Order::new(run.alloc, one.inputs)?;
    let mut order = Order::new(run.alloc, two.inputs)?;
    let edition = draw_order(&mut order, number, &mut run.tally);
    let left = file::write(run.alloc, one, &same, edition)?;
    let right = file::write(run.alloc, two, &order, edition)?;
    let loaded = run.memory.load(left.as_bytes(), right.as_bytes());
    Ok(made_of(loaded, edition, &mut run.tally))
}

// How many vertices were made; a refusal is wrong, and so is another edition than the one written.
fn made_of(loaded: Result<Loaded, Refused>, written: Edition, tally: &mut Tally) -> u32 {
    tally.hold(loaded.is_ok_and(|loaded| loaded.edition == written));
    loaded.map_or(0, |loaded| loaded.tally.made)
}

// What is known of the two circuits and of their table as loaded.
fn facts_of(run: &Run, left: &Side, right: &Side, made: u32) -> Result<Facts, AllocError> {
    let made = made as usize;
    let outputs = left.circuit.outputs.len().min(OUTPUTS);
    // After the header, the rows and both files' outputs.
    let constraint_at = 3 + 2 * made + 2 * outputs;
    let constraint = run.memory.word(constraint_at);
    Ok(Facts {
        inputs: left.circuit.inputs,
        vertices: 1 + left.circuit.inputs as usize + made + next_vertices(constraint),
        constraint_at,
        constraint,
        outputs: differences_of(run.alloc, left, right)?,
    })
}

// How many vertices a comparison has beside those of the table: the ANDs of the constraint with the two outputs, unless it is 1.
fn next_vertices(constraint: Option<u32>) -> usize
    ensures { result < 3 }
{
    if constraint == Some(1) {
        0
    } else {
        compare_model::NEXT_VERTICES
    }
}

// The first differences of each output.
fn differences_of(
    alloc: Global,
    left: &Side,
    right: &Side,
) -> Result<Vec<Differences>, AllocError> {
    let all = left.truth.bits(Reference::TRUE);
    let allowed = left
        .truth
        .bits(left.circuit.constraint.unwrap_or(Reference::TRUE));
    let pairs = left
        .circuit
        .outputs
        .iter()
        .zip(right.circuit.outputs.iter());
    pairs
        .map(|(one, two)| {
            let p = left.truth.bits(*one);
            let q = right.truth.bits(*two);
            Differences {
                allowed: first_difference(p, q, allowed),
                all: first_difference(p, q, all),
            }
        })
        .collect(alloc)
}
