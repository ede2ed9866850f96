// The same circuit written another way, gate by gate, or with a fault at one gate.
use crate::circuit::{Circuit, Gate, Operation, Reference};
use crate::random::Random;
use std::alloc::{AllocError, Global};

// A circuit written another way; every second one has a fault.
pub fn rewrite(alloc: Global, from: &Circuit, random: &mut Random) -> Result<Circuit, AllocError> {
    let fault = draw_fault(from.gates.len(), random);
    let mut to = Circuit::new(alloc, from.inputs);
    // What became of each vertex: inputs and the constant keep their references.
    let mut places: Vec<Reference> = (0..=from.inputs as usize)
        .map(Reference::to)
        .collect(alloc)?;
    for (at, gate) in from.gates.iter().enumerate() {
        let form = random.draw(6);
        let moved = moved(*gate, &places);
        let place = if fault == Some(at) {
            add_faulty(&mut to, moved, form, random)?
        } else {
            add_alike(&mut to, moved, form)?
        };
        places.push(place)?;
    }
    for output in from.outputs.iter() {
        to.outputs.push(place_of(&places, *output))?;
    }
    Ok(to)
}

// The gate that is to be faulty: more often a late one, and every second time none.
fn draw_fault(gates: usize, random: &mut Random) -> Option<usize> {
    if gates == 0 || random.draw(2) == 0 {
        return None;
    }
    Some(random.draw_late(gates))
}

fn moved(gate: Gate, places: &[Reference]) -> Gate {
    Gate {
        left: place_of(places, gate.left),
        right: place_of(places, gate.right),
        ..gate
    }
}

// The other circuit's reference for a reference.
fn place_of(places: &[Reference], r: Reference) -> Reference {
    match places.get(r.vertex()) {
        Some(place) => place.onto(r),
        None => r,
    }
}

// A gate with another operation, an operand inverted or another operand.
fn add_faulty(
    to: &mut Circuit,
    gate: Gate,
    form: usize,
    random: &mut Random,
) -> Result<Reference, AllocError> {
    let Gate {
        operation,
        left,
        right,
    } = gate;
    match form {
        0 => to.add(operation.next(), left, right),
        1 => to.add(operation.next().next(), left, right),
        2 | 3 => to.add(operation, left, right.inverted()),
        _ => {
            let other = Reference(random.draw(to.references()));
            to.add(operation, left, other)
        }
    }
}

// Gates of the same function as one gate; the form is a drawn number, and no kind that is kept.
fn add_alike(to: &mut Circuit, gate: Gate, form: usize) -> Result<Reference, AllocError> {
    match form {
        0 => to.add(gate.operation, gate.left, gate.right),
        1 => to.add(gate.operation, gate.right, gate.left),
        2 => add_dual(to, gate),
        3 => add_twice(to, gate),
        4 => add_inverted_twice(to, gate),
        _ => add_spread(to, gate),
    }
}

// An or as an inverted and of inversions, an and likewise; an exclusive or with an operand and its result inverted.
fn add_dual(to: &mut Circuit, gate: Gate) -> Result<Reference, AllocError> {
    let left = gate.left.inverted();
    let right = gate.right.inverted();
    let dual = match gate.operation {
        Operation::And => to.add(Operation::Or, left, right)?,
        Operation::Or => to.add(Operation::And, left, right)?,
        Operation::Xor => to.add(Operation::Xor, left, gate.right)?,
    };
    Ok(dual.inverted())
}

// The gate, the gate again with its operands swapped, and the and of the two.
fn add_twice(to: &mut Circuit, gate: Gate) -> Result<Reference, AllocError> {
    let one = to.add(gate.operation, gate.left, gate.right)?;
    let two = to.add(gate.operation, gate.right, gate.left)?;
    to.add(Operation::And, one, two)
}

// The gate's inversion as a gate of its own, inverted again.
fn add_inverted_twice(to: &mut Circuit, gate: Gate) -> Result<Reference, AllocError> {
    let one = to.add(gate.operation, gate.left, gate.right)?;
    let two = to.add(Operation::Or, one.inverted(), one.inverted())?;
    Ok(two.inverted())
}

// An exclusive or as two ands and an or; an and or an or by absorption.
fn add_spread(to: &mut Circuit, gate: Gate) -> Result<Reference, AllocError> {
    let Gate { left, right, .. } = gate;
    match gate.operation {
        Operation::And => {
            let one = to.add(Operation::Or, left.inverted(), right)?;
            to.add(Operation::And, left, one)
        }
        Operation::Or => {
            let one = to.add(Operation::And, left.inverted(), right)?;
            to.add(Operation::Or, left, one)
        }
        Operation::Xor => {
            let one = to.add(Operation::And, left.inverted(), right)?;
            let two = to.add(Operation::And, left, right.inverted())?;
            to.add(Operation::Or, one, two)
        }
    }
}
