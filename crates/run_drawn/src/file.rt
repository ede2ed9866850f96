// A circuit written as a drawing file.
use crate::circuit::{Circuit, Gate};
use crate::order::Order;
use load::Edition;
use std::alloc::{AllocError, Global};

// The file of an edition, with the inputs in an order.
pub fn write(
    alloc: Global,
    circuit: &Circuit,
    order: &Order,
    edition: Edition,
) -> Result<String, AllocError> {
    let mut file = String::new(alloc);
    write_header(&mut file, circuit, edition)?;
    if edition == Edition::ByName {
        write_names(&mut file, order)?;
    }
    for gate in circuit.gates.iter() {
        write_gate(&mut file, order, *gate)?;
    }
    for output in circuit.outputs.iter() {
        let r = order.reference(*output);
        writeln!(file, "O\t{r}")?;
    }
    if let Some(constraint) = circuit.constraint {
        let r = order.reference(constraint);
        writeln!(file, "C\t{r}")?;
    }
    Ok(file)
}

fn write_header(file: &mut String, circuit: &Circuit, edition: Edition) -> Result<(), AllocError> {
    let edition = u32::from(edition);
    let inputs = circuit.inputs;
    let gates = circuit.gates.len();
    let outputs = circuit.outputs.len();
    writeln!(file, "N\t{edition}\t{inputs}\t{gates}\t{outputs}")
}

// The names of inputs 1 to 10 are the numbers from 1 to 10 in another order.
fn write_names(file: &mut String, order: &Order) -> Result<(), AllocError> {
    for input in order.inputs().iter() {
        let name = input.wrapping_mul(7) % 11;
        writeln!(file, "I\t{name}")?;
    }
    Ok(())
}

fn write_gate(file: &mut String, order: &Order, gate: Gate) -> Result<(), AllocError> {
    let operation = gate.operation;
    let left = order.reference(gate.left);
    let right = order.reference(gate.right);
    writeln!(file, "G\t{operation}\t{left}\t{right}")
}
