// The values of a circuit's vertices on each setting, and those of their diagrams.
ghost use Rattle.std.specs.Prelude.{◌≤◌};
ghost use Rattle.bdd.specs.code.Walks.{Walks};
ghost use Rattle.run_product.specs.code.Held.{Held};

use crate::circuit::{Circuit, VERTICES};
use crate::diagram::References;
use bdd::references::cofactor_of;
use bdd::store::RowStore;

// The value of a literal.
fn literal(values: &[bool; VERTICES], l: usize) -> bool {
    values[l / 2 % VERTICES] != (l % 2 == 1)
}

// The values of the inputs, digit by digit.
fn set_inputs(values: &mut [bool; VERTICES], inputs: usize, setting: usize)
    requires { inputs ≤ 10 }
{
    let mut digits = setting;
    for value in &mut values[1..inputs + 1] {
        *value = digits % 2 == 1;
        digits /= 2;
    }
}

// The values of the inputs, then of the ANDs up to n.
fn simulate(values: &mut [bool; VERTICES], circuit: &Circuit, n: usize, setting: usize)
    requires { n ≤ 128 }
{
    set_inputs(values, circuit.inputs, setting);
    for v in circuit.inputs + 1..n {
        let (p, q) = circuit.operands[v];
        values[v] = literal(values, p) && literal(values, q);
    }
}

// The value of a reference: each digit picks a cofactor.
fn value(rows: &[u32], inputs: usize, r: usize, setting: usize) -> bool
    requires { Walks rows.now inputs r }
{
    let mut e = r;
    let mut digits = setting;
    for i in 0..inputs {
        e = cofactor_of(rows, digits % 2 == 1, inputs - i, e);
        digits /= 2;
    }
    e % 2 == 1
}

// How many vertices have another value than their diagrams.
fn differences(
    store: &RowStore<'_>,
    inputs: usize,
    references: &References,
    values: &[bool; VERTICES],
    n: usize,
    setting: usize,
) -> usize
    requires held { Held store.now.rows.now references.now store.now.used inputs }
    requires few { n ≤ 128 }
    ensures { result ≤ 128 }
{
    (0..n)
        .filter(|v| value(store.rows, inputs, references[*v], setting) != values[*v])
        .count()
}

// The same on all settings. The values stay from one setting to the next, so an operand that is not below its AND has the value of the setting before.
pub fn mismatches(
    store: &RowStore<'_>,
    references: &References,
    circuit: &Circuit,
    n: usize,
    settings: usize,
) -> usize
    requires held { Held store.now.rows.now references.now store.now.used circuit.now.inputs }
    requires few { (settings ≤ 1024) × (n ≤ 128) }
{
    let mut values = [false; VERTICES];
    let mut wrong = 0;
    for setting in 0..settings {
        simulate(&mut values, circuit, n, setting);
        wrong += differences(store, circuit.inputs, references, &values, n, setting);
    }
    wrong
}
