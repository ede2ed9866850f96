// The diagrams of a circuit's vertices, made by products one after the other.
// The store and the references are lent beside each other (tried as one struct: a `&mut` two structs deep is not followed).
ghost use Rattle.std.specs.Prelude.{◌%◌, ◌/◌, ◌<◌, ◌≤◌, get_or, ◌≡◌};
ghost use Rattle.bdd.specs.Diagram.{edge};
ghost use Rattle.bdd.specs.code.Slice.{SameSlice};
ghost use Rattle.run_product.specs.code.Held.{Held};

use crate::circuit::{Circuit, VERTICES};
use bdd::references::edge_to;
use bdd::store::RowStore;
use bdd_unique::{give_back, make};
use product::{Short, Steps, multiply};

// The references of the vertices: an array, whose length the check knows.
pub type References = [usize; VERTICES];

// How far a circuit came: the next vertex, and the limit that a product passed.
#[derive(Clone, Copy)]
pub struct Turn {
    pub next: usize,
    pub short: Option<Short>,
}

// The rows of the inputs, each at its level, where there is room.
pub fn input_rows(store: &mut RowStore<'_>, references: &mut References, inputs: usize)
    requires held { Held store.old.rows.now references.old store.old.used inputs }
    requires few { inputs ≤ 10 }
    ensures same { SameSlice store.old store.new }
    ensures held { Held store.new.rows.now references.new store.new.used inputs }
{
    for i in 1..inputs + 1 {
        if let Some(r) = make(store, inputs + 1 - i, 0, 1) {
            references[i] = r;
        }
    }
}

// The reference of a literal.
fn reference_of(references: &References, p: usize) -> usize
    ensures { result ≡ edge (get_or references.now (p / 2 % 128) 0) p }
{
    edge_to(references[p / 2 % VERTICES], p)
}

// The product of the two literals of vertex v. A shortfall gives its new rows back.
fn and(
    store: &mut RowStore<'_>,
    references: &mut References,
    circuit: &Circuit,
    v: usize,
    steps: &mut Steps,
) -> Result<(), Short>
    requires held { Held store.old.rows.now references.old store.old.used circuit.now.inputs }
    requires few { v < 128 }
    ensures same { SameSlice store.old store.new }
    ensures held { Held store.new.rows.now references.new store.new.used circuit.now.inputs }
{
    let (p, q) = circuit.operands[v];
    let f = reference_of(references, p);
    let g = reference_of(references, q);
    let kept = store.used;
    match multiply(store, f, g, circuit.inputs, steps) {
        Ok(r) => {
            references[v] = r;
            Ok(())
        }
        Err(short) => {
            give_back(store, kept);
            Err(short)
        }
    }
}

// The products of the vertices after the inputs, until one is short.
pub fn ands(
    store: &mut RowStore<'_>,
    references: &mut References,
    circuit: &Circuit,
    steps: &mut Steps,
) -> Turn
    requires held { Held store.old.rows.now references.old store.old.used circuit.now.inputs }
    ensures same { SameSlice store.old store.new }
    ensures held { Held store.new.rows.now references.new store.new.used circuit.now.inputs }
    ensures next { (1 ≤ result.next) × (result.next ≤ 128) }
{
    for v in circuit.inputs + 1..circuit.vertices {
        if let Err(short) = and(store, references, circuit, v, steps) {
            return Turn {
                next: v,
                short: Some(short),
            };
        }
    }
    Turn {
        next: circuit.vertices.max(circuit.inputs + 1),
        short: None,
    }
}
