// Both files loaded: the graph, and then the table.
#![tactic(auto)]

mod layout;

ghost use Rattle.std.specs.Prelude.{◌≤◌, length, ◌≡◌};
ghost use Rattle.load_model.specs.Lent.{SameSlices, lists_in};
ghost use Rattle.load_model.specs.code.Held.{netlist_held};
ghost use Rattle.load_model.specs.Load.{max_table, table_of, tally_of};
ghost use Rattle.load_graph.specs.code.Slices.{build_of};
ghost use Rattle.load_pair.specs.code.Pair.{AgreedFiles, Enough, OutputsHeld, pair_held, second_held};

use load_graph::{Builder, Counts};
use load_model::{Accepted, Tally, Working};

// Loads both files and writes the table.
pub fn load_pair(
    left: Accepted<'_>,
    right: Accepted<'_>,
    table: &mut [u32],
    working: &mut Working<'_>,
) -> Tally
    requires files { AgreedFiles left right }
    requires room { Enough (lists_in working.old) }
    requires table { max_table ≤ length table.old }
    ensures result { result ≡ tally_of (netlist_held left.entry) (second_held left.entry right.entry) }
    ensures table { table.new ≡ table_of (netlist_held left.entry) (second_held left.entry right.entry) table.old }
    ensures same { SameSlices working.old working.new }
{
    let first = 1 + left.summary.inputs;
    let counts = build_pair(left, right, working);
    let vertices = counts.vertices;
    layout::write_table(table, working, first, vertices, left.summary.outputs);
    Tally {
        asked: counts.asked,
        folded: counts.folded,
        found: counts.found,
        made: vertices - first,
    }
}

// The graph of both files, the first loaded whole, then the second with its inputs in the first one's order, and the literals of their outputs
// and of the constraint.
fn build_pair(left: Accepted<'_>, right: Accepted<'_>, working: &mut Working<'_>) -> Counts
    requires files { AgreedFiles left right }
    requires room { Enough (lists_in working.old) }
    ensures result { build_of working.new.pairs.now result ≡ (pair_held left.entry right.entry).build }
    ensures outputs { OutputsHeld working.new.outputs.now (pair_held left.entry right.entry) }
    ensures same { SameSlices working.old working.new }
{
    let one = left.summary;
    let two = right.summary;
    let counts = load_graph::start(working.pairs, working.look, one.inputs);
    let mut graph = Builder {
        pairs: working.pairs,
        look: working.look,
        counts,
    };
    load_inputs::write_by_place(working.literals, 1 + one.inputs);
    load_file::load_file(left, &mut graph, working.literals, working.outputs, 0);
    load_inputs::write_second(
        left.file,
        right.file,
        working.literals,
        u32::from(two.edition),
        two.inputs,
        two.names,
    );
    load_file::load_file(
        right,
        &mut graph,
        working.literals,
        working.outputs,
        layout::RIGHT,
    );
    graph.counts
}
