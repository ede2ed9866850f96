// The table's rows copied to the working graph, and the graph's rows and the outputs back.
#![tactic(auto)]

ghost use Rattle.std.specs.Prelude.{◌*◌, ◌+◌, ◌<◌, ◌≤◌, ℕ, get_or, length, [], ◌∷◌, map, ◌≡◌};
ghost use Rattle.aig.specs.Literal.{vertex_of};
ghost use Rattle.compare_model.specs.Compare.{entry_rows, graph_words, output_of, over_front, table_left, vertex_room};
ghost use Rattle.sweep_model.specs.Normalise.{resolve};
ghost use Rattle.table.specs.Accepted.{Accepted};
ghost use Rattle.table.specs.Table.{constraint_of, outputs_of, vertices_of};
ghost use Rattle.text.specs.Decimal.{written};

use aig::literal::Literal;
use sweep_graph::resolve::resolve;
use table::{HEADER, Table};

// The first vertices' own words, and the table's rows.
fn copy_rows(table: &Table<'_>, pairs: &mut [u32])
    requires { 2 * vertices_of table.now.words.now ≤ length pairs.old }
    ensures { pairs.new ≡ over_front (graph_words table.now.words.now) pairs.old }
{
    let first = 1 + table.inputs();
    words::write_own(pairs, first);
    words::copy(table.rows(), pairs, 2 * first as usize);
}

// The row of the AND of the constraint with an output of a side, from a place on.
fn write_next(table: &Table<'_>, side: u32, output: u32, pairs: &mut [u32], at: usize)
    requires output_bound { output < outputs_of table.now.words.now }
    requires at_in_bounds { at + 2 ≤ length pairs.old }
    ensures { pairs.new ≡ written pairs.old at (constraint_of table.now.words.now ∷ output_of table.now.words.now side output ∷ []) }
{
    pairs[at] = table.constraint().0;
    pairs[at + 1] = table.output_literal(side, output as usize).0;
}

// The rows that the sweep starts from: those of the table's vertices, and unless the constraint is 1 those of the two next ones.
pub fn copy_in(table: &Table<'_>, output: u32, pairs: &mut [u32])
    requires output_bound { output < outputs_of table.now.words.now }
    requires table_in_bounds { 2 * vertex_room table.now.words.now ≤ length pairs.old }
    ensures { pairs.new ≡ over_front (entry_rows table.now.words.now output) pairs.old }
{
    copy_rows(table, pairs);
    if table.constraint() != Literal::TRUE {
        let at = 2 * table.vertices();
        write_next(table, 1, output, pairs, at);
        write_next(table, 2, output, pairs, at + 2);
    }
}

// Each word becomes what its vertex was merged into.
fn resolve_all(words: &mut [u32], pairs: &[u32])
    requires { (k : ℕ) → k < length words.old → 2 * vertex_of (get_or words.old k 0) + 1 < length pairs.now }
    ensures { words.new ≡ map (resolve pairs.now) words.old }
{
    for word in words.iter_mut() {
        *word = resolve(pairs, Literal(*word)).0;
    }
}

// The rows of the working graph, and each output of both sides as what it became.
pub fn copy_out(table: &mut [u32], pairs: &[u32])
    requires accepted { Accepted table.old }
    requires pairs_len { length pairs.now ≡ 2 * vertices_of table.old }
    ensures { table.new ≡ table_left table.old pairs.now }
{
    let view = Table { words: &table[..] };
    let outputs = view.outputs() as usize;
    let first = 2 * (1 + view.inputs() as usize);
    let from = view.rows_end();
    let end = from + 2 * outputs;
    words::copy(&pairs[first..], table, HEADER);
    resolve_all(&mut table[from..end], pairs);
}
