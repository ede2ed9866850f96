// What the sweep is asked.
ghost use Rattle.std.specs.Prelude.{◌<◌, ◌^◌, ℕ, length, ◌≡◌};
ghost use Rattle.compare_model.specs.Compare.{looked_at, next_rows};
ghost use Rattle.comparer.specs.code.Work.{Posed};
ghost use Rattle.table.specs.Table.{outputs_of};

use aig::literal::Literal;
use compare_model::{Limits, NEXT_VERTICES};
use sweep_state::task::Task;
use table::Table;

// How many next vertices there are: none where the constraint is 1.
#[tactic(auto, unfolding(compare_model::specs::Compare::next_rows))]
fn next_count(table: &Table<'_>) -> u32
    ensures { (output : ℕ) → result ≡ length (next_rows table.now.words.now output) }
{
    if table.constraint() == Literal::TRUE {
        0
    } else {
        NEXT_VERTICES as u32
    }
}

// The literal looked at: the output's where the constraint is 1, else the next vertex's.
#[tactic(auto, unfolding(compare_model::specs::Compare::looked_at))]
fn looked_at(table: &Table<'_>, literal: u32, next: u32) -> u32
    requires { next < 2 ^ 31 }
    ensures { result ≡ looked_at table.now.words.now literal next }
{
    if table.constraint() == Literal::TRUE {
        literal
    } else {
        2 * next
    }
}

// The two literals looked at for an output of a table, with the vertices and the limits.
pub fn task_of(table: &Table<'_>, output: u32, limits: Limits) -> Task
    requires { output < outputs_of table.now.words.now }
    ensures { Posed table.now.words.now output limits result }
{
    let left = table.output_literal(1, output as usize).0;
    let right = table.output_literal(2, output as usize).0;
    let inputs = table.inputs();
    let vertices = table.vertices() as u32;
    Task {
        first: 1 + inputs,
        count: vertices + next_count(table),
        inputs: inputs as usize,
        left: looked_at(table, left, vertices),
        right: looked_at(table, right, vertices + 1),
        size: limits.size as usize,
        rows: limits.rows as usize,
        steps: limits.steps as usize,
    }
}
