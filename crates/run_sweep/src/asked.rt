// What a card asks, and the test that the sweep can be asked it.
ghost use Rattle.std.specs.Prelude.{◌*◌, ◌≤◌, length, true, ◌≡◌};
ghost use Rattle.run_sweep.specs.code.Asked.{Asked, Limited, Named, VERTICES, number_in, task_in};

use crate::graph::{VERTICES, is_graph};
use run_card_file::{field, number};
use sweep_state::task::Task;

pub const MAX_INPUTS: usize = table::MAX_INPUTS as usize;

// The highest size limit and row limit.
pub const MAX_ROWS: usize = 32768;

const MAX_STEPS: usize = 4294967295;

// The number in field `k` of a card.
fn number_in(card: &[u8], k: usize) -> u32
    ensures { result ≡ number_in card.now k }
{
    number(field(card, k))
}

// The task of a card: its fields 1 to 8.
pub fn task_of(card: &[u8]) -> Task
    ensures { result ≡ task_in card.now }
{
    Task {
        first: number_in(card, 1),
        count: number_in(card, 2),
        inputs: number_in(card, 3) as usize,
        left: number_in(card, 4),
        right: number_in(card, 5),
        size: number_in(card, 6) as usize,
        rows: number_in(card, 7) as usize,
        steps: number_in(card, 8) as usize,
    }
}

// Whether the limits are within theirs, the numbers fit each other, and the words are those of a graph.
pub fn is_asked(task: Task, pairs: &[u32]) -> bool
    requires { 2 * VERTICES ≤ length pairs.now }
    ensures { result ≡ true → Asked task pairs.now }
{
    has_limits(task) && has_names(task) && is_graph(pairs, task.first, task.count)
}

fn has_limits(task: Task) -> bool
    ensures { result ≡ true → Limited task }
{
    (1..=MAX_ROWS).contains(&task.size)
        && (1..=MAX_ROWS).contains(&task.rows)
        && (1..=MAX_STEPS).contains(&task.steps)
}

// Whether the constant and the inputs are the first vertices, and the literals looked at name vertices.
fn has_names(task: Task) -> bool
    ensures { result ≡ true → Named task }
{
    task.count as usize <= VERTICES
        && task.inputs <= MAX_INPUTS
        && task.first as usize == 1 + task.inputs
        && task.first <= task.count
        && task.left < 2 * task.count
        && task.right < 2 * task.count
}
