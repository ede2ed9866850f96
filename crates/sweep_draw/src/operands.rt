// The product of a vertex's operands.
ghost use Rattle.std.specs.Prelude.{length, ◌≡◌};
ghost use Rattle.sweep_draw.specs.code.Operands.{ProductAsked, ProductTaken};
ghost use Rattle.sweep_state.specs.code.Sweep.{put_counts, put_rows};

use aig::literal::Literal;
use bdd::store::RowStore;
use product::{Short, Steps, multiply};
use sweep_state::sweep::Sweep;

// The product of the functions of v's two operands, or why it is short; the rows used and the steps taken are those after it.
pub fn take_product(s: &mut Sweep<'_>, v: u32) -> Result<usize, Short>
    requires { ProductAsked s.old v }
    ensures left { s.new ≡ put_counts s.new.used s.new.steps (put_rows s.new.rows.now s.old) }
    ensures taken { ProductTaken s.old s.new v result }
    ensures long { length s.new.rows.now ≡ length s.old.rows.now }
{
    let (x, y) = s.pair(v);
    let f = s.reference(Literal(x));
    let g = s.reference(Literal(y));
    let task = s.task;
    let mut steps = Steps {
        taken: s.steps,
        most: task.steps,
    };
    let mut store = RowStore {
        rows: &mut *s.rows,
        limit: task.rows,
        used: s.used,
    };
    let answer = multiply(&mut store, f, g, task.inputs, &mut steps);
    s.used = store.used;
    s.steps = steps.taken;
    answer
}
