// A product that is done.
ghost use Rattle.std.specs.Prelude.{◌*◌, ◌/◌, ◌≤◌, length, ◌≡◌};
ghost use Rattle.bdd.specs.code.Store.{Store};
ghost use Rattle.bdd_size.specs.code.Marks.{Sized};
ghost use Rattle.sweep_state.specs.code.Settle.{EndedIn, Settles};
ghost use Rattle.sweep_state.specs.code.Sweep.{Kept, lent};

use crate::meet::meet;
use bdd::store::RowStore;
use bdd_size::size;
use sweep_draw::drop::drop_vertex;
use sweep_state::sweep::Sweep;

// The size of a reference's function.
fn measure(s: &mut Sweep<'_>, reference: usize) -> usize
    requires { Store s.old.rows.now s.old.task.rows s.old.used × (reference / 2 ≤ s.old.used) }
    ensures same { s.new ≡ s.old }
    ensures sized { Sized s.old.rows.now s.old.rows.now reference result }
{
    let mut store = RowStore {
        rows: &mut *s.rows,
        limit: s.task.rows,
        used: s.used,
    };
    size(&mut store, reference)
}

// Vertex v, whose product has a reference, is dropped where it is too large, and else met.
pub fn settle(s: &mut Sweep<'_>, v: u32, reference: usize, kept: usize)
    requires ended { EndedIn s.old.task v reference s.old.used kept (lent s.old) }
    requires long { 2 * s.old.task.count ≤ length s.old.look.now }
    ensures settled { Settles s.old.task v reference s.old.used kept (lent s.old) (lent s.new) s.new.used }
    ensures same { Kept s.old s.new × (s.new.steps ≡ s.old.steps) }
{
    let measured = measure(s, reference);
    if s.task.size < measured {
        drop_vertex(s, v, kept);
        return;
    }
    meet(s, v, reference as u32, measured as u32);
}
