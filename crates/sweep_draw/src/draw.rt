// A vertex gets its diagram.
ghost use Rattle.std.specs.Prelude.{◌*◌, ◌+◌, ◌/◌, ◌<◌, ◌≤◌, length, ◌≡◌};
ghost use Rattle.bdd.specs.code.Rows.{RADIX};
ghost use Rattle.sweep_state.specs.code.Arrays.{drawn_at};
ghost use Rattle.sweep_state.specs.code.Sweep.{lent, put_arrays};

use sweep_graph::stage::Stage;
use sweep_state::mark::Mark;
use sweep_state::sweep::Sweep;

// Vertex v has the diagram of a reference, owns its row, waits, and is marked 1.
pub fn draw(s: &mut Sweep<'_>, v: u32, reference: u32, size: u32)
    requires words { (2 * v + 1 < length s.old.diagrams.now) × ((2 * v < length s.old.stages.now) × (v < length s.old.marks.now)) }
    requires row { (reference / 2 * 4 ≤ length s.old.rows.now) × (v < RADIX) }
    ensures { s.new ≡ put_arrays (drawn_at v reference size (lent s.old).arrays) s.old }
{
    s.own_row(reference, v);
    s.set_diagram(v, reference, size);
    s.set_stage(v, Stage::Waiting);
    s.mark(v, Mark::Swept);
}
