// A product that is too large, or short.
ghost use Rattle.std.specs.Prelude.{◌*◌, ◌<◌, ◌≤◌, length, set, ◌≡◌};
ghost use Rattle.bdd.specs.code.Store.{Store};
ghost use Rattle.bdd_unique.specs.code.Unique.{GivenBack};
ghost use Rattle.sweep_graph.specs.code.Stages.{with_stage};
ghost use Rattle.sweep_state.specs.code.Sweep.{put_counts, put_marks, put_rows, put_stages};

use bdd::store::RowStore;
use bdd_unique::give_back;
use sweep_graph::stage::Stage;
use sweep_state::mark::Mark;
use sweep_state::sweep::Sweep;

// The rows above kept are given back.
fn shrink(s: &mut Sweep<'_>, kept: usize)
    requires { Store s.old.rows.now s.old.task.rows s.old.used × (kept ≤ s.old.used) }
    ensures given_back { GivenBack s.old.rows.now s.new.rows.now s.old.task.rows s.old.used kept }
    ensures left { s.new ≡ put_counts kept s.old.steps (put_rows s.new.rows.now s.old) }
    ensures long { length s.new.rows.now ≡ length s.old.rows.now }
{
    let mut store = RowStore {
        rows: &mut *s.rows,
        limit: s.task.rows,
        used: s.used,
    };
    give_back(&mut store, kept);
    s.used = kept;
}

// The rows above kept are given back, and vertex v is dropped and marked 2.
pub fn drop_vertex(s: &mut Sweep<'_>, v: u32, kept: usize)
    requires store { Store s.old.rows.now s.old.task.rows s.old.used × (kept ≤ s.old.used) }
    requires words { (2 * v < length s.old.stages.now) × (v < length s.old.marks.now) }
    ensures given_back { GivenBack s.old.rows.now s.new.rows.now s.old.task.rows s.old.used kept }
    ensures left { s.new ≡ put_marks (set s.old.marks.now v 2) (put_stages (with_stage s.old.stages.now v 4) (put_counts kept s.old.steps (put_rows s.new.rows.now s.old))) }
    ensures long { length s.new.rows.now ≡ length s.old.rows.now }
{
    shrink(s, kept);
    s.set_stage(v, Stage::Dropped);
    s.mark(v, Mark::TooLarge);
}

// The rows above kept are given back, and vertex v is marked 3.
pub fn break_off(s: &mut Sweep<'_>, v: u32, kept: usize)
    requires store { Store s.old.rows.now s.old.task.rows s.old.used × (kept ≤ s.old.used) }
    requires words { v < length s.old.marks.now }
    ensures given_back { GivenBack s.old.rows.now s.new.rows.now s.old.task.rows s.old.used kept }
    ensures left { s.new ≡ put_marks (set s.old.marks.now v 3) (put_counts kept s.old.steps (put_rows s.new.rows.now s.old)) }
    ensures long { length s.new.rows.now ≡ length s.old.rows.now }
{
    shrink(s, kept);
    s.mark(v, Mark::Short);
}
