// The words that a sweep begins with.
ghost use Rattle.std.specs.Prelude.{◌*◌, ◌≤◌, length, ◌≡◌};
ghost use Rattle.aig.specs.Lookup.{cleared};
ghost use Rattle.sweep_pick.specs.code.Begin.{begun_arrays};
ghost use Rattle.sweep_state.specs.code.Sweep.{lent, put_arrays};

use aig_lookup::clear;
use sweep_graph::stage::Stage;
use sweep_state::mark::Mark;
use sweep_state::sweep::Sweep;

// A function of its own: on the field of the sweep, `fill` leaves a goal that the check does not close.
fn clear_marks(marks: &mut [u8], count: usize)
    requires { count ≤ length marks.old }
    ensures { marks.new ≡ cleared marks.old count }
{
    marks[..count].fill(u8::from(Mark::NoProduct));
}

// Every vertex is bare and marked 0, but for the constant, which is open; its diagram has reference 0 and size 0.
pub fn begin(s: &mut Sweep<'_>)
    requires some { 1 ≤ s.old.task.count }
    requires room { (2 * s.old.task.count ≤ length s.old.stages.now) × ((2 * s.old.task.count ≤ length s.old.diagrams.now) × (s.old.task.count ≤ length s.old.marks.now)) }
    ensures { s.new ≡ put_arrays (begun_arrays s.old.task.count (lent s.old).arrays) s.old }
{
    let count = s.task.count as usize;
    clear(s.stages, 2 * count);
    s.set_stage(0, Stage::Opened);
    clear(s.diagrams, 2 * count);
    clear_marks(s.marks, count);
}
