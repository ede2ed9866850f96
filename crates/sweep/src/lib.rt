// The sweep's code on the working graph: it knows no table header and no file.
#![tactic(auto)]

ghost use Rattle.std.specs.Prelude.{◌*◌, ◌≤◌, length};
ghost use Rattle.sweep_start.specs.code.Start.{SweepAsked};
ghost use Rattle.sweep_state.specs.code.Arrays.{arrays};
ghost use Rattle.sweep_state.specs.code.Meet.{workspace};
ghost use Rattle.sweep_state.specs.code.Sweep.{Kept, lent};
ghost use Rattle.sweep_turn.specs.code.Turn.{RestIn};
ghost use Rattle.sweep.specs.code.Sweep.{Rests, Sweeps};

use sweep_model::Cause;
use sweep_start::start::start;
use sweep_state::end::{End, Ended};
use sweep_state::sweep::Sweep;
use sweep_state::task::Task;
use sweep_turn::turn::go;

// The turns. Where none waits the reply is Undecided by Size: by the law turns-dropped of sweep_model some vertex is dropped then.
fn finish(s: &mut Sweep<'_>) -> Ended
    requires rest { RestIn s.old }
    requires long { 2 * s.old.task.count ≤ length s.old.look.now }
    ensures rested { Rests s.old s.new result }
    ensures kept { Kept s.old s.new }
{
    match go(s) {
        Ok(()) => s.ended(End::Undecided(Cause::Size), 0),
        Err(ended) => ended,
    }
}

// The start, and the turns where it does not end the sweep.
fn run(s: &mut Sweep<'_>) -> Ended
    requires { SweepAsked s.old.task s.old.look.now (lent s.old) }
    ensures swept { Sweeps s.old.task (lent s.old) (lent s.new) result }
    ensures kept { Kept s.old s.new }
{
    match start(s) {
        Ok(()) => finish(s),
        Err(ended) => ended,
    }
}

// The sweep of a working graph: pairs hold its rows, the other slices are worked in. It takes the slices, and not the struct of them: a caller
// has no rows used and no steps taken to put beside them.
pub fn sweep(
    pairs: &mut [u32],
    look: &mut [u32],
    diagrams: &mut [u32],
    stages: &mut [u32],
    rows: &mut [u32],
    marks: &mut [u8],
    task: Task,
) -> Ended
    requires { SweepAsked task look.old (workspace pairs.old (arrays diagrams.old stages.old rows.old marks.old)) }
    ensures { Sweeps task (workspace pairs.old (arrays diagrams.old stages.old rows.old marks.old)) (workspace pairs.new (arrays diagrams.new stages.new rows.new marks.new)) result }
{
    let mut s = Sweep {
        pairs,
        look,
        diagrams,
        stages,
        rows,
        marks,
        task,
        used: 0,
        steps: 0,
    };
    run(&mut s)
}
