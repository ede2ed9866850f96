// Turns: the waiting vertex of least size opens, and a scan follows.
ghost use Rattle.std.specs.Prelude.{◌*◌, ◌≤◌, length};
ghost use Rattle.sweep_state.specs.code.Sweep.{Kept};
ghost use Rattle.sweep_turn.specs.code.Turn.{Goes, OpenIn, Opens, RestIn};

use crate::scan::scan;
use sweep_graph::stage::Stage;
use sweep_pick::pick::pick;
use sweep_state::end::Ended;
use sweep_state::sweep::Sweep;

// Vertex v opens, and every higher vertex is visited.
fn open(s: &mut Sweep<'_>, v: u32) -> Result<(), Ended>
    requires opening { OpenIn v s.old }
    requires long { 2 * s.old.task.count ≤ length s.old.look.now }
    ensures opened { Opens v s.old s.new result }
    ensures kept { Kept s.old s.new }
{
    s.set_stage(v, Stage::Opened);
    scan(s, v + 1)
}

// Turns until the sweep ends or none waits: a `while`, since nothing is counted.
pub fn go(s: &mut Sweep<'_>) -> Result<(), Ended>
    requires rest { RestIn s.old }
    requires long { 2 * s.old.task.count ≤ length s.old.look.now }
    ensures went { Goes s.old s.new result }
    ensures kept { Kept s.old s.new }
{
    while let Some(v) = pick(s) {
        open(s, v)?;
    }
    Ok(())
}
