// A scan: every vertex from one on is visited, upwards.
ghost use Rattle.std.specs.Prelude.{◌*◌, ◌≤◌, length};
ghost use Rattle.sweep_state.specs.code.Sweep.{Kept};
ghost use Rattle.sweep_turn.specs.code.Scan.{Scans};
ghost use Rattle.sweep_turn.specs.code.Visit.{ScanIn};

use crate::visit::visit;
use sweep_state::end::Ended;
use sweep_state::sweep::Sweep;

pub fn scan(s: &mut Sweep<'_>, from: u32) -> Result<(), Ended>
    requires scan { ScanIn from s.old }
    requires long { (from ≤ s.old.task.count) × (2 * s.old.task.count ≤ length s.old.look.now) }
    ensures scanned { Scans from s.old s.new result }
    ensures kept { Kept s.old s.new }
{
    for v in from..s.task.count {
        visit(s, v)?;
    }
    Ok(())
}
