// The waiting vertex that is opened next.
ghost use Rattle.std.specs.Prelude.{◌*◌, ◌+◌, ◌<◌, ◌≤◌, Option, Some, ℕ, length, ◌≡◌};
ghost use Rattle.sweep_pick.specs.code.Pick.{Within, least_from, pick_here};

use sweep_state::sweep::Sweep;

// What is picked of the vertices from v on, given what is picked of those after v: v, where it waits and that one is not smaller.
#[tactic(auto, unfolding(crate::specs::code::Pick::pick_here, crate::specs::code::Pick::lesser))]
fn pick_here(s: &Sweep<'_>, v: u32, later: Option<u32>) -> Option<u32>
    requires words { (2 * v < length s.now.stages.now) × (2 * v + 1 < length s.now.diagrams.now) }
    requires later { Within s.now.diagrams.now later }
    ensures { result ≡ pick_here s.now.stages.now s.now.diagrams.now v later }
{
    if !s.waits(v) {
        return later;
    }
    match later {
        Some(w) if s.size(w) < s.size(v) => later,
        _ => Some(v),
    }
}

// The waiting vertex of least size, the lowest on a tie, in one pass downwards.
pub fn pick(s: &Sweep<'_>) -> Option<u32>
    requires { (2 * s.now.task.count ≤ length s.now.stages.now) × (2 * s.now.task.count ≤ length s.now.diagrams.now) }
    ensures { result ≡ least_from s.now.stages.now s.now.diagrams.now 0 s.now.task.count }
{
    let mut picked = None;
    for v in (0..s.task.count).rev() {
        picked = pick_here(s, v, picked);
    }
    picked
}
