// The scan's visit of a vertex.
ghost use Rattle.std.specs.Prelude.{◌*◌, ◌<◌, ◌≤◌, length, ◌≡◌};
ghost use Rattle.aig.specs.Literal.{vertex_of};
ghost use Rattle.sweep_state.specs.code.Sweep.{Kept};
ghost use Rattle.sweep_turn.specs.code.Visit.{ReadyAsked, ScanIn, Visits, going_by, open_word, ready_at};

use aig::literal::Literal;
use sweep_state::end::{End, Ended};
use sweep_state::sweep::Sweep;
use sweep_step::multiply::multiply;
use words::{first_word, second_word};

fn operand_is_open(s: &Sweep<'_>, r: Literal) -> bool
    requires { 2 * vertex_of r.0 < length s.now.stages.now }
    ensures { result ≡ open_word s.now.stages.now (vertex_of r.0) }
{
    s.is_open(r.vertex())
}

// Whether vertex v is bare, and both its operands are open.
#[tactic(auto, unfolding(crate::specs::code::Visit::ready_at))]
fn is_ready(s: &Sweep<'_>, v: u32) -> bool
    requires { ReadyAsked v s.now.pairs.now s.now.stages.now }
    ensures { result ≡ ready_at s.now.task v s.now.pairs.now s.now.stages.now }
{
    s.task.first <= v
        && s.stage(v).is_bare()
        && operand_is_open(s, Literal(first_word(&s.pairs[..], v)))
        && operand_is_open(s, Literal(second_word(&s.pairs[..], v)))
}

// How a sweep goes on after what was seen.
pub fn after_look(s: &Sweep<'_>, seen: Option<End>) -> Result<(), Ended>
    ensures { result ≡ going_by seen s.now.used s.now.steps }
{
    match seen {
        Some(end) => Err(s.ended(end, 0)),
        None => Ok(()),
    }
}

// Vertex v, if it is ready, has its product taken.
pub fn visit(s: &mut Sweep<'_>, v: u32) -> Result<(), Ended>
    requires scan { ScanIn v s.old }
    requires long { (v < s.old.task.count) × (2 * s.old.task.count ≤ length s.old.look.now) }
    ensures visited { Visits v s.old s.new result }
    ensures kept { Kept s.old s.new }
{
    if is_ready(s, v) {
        let seen = multiply(s, v)?;
        return after_look(s, seen);
    }
    Ok(())
}
