// A product within the size limit.
ghost use Rattle.std.specs.Prelude.{length, ◌≡◌};
ghost use Rattle.sweep_state.specs.code.Meet.{MeetAsked, met_workspace};
ghost use Rattle.sweep_state.specs.code.Sweep.{lent, put_lent, put_look};

use sweep_draw::draw::draw;
use sweep_merge::merge::merge;
use sweep_merge::twin::find_twin;
use sweep_state::sweep::Sweep;

// Vertex v gets its diagram; where another vertex has its function or the inverse, the two merge.
pub fn meet(s: &mut Sweep<'_>, v: u32, reference: u32, size: u32)
    requires { MeetAsked s.old.task v reference size s.old.look.now (lent s.old) }
    ensures left { s.new ≡ put_look s.new.look.now (put_lent (met_workspace s.old.task v reference size (lent s.old)) s.old) }
    ensures long { length s.new.look.now ≡ length s.old.look.now }
{
    let twin = find_twin(s, reference);
    draw(s, v, reference, size);
    if let Some(w) = twin {
        merge(s, v, w);
    }
}
