// Two vertices of equal or inverse functions merge.
ghost use Rattle.std.specs.Prelude.{◌*◌, ◌+◌, ◌<◌, ◌^◌, length, max, ◌≡◌};
ghost use Rattle.sweep_state.specs.code.Meet.{MergeAsked, inverse?, joined, merged_workspace};
ghost use Rattle.sweep_state.specs.code.Sweep.{handed, lent, put_lent, put_look, put_pairs};

use aig::literal::Literal;
use sweep_normalise::normalise::normalise;
use sweep_state::sweep::Sweep;
use sweep_take::take::takes;
use words::first_word;

// Whether the diagrams of two vertices, on one row, are inverse.
fn are_inverse(s: &Sweep<'_>, v: u32, w: u32) -> bool
    requires { (2 * v < length s.now.diagrams.now) × (2 * w < length s.now.diagrams.now) }
    ensures { result ≡ inverse? s.now.diagrams.now v w }
{
    first_word(&s.diagrams[..], v) != first_word(&s.diagrams[..], w)
}

// The higher of two vertices gets the row of one merged into the lower.
#[tactic(auto, unfolding(sweep_state::specs::code::Meet::joined))]
fn join(s: &mut Sweep<'_>, v: u32, w: u32, inverted: bool)
    requires { (2 * max v w + 1 < length s.old.pairs.now) × (max v w < 2 ^ 31) }
    ensures { s.new ≡ put_pairs (joined s.old.pairs.now v w inverted) s.old }
{
    let x = Literal::new(v.min(w), inverted).0;
    s.set_pair(v.max(w), x, x);
}

// The higher of two vertices is merged into the lower, and normalising and handing over follow.
pub fn merge(s: &mut Sweep<'_>, v: u32, w: u32)
    requires { MergeAsked s.old.task v w s.old.pairs.now s.old.look.now (handed s.old) }
    ensures left { s.new ≡ put_look s.new.look.now (put_lent (merged_workspace s.old.task v w (lent s.old)) s.old) }
    ensures long { length s.new.look.now ≡ length s.old.look.now }
{
    let inverted = are_inverse(s, v, w);
    join(s, v, w, inverted);
    normalise(s);
    takes(s);
}
