// The two literals looked at.
ghost use Rattle.std.specs.Prelude.{◌*◌, ◌<◌, length, ◌≡◌};
ghost use Rattle.aig.specs.Literal.{vertex_of};
ghost use Rattle.sweep_graph.specs.code.Takes.{has_word};
ghost use Rattle.sweep_state.specs.code.Look.{Looks, compared_as, seen_at, seen_by};

use aig::literal::Literal;
use sweep_state::end::End;
use sweep_state::sweep::Sweep;

// Two literals with diagrams: one reference exactly where the functions are equal.
fn compare(s: &Sweep<'_>, l: Literal, r: Literal) -> End
    requires { (2 * vertex_of l.0 < length s.now.diagrams.now) × (2 * vertex_of r.0 < length s.now.diagrams.now) }
    ensures { result ≡ compared_as s.now.diagrams.now l.0 r.0 }
{
    let f = s.reference(l);
    let g = s.reference(r);
    if f == g {
        End::Equal
    } else {
        End::Differ(f, g)
    }
}

fn is_drawn(s: &Sweep<'_>, r: Literal) -> bool
    requires { 2 * vertex_of r.0 < length s.now.stages.now }
    ensures { result ≡ has_word s.now.stages.now (vertex_of r.0) }
{
    s.stage(r.vertex()).has_diagram()
}

// Two literals as they are now.
fn look_at(s: &Sweep<'_>, l: Literal, r: Literal) -> Option<End>
    requires first { (2 * vertex_of l.0 < length s.now.diagrams.now) × (2 * vertex_of l.0 < length s.now.stages.now) }
    requires second { (2 * vertex_of r.0 < length s.now.diagrams.now) × (2 * vertex_of r.0 < length s.now.stages.now) }
    ensures { result ≡ seen_at s.now.diagrams.now s.now.stages.now l.0 r.0 }
{
    if l == r {
        return Some(End::Equal);
    }
    if l == r.negated() {
        return Some(End::Inverse);
    }
    if is_drawn(s, l) && is_drawn(s, r) {
        return Some(compare(s, l, r));
    }
    None
}

// How the sweep ends by its two literals, unless they decide nothing yet.
pub fn look(s: &Sweep<'_>) -> Option<End>
    requires { Looks s.now.task s.now.pairs.now s.now.diagrams.now s.now.stages.now }
    ensures { result ≡ seen_by s.now.task s.now.pairs.now s.now.diagrams.now s.now.stages.now }
{
    let l = s.resolve(Literal(s.task.left));
    let r = s.resolve(Literal(s.task.right));
    look_at(s, l, r)
}
