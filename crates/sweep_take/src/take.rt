// What a newly merged vertex hands over to the vertex that it was merged into.
ghost use Rattle.std.specs.Prelude.{◌*◌, ◌+◌, ◌-◌, ◌<◌, length, ◌≡◌};
ghost use Rattle.aig.specs.Literal.{vertex_of};
ghost use Rattle.aig.specs.Lookup.{first_word};
ghost use Rattle.sweep_graph.specs.code.Graph.{Graph};
ghost use Rattle.sweep_graph.specs.code.Takes.{Handing, TakesRoom, handed_over, take_words, taken_diagrams, wake_words};
ghost use Rattle.sweep_state.specs.code.Meet.{handed_in};
ghost use Rattle.sweep_state.specs.code.Sweep.{handed, put_diagrams, put_held, put_stages};

use aig::literal::Literal;
use bdd::references::edge_to;
use sweep_graph::stage::Stage;
use sweep_state::sweep::Sweep;

// The constant never waits.
fn wake_at(s: &mut Sweep<'_>, w: u32)
    requires { 2 * w < length s.old.stages.now }
    ensures { s.new ≡ put_stages (wake_words w s.old.stages.now) s.old }
{
    if w == 0 {
        return;
    }
    let stage = s.stage(w).woken();
    s.set_stage(w, stage);
}

// The diagram of v goes to the vertex of x, inverted where x is, unless that has one of its own.
fn give_diagram(s: &mut Sweep<'_>, v: u32, x: Literal)
    requires { Handing v x.0 (handed s.old) }
    ensures { s.new ≡ put_diagrams (taken_diagrams v x.0 s.old.stages.now s.old.diagrams.now) s.old }
{
    let w = x.vertex();
    if s.stage(w).has_diagram() {
        return;
    }
    let r = x.0 as usize;
    let (own, size) = s.diagram(v);
    let reference = edge_to(own as usize, r);
    s.set_diagram(w, reference as u32, size);
}

// Vertex v, merged into x, hands over to x's vertex: the diagram and its row, if it has one, and the turn to wait, if either has.
fn hand_over(s: &mut Sweep<'_>, v: u32, x: Literal)
    requires { Handing v x.0 (handed s.old) }
    ensures { s.new ≡ put_held (handed_over v x.0 (handed s.old)) s.old }
{
    let w = x.vertex();
    if s.stage(v).has_diagram() {
        let (reference, _) = s.diagram(v);
        give_diagram(s, v, x);
        wake_at(s, w);
        s.own_row(reference, w);
        return;
    }
    if s.stage(w).has_diagram() {
        wake_at(s, w);
    }
}

// Vertex v, if it was merged and is not gone yet, hands over and is gone.
pub fn take_at(s: &mut Sweep<'_>, v: u32)
    requires row { 2 * v + 1 < length s.old.pairs.now }
    requires room { Handing v (first_word s.old.pairs.now v) (handed s.old) }
    ensures { s.new ≡ put_held (take_words s.old.pairs.now v (handed s.old)) s.old }
{
    let (x, y) = s.pair(v);
    if x == y {
        if s.stage(v).is_gone() {
            return;
        }
        hand_over(s, v, Literal(x));
        s.set_stage(v, Stage::Gone);
    }
}

// One pass over the made vertices, upwards.
pub fn takes(s: &mut Sweep<'_>)
    requires graph { Graph s.old.task.first s.old.task.count s.old.pairs.now }
    requires room { TakesRoom s.old.task.count (handed s.old) }
    ensures { s.new ≡ put_held (handed_in s.old.task s.old.pairs.now (handed s.old)) s.old }
{
    for v in s.task.first..s.task.count {
        take_at(s, v);
    }
}
