// Normalising the rows of the working graph, upwards.
ghost use Rattle.std.specs.Prelude.{◌*◌, ◌+◌, ◌-◌, ◌<◌, ◌≢◌, ◌≤◌, length, ◌≡◌};
ghost use Rattle.aig.specs.Lookup.{Indexed, first_vertex};
ghost use Rattle.sweep_graph.specs.code.Graph.{Graph, Turn};
ghost use Rattle.sweep_model.specs.Normalise.{found_row, normalise_from, normalise_row};
ghost use Rattle.sweep_state.specs.code.Sweep.{put_look, put_pairs};

use aig::fold::{Folded, fold_pair};
use aig::literal::Literal;
use aig_lookup::{clear, enter, find_vertex};
use sweep_state::sweep::Sweep;

// The first vertex below v that has the pair.
fn find(s: &Sweep<'_>, v: u32, p: u32, q: u32) -> Option<u32>
    requires index { Indexed s.now.pairs.now v s.now.look.now s.now.task.count }
    requires apart { p ≢ q }
    ensures { result ≡ first_vertex s.now.pairs.now p q v }
{
    find_vertex(&s.pairs[..], v, &s.look[..], s.task.count as usize, p, q)
}

// Vertex v, whose operands come to the pair (p, q), is merged into the first vertex that has the pair, or else has it and is entered.
fn find_again(s: &mut Sweep<'_>, v: u32, p: u32, q: u32)
    requires turn { Turn s.old.pairs.now v s.old.look.now s.old.task.count }
    requires apart { p ≢ q }
    ensures left { s.new ≡ put_look s.new.look.now (put_pairs (found_row s.old.pairs.now v p q (first_vertex s.old.pairs.now p q v)) s.old) }
    ensures indexed { Indexed s.new.pairs.now (v + 1) s.new.look.now s.old.task.count }
    ensures long { length s.new.look.now ≡ length s.old.look.now }
{
    match find(s, v, p, q) {
        Some(u) => {
            let r = Literal::new(u, false).0;
            s.set_pair(v, r, r);
        }
        None => {
            s.set_pair(v, p, q);
            enter(s.look, s.task.count as usize, v, p, q);
        }
    }
}

fn normalise_row(s: &mut Sweep<'_>, v: u32)
    requires { Turn s.old.pairs.now v s.old.look.now s.old.task.count }
    ensures left { s.new ≡ put_look s.new.look.now (put_pairs (normalise_row s.old.pairs.now v) s.old) }
    ensures indexed { Indexed s.new.pairs.now (v + 1) s.new.look.now s.old.task.count }
    ensures long { length s.new.look.now ≡ length s.old.look.now }
{
    let (x, y) = s.pair(v);
    let a = s.resolve(Literal(x));
    let b = s.resolve(Literal(y));
    match fold_pair(a, b) {
        Folded::To(r) => s.set_pair(v, r.0, r.0),
        Folded::Pair(p, q) => find_again(s, v, p.0, q.0),
    }
}

// One pass over the rows of the made vertices; the first ones stand for themselves.
pub fn normalise(s: &mut Sweep<'_>)
    requires graph { Graph s.old.task.first s.old.task.count s.old.pairs.now }
    requires room { 2 * s.old.task.count ≤ length s.old.look.now }
    ensures left { s.new ≡ put_look s.new.look.now (put_pairs (normalise_from s.old.pairs.now s.old.task.first (s.old.task.count - s.old.task.first)) s.old) }
    ensures long { length s.new.look.now ≡ length s.old.look.now }
{
    clear(s.look, s.task.count as usize);
    for v in s.task.first..s.task.count {
        normalise_row(s, v);
    }
}
