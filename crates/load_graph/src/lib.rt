// The graph while files are loaded into it: `pairs` has two words a vertex, and `look` finds a vertex by them.
#![tactic(auto)]

ghost use Rattle.std.specs.Prelude.{◌*◌, ◌+◌, ◌<◌, ◌≤◌, length, ◌≡◌, ◌≢◌};
ghost use Rattle.aig.specs.Fold.{Unfolded};
ghost use Rattle.aig.specs.Lookup.{entered, first_vertex, with_row};
ghost use Rattle.load_model.specs.Build.{ask_and, ask_gate, ask_xor, empty_build, found_or_made};
ghost use Rattle.load_model.specs.Load.{max_vertices};
ghost use Rattle.load_graph.specs.code.Slices.{Graph, Roomy, build_of, counts_after};
ghost use Rattle.netlist_model.specs.Check.{ands_of};
ghost use Rattle.table.specs.Limits.{max_ands, max_inputs};

use aig::fold;
use aig::fold::Folded;
use aig::literal::Literal;
use load_model::MAX_VERTICES;
use netlist_model::Operation;

// The vertices so far, and how the ANDs that were asked for ended.
#[derive(Clone, Copy, Debug, PartialEq, Eq)]
pub struct Counts {
    pub vertices: u32,
    pub asked: u32,
    pub folded: u32,
    pub found: u32,
}

// How an AND that is asked for ends: it names the count that is raised. One equation (`counts_after`) says what becomes of all counts; three methods
// in its place would have one each.
#[derive(Clone, Copy, Debug, PartialEq, Eq)]
pub enum Ended {
    Folded,
    Found,
    Made,
}

impl Counts {
    // The counts after one more AND.
    fn after(self, ended: Ended) -> Self
        requires { Roomy self }
        ensures { result ≡ counts_after self ended }
    {
        let asked = self.asked + 1;
        match ended {
            Ended::Folded => Counts {
                asked,
                folded: self.folded + 1,
                ..self
            },
            Ended::Found => Counts {
                asked,
                found: self.found + 1,
                ..self
            },
            Ended::Made => Counts {
                asked,
                vertices: self.vertices + 1,
                ..self
            },
        }
    }
}

// The graph in its two lent slices, and its counts.
#[derive(Drop)]
pub struct Builder<'a> {
    pub pairs: &'a mut [u32],
    pub look: &'a mut [u32],
    pub counts: Counts,
    ghost graph: { Graph pairs.now look.now counts },
}

impl<'a> Builder<'a> {
    ghost use Rattle.load_graph.specs.code.Building.{SameSlices, build_in, built_in};

    // Asks for an AND: it is folded, found or made.
    fn ask_and(&mut self, p: Literal, q: Literal) -> Literal
        requires { self.old.counts.asked < max_ands }
        ensures result { built_in self.new result ≡ ask_and (build_in self.old) p.0 q.0 }
        ensures same { SameSlices self.old self.new }
    {
        match fold::fold_pair(p, q) {
            Folded::To(literal) => {
                self.counts = self.counts.after(Ended::Folded);
                literal
            }
            Folded::Pair(x, y) => self.find_or_make(x, y),
        }
    }

    // The vertex that has a pair, or the next vertex, which then has it.
    fn find_or_make(&mut self, x: Literal, y: Literal) -> Literal
        requires room { self.old.counts.asked < max_ands }
        requires pair { Unfolded x.0 y.0 }
        ensures result { built_in self.new result ≡ found_or_made (build_in self.old) x.0 y.0 (first_vertex (build_in self.old).words x.0 y.0 self.old.counts.vertices) }
        ensures same { SameSlices self.old self.new }
    {
        let vertices = self.counts.vertices;
        match self.find(x, y) {
            Some(v) => {
                self.counts = self.counts.after(Ended::Found);
                Literal::new(v, false)
            }
            None => {
                add_row(self.pairs, self.look, vertices, x.0, y.0);
                self.counts = self.counts.after(Ended::Made);
                Literal::new(vertices, false)
            }
        }
    }

    // The vertex that has a pair, if any.
    fn find(&self, x: Literal, y: Literal) -> Option<u32>
        requires { x.0 ≢ y.0 }
        ensures { result ≡ first_vertex self.now.pairs.now x.0 y.0 self.now.counts.vertices }
    {
        let vertices = self.counts.vertices;
        aig_lookup::find_vertex(self.pairs, vertices, self.look, MAX_VERTICES, x.0, y.0)
    }

    // Asks for the ANDs that a gate stands for.
    #[tactic(auto, unfolding(load_model::specs::Build::ask_gate))]
    pub fn ask_gate(&mut self, op: Operation, p: Literal, q: Literal) -> Literal
        requires { self.old.counts.asked + ands_of op ≤ max_ands }
        ensures result { built_in self.new result ≡ ask_gate (build_in self.old) op p.0 q.0 }
        ensures same { SameSlices self.old self.new }
    {
        match op {
            Operation::And => self.ask_and(p, q),
            Operation::Or => self.ask_or(p, q),
            Operation::Xor => self.ask_xor(p, q),
        }
    }

    // The inversion of (not p) and (not q).
    fn ask_or(&mut self, p: Literal, q: Literal) -> Literal
        requires { self.old.counts.asked < max_ands }
        ensures result { built_in self.new result ≡ ask_gate (build_in self.old) Operation.Or p.0 q.0 }
        ensures same { SameSlices self.old self.new }
    {
        let not_p = p.negated();
        let not_q = q.negated();
        self.ask_and(not_p, not_q).negated()
    }

    // The inversion of the third AND: p with not q, not p with q, then the inversions of these two results.
    fn ask_xor(&mut self, p: Literal, q: Literal) -> Literal
        requires { self.old.counts.asked + 3 ≤ max_ands }
        ensures result { built_in self.new result ≡ ask_xor (build_in self.old) p.0 q.0 }
        ensures same { SameSlices self.old self.new }
    {
        let one = self.ask_and(p, q.negated());
        let two = self.ask_and(p.negated(), q);
        let not_one = one.negated();
        let not_two = two.negated();
        self.ask_and(not_one, not_two).negated()
    }
}

// The graph of the constant and the inputs, in the slices that a builder then takes.
// Tried as a constructor that gives back a builder: load_pair lends it fields of a struct that it has as `&mut`, and its proof then has nothing that
// says what these hold after the builder.
pub fn start(pairs: &mut [u32], look: &mut [u32], inputs: u32) -> Counts
    requires { (inputs ≤ max_inputs) × (2 * max_vertices ≤ length pairs.old) × (2 * max_vertices ≤ length look.old) }
    ensures result { build_of pairs.new result ≡ empty_build inputs }
    ensures graph { Graph pairs.new look.new result }
{
    words::write_own(pairs, 1 + inputs);
    aig_lookup::clear(look, MAX_VERTICES);
    Counts {
        vertices: 1 + inputs,
        asked: 0,
        folded: 0,
        found: 0,
    }
}

// Writes the pair of a vertex and enters it in the look-up. No method: between its stores the fact of a builder does not hold.
fn add_row(pairs: &mut [u32], look: &mut [u32], v: u32, p: u32, q: u32)
    requires { (v < max_vertices) × (2 * max_vertices ≤ length pairs.old) × (2 * max_vertices ≤ length look.old) }
    ensures pairs { pairs.new ≡ with_row pairs.old v p q }
    ensures look { look.new ≡ entered look.old max_vertices v p q }
{
    words::set_words(pairs, v, p, q);
    aig_lookup::enter(look, MAX_VERTICES, v, p, q);
}
