// One file into the graph: its gates asked for, its outputs and its constraint as literals of the graph.
#![tactic(auto)]

ghost use Rattle.std.specs.Prelude.{◌*◌, ◌+◌, ◌<◌, ◌≤◌, drop, length, take, [], ◌∷◌, map, ◌≡◌};
ghost use Rattle.aig.specs.Literal.{lit, vertex_of};
ghost use Rattle.load_model.specs.Build.{ask_gates, literal_for};
ghost use Rattle.load_model.specs.Load.{max_vertices};
ghost use Rattle.load_graph.specs.code.Building.{SameSlices, build_in};
ghost use Rattle.load_model.specs.code.Held.{netlist_held};
ghost use Rattle.load_model.specs.code.Paired.{build_from};
ghost use Rattle.load_file.specs.code.File.{GateLine, GatesAhead, GatesPassed, OutputLine, OutputsAhead, line_gates, trace, with_constraint};
ghost use Rattle.netlist_model.specs.code.Accepted.{HoldsNetlist};
ghost use Rattle.netlist_model.specs.Check.{outputs_in};
ghost use Rattle.netlist_model.specs.Records.{record_of};
ghost use Rattle.netlist_model.specs.code.Passing.{file_records};
ghost use Rattle.table.specs.Limits.{max_ands, max_outputs};
ghost use Rattle.text.specs.Decimal.{written};
ghost use Rattle.text.specs.Split.{up_to};

use aig::literal::Literal;
use load_graph::Builder;
use load_model::Accepted;
use netlist_model::Record;
use netlist_records::lines;

// Loads a file into the graph, the literals of its first vertices being there, and writes its output literals and then that of its constraint
// from a place of `outputs` on.
pub fn load_file(
    accepted: Accepted<'_>,
    graph: &mut Builder<'_>,
    literals: &mut [u32],
    outputs: &mut [u32],
    from: usize,
)
    requires file { HoldsNetlist accepted.file.now accepted.summary (netlist_held accepted) }
    requires room { (graph.old.counts.asked + accepted.summary.ands ≤ max_ands) × (2 * max_vertices ≤ length literals.old) × (from + max_outputs + 1 ≤ length outputs.old) }
    ensures graph { build_in graph.new ≡ (build_from (take (1 + accepted.entry.summary.inputs) literals.old) (build_in graph.old) (netlist_held accepted.entry)).build }
    ensures outputs { outputs.new ≡ written outputs.old from (with_constraint (build_from (take (1 + accepted.entry.summary.inputs) literals.old) (build_in graph.old) (netlist_held accepted.entry))) }
    ensures same { SameSlices graph.old graph.new }
{
    let Accepted { file, summary } = accepted;
    let first = 1 + summary.inputs as usize;
    let at = ask_gates(
        file,
        summary.start,
        summary.gates as usize,
        graph,
        literals,
        first,
    );
    write_outputs(file, at, summary.outputs as usize, literals, outputs, from);
    let last = from + summary.outputs as usize;
    let constraint = literal_for(literals, summary.reference);
    outputs[last] = constraint.0;
}

// Asks for the gates of `count` lines, the first of which starts at `start` and is that of a vertex, and gives back where they end: the place is carried
// from line to line, since the caller goes on there. A file and a place in it are two parameters, as in `netlist_records::lines`.
fn ask_gates(
    file: &[u8],
    start: usize,
    count: usize,
    graph: &mut Builder<'_>,
    literals: &mut [u32],
    first: usize,
) -> usize
    requires lines { GatesAhead file.now start count first graph.old.counts.asked }
    requires room { first + count ≤ length literals.old }
    ensures passed { GatesPassed file.now start (trace literals.old first graph.old) (trace literals.new (first + count) graph.new) result }
    ensures same { SameSlices graph.old graph.new }
{
    let mut at = start;
    for vertex in first..first + count {
        ask_line(file, at, graph, literals, vertex);
        at = lines::line_end(file, at);
    }
    at
}

// Writes the literals of `count` output lines, the first of which starts at `start`, from a place of `outputs` on.
fn write_outputs(
    file: &[u8],
    start: usize,
    count: usize,
    literals: &[u32],
    outputs: &mut [u32],
    from: usize,
)
    requires lines { OutputsAhead file.now start count (length literals.now) }
    requires room { from + count ≤ length outputs.old }
    ensures { outputs.new ≡ written outputs.old from (map (literal_for literals.now) (outputs_in (file_records (drop start file.now)))) }
{
    for (k, at) in (from..from + count).zip(lines::Starts { file, at: start }) {
        outputs[k] = output_literal(file, at, literals).0;
    }
}

// The graph's literal for a file's reference.
fn literal_for(literals: &[u32], r: u32) -> Literal
    requires { vertex_of r < length literals.now }
    ensures { result ≡ lit (literal_for literals.now r) }
{
    let reference = Literal(r);
    let vertex = reference.vertex() as usize;
    Literal(literals[vertex]).onto(reference)
}

// Asks for the gate of the line that starts at `at`, which is the file's next vertex.
fn ask_line(file: &[u8], at: usize, graph: &mut Builder<'_>, literals: &mut [u32], vertex: usize)
    requires line { GateLine file.now at vertex graph.old.counts.asked }
    requires room { vertex < length literals.old }
    ensures asked { trace literals.new (vertex + 1) graph.new ≡ ask_gates (trace literals.old vertex graph.old) (line_gates file.now at) }
    ensures same { SameSlices graph.old graph.new }
{
    let found = lines::read_line(file, at);
    let Some(Record::Gate { op, p, q }) = found else {
        unreachable!()
    };
    let p = literal_for(literals, p);
    let q = literal_for(literals, q);
    literals[vertex] = graph.ask_gate(op, p, q).0;
}

// The literal for the reference of the output line that starts at `at`.
fn output_literal(file: &[u8], at: usize, literals: &[u32]) -> Literal
    requires { OutputLine file.now at (length literals.now) }
    ensures { map (literal_for literals.now) (outputs_in (record_of (up_to 10 (drop at file.now)) ∷ [])) ≡ result.0 ∷ [] }
{
    let found = lines::read_line(file, at);
    let Some(Record::Output(r)) = found else {
        unreachable!()
    };
    literal_for(literals, r)
}
