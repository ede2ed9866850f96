// A whole file checked in one pass.
ghost use Rattle.std.specs.Prelude.{◌*◌, ◌+◌, ◌<◌, eqb, leb, drop, length, ◌&&◌, Some, [], ◌≡◌};
ghost use Rattle.netlist_model.specs.Check.{ands_of, answer_of, below?, check_file, constraints_due, due?, due_after, finish, suits?, twice?};
ghost use Rattle.netlist_model.specs.Limits.{max_gates, number_of_edition};
ghost use Rattle.netlist_model.specs.Names.{name_count};
ghost use Rattle.netlist_model.specs.Records.{line_with};
ghost use Rattle.netlist_model.specs.code.Passing.{Counted, Held, NamesThere, SeenThere, StartInside, StartsAt, first_line, front_names, known_edition, line_due, line_record, numbered, seen_by, step_of};
ghost use Rattle.table.specs.Limits.{max_inputs, max_outputs};

use netlist_model::{Body, Due, Edition, Operation, Record, Rejected, Role, Summary};
use netlist_records::{lines, records};
use refusal::Refusal;

// Whether a file keeps the layout, the limits, the bounds of its references and its names apart: tests 2 to 6 and 18, line by line.
pub fn check_file(file: &[u8], role: Role) -> Result<Summary, Rejected>
    ensures answer { answer_of result ≡ check_file role file.now }
    ensures start { StartsAt file.now result }
{
    let mut due = Due::First(role);
    for at in lines::line_starts(file) {
        due = step(file, at, due).map_err(|refusal| Rejected {
            refusal,
            line: line_due(due),
        })?;
    }
    ended(file, due)
}

// The number of the line that is due.
#[tactic(auto, unfolding(netlist_model::specs::code::Passing::line_due))]
fn line_due(due: Due) -> u32
    requires { Held due }
    ensures { result ≡ line_due due }
{
    match due {
        Due::First(_) => 1,
        Due::Later(body) => 2 + body.name + body.gate + body.output + body.constraint,
    }
}

// The record of the line that starts at `at`, if it has its end byte and the layout of one. The line alone would not tell whether its end byte is there, so
// the file and the place are passed on.
#[tactic(auto, using(netlist_model::proofs::LineLaws::record_last, netlist_model::proofs::LineLaws::record_whole))]
fn next_record(file: &[u8], at: usize) -> Option<Record>
    requires { at < length file.now }
    ensures { result ≡ line_record (drop at file.now) }
{
    let line = text::until(file, at, lines::LINE_END);
    if file.len() <= at + line.len() {
        return None;
    }
    records::read_record(line)
}

// What the line that starts at `at` comes to, by what is due.
fn step(file: &[u8], at: usize, due: Due) -> Result<Due, Refusal>
    requires held { Held due }
    requires seen_there { SeenThere file.now due }
    requires at_in_bounds { at < length file.now }
    ensures { numbered result ≡ step_of (seen_by file.now due) due (first_line (drop at file.now)) }
{
    let Some(found) = next_record(file, at) else {
        return Err(Refusal::MalformedLine);
    };
    match due {
        Due::First(role) => first_step(role, found),
        Due::Later(body) => later_step(file, at, body, found),
    }
}

// The tests of line 1 after that of its layout.
fn first_step(role: Role, found: Record) -> Result<Due, Refusal>
    ensures { numbered result ≡ step_of [] (Due.First role) (line_with (Some found) []) }
{
    let Record::Header {
        edition,
        inputs,
        gates,
        outputs,
    } = found
    else {
        return Err(Refusal::NotDue);
    };
    let Some(edition) = known_edition(role, edition) else {
        return Err(Refusal::Edition);
    };
    if !are_limited(inputs, gates, outputs) {
        return Err(Refusal::Count);
    }
    Ok(Due::Later(Body {
        edition,
        inputs,
        names: name_count(edition, inputs),
        gates,
        outputs,
        constraints: constraints_due(role),
        name: 0,
        gate: 0,
        output: 0,
        constraint: 0,
        ands: 0,
        reference: 1,
    }))
}

// The edition with a number, if a file of a pair may have it.
fn known_edition(role: Role, number: u32) -> Option<Edition>
    ensures { result ≡ known_edition role number }
{
    let edition = Edition::try_from(number).ok()?;
    suits(role, number).then_some(edition)
}

// Whether the number of an edition is that of the pair's first file.
fn suits(role: Role, number: u32) -> bool
    ensures { result ≡ suits? role number }
{
    match role {
        Role::First => true,
        Role::Second(first) => number == first,
    }
}

// Whether the counts of line 1 are within their limits.
fn are_limited(inputs: u32, gates: u32, outputs: u32) -> bool
    ensures { result ≡ (leb inputs max_inputs && leb gates max_gates && leb 1 outputs && leb outputs max_outputs) }
{
    inputs <= table::MAX_INPUTS
        && gates <= netlist_model::MAX_GATES
        && 1 <= outputs
        && outputs <= table::MAX_OUTPUTS
}

// How many lines of names an edition makes due.
#[tactic(auto, unfolding(netlist_model::specs::Names::name_count))]
fn name_count(edition: Edition, inputs: u32) -> u32
    ensures { result ≡ name_count (number_of_edition edition) inputs }
{
    match edition {
        Edition::ByPlace => 0,
        Edition::ByName => inputs,
    }
}

// How many C lines may come.
fn constraints_due(role: Role) -> u32
    ensures { result ≡ constraints_due role }
{
    match role {
        Role::First => 1,
        Role::Second(_) => 0,
    }
}

// The tests of a later line after that of its layout. `Counted` is no ghost field of `Body`, nor `Held` one of `Due`: the definitions make both of refused
// lines too. `NamesThere` is a clause: `Names` holds one count, and that of a body rises with each line.
fn later_step(file: &[u8], at: usize, body: Body, found: Record) -> Result<Due, Refusal>
    requires counted { Counted body }
    requires names_there { NamesThere file.now body.name }
    requires at_in_bounds { at < length file.now }
    requires found_value { Some found ≡ line_record (drop at file.now) }
    ensures { numbered result ≡ step_of (front_names body.name file.now) (Due.Later body) (first_line (drop at file.now)) }
{
    if !is_due(body, found) {
        return Err(Refusal::NotDue);
    }
    if !is_below(body, found) {
        return Err(Refusal::Reference);
    }
    if is_repeated(file, at, body.name, found) {
        return Err(Refusal::RepeatedName);
    }
    Ok(Due::Later(after(body, found)))
}

// Whether a line is of the kind due.
fn is_due(body: Body, found: Record) -> bool
    ensures { result ≡ due? body (Some found) }
{
    match found {
        Record::Header { .. } => false,
        Record::Name => body.name < body.names,
        Record::Gate { .. } => has_names(body) && body.gate < body.gates,
        Record::Output(_) => has_gates(body) && body.output < body.outputs,
        Record::Constraint(_) => has_outputs(body) && body.constraint < body.constraints,
    }
}

// Whether all names that are due were read.
fn has_names(body: Body) -> bool
    ensures { result ≡ eqb body.name body.names }
{
    body.name == body.names
}

// Whether all names and gates were.
fn has_gates(body: Body) -> bool
    ensures { result ≡ (eqb body.name body.names && eqb body.gate body.gates) }
{
    has_names(body) && body.gate == body.gates
}

// Whether all names, gates and outputs were.
fn has_outputs(body: Body) -> bool
    ensures { result ≡ (eqb body.name body.names && eqb body.gate body.gates && eqb body.output body.outputs) }
{
    has_gates(body) && body.output == body.outputs
}

// Whether the references of a line are below their bound.
fn is_below(body: Body, found: Record) -> bool
    requires { Counted body }
    ensures { result ≡ below? body (Some found) }
{
    match found {
        Record::Header { .. } => false,
        Record::Name => true,
        Record::Gate { op: _, p, q } => {
            let bound = 2 * (1 + body.inputs + body.gate);
            p < bound && q < bound
        }
        Record::Output(r) | Record::Constraint(r) => r < 2 * (1 + body.inputs + body.gates),
    }
}

// Whether the line is a name's and stands in an earlier line, of which there are `count`. The names in these are read again, since without a heap no list of
// them is kept.
fn is_repeated(file: &[u8], at: usize, count: u32, found: Record) -> bool
    requires names_there { NamesThere file.now count }
    requires at_in_bounds { at < length file.now }
    requires found_value { Some found ≡ line_record (drop at file.now) }
    ensures { result ≡ twice? (front_names count file.now) (first_line (drop at file.now)) }
{
    let Record::Name = found else {
        return false;
    };
    let name = netlist_names::name_at(file, at);
    netlist_names::find_name(netlist_names::front_names(file, count), name).is_some()
}

// What is due after a line that passed its tests.
#[tactic(auto, unfolding(netlist_model::specs::Check::due_after))]
fn after(body: Body, found: Record) -> Body
    requires { Counted body }
    ensures { Due.Later result ≡ due_after (Due.Later body) (Some found) }
{
    match found {
        Record::Header { .. } => body,
        Record::Name => Body {
            name: body.name + 1,
            ..body
        },
        Record::Gate { op, .. } => Body {
            gate: body.gate + 1,
            ands: body.ands + ands_of(op),
            ..body
        },
        Record::Output(_) => Body {
            output: body.output + 1,
            ..body
        },
        Record::Constraint(r) => Body {
            constraint: body.constraint + 1,
            reference: r,
            ..body
        },
    }
}

// How many ANDs a gate stands for.
fn ands_of(op: Operation) -> u32
    ensures { result ≡ ands_of op }
{
    match op {
        Operation::And | Operation::Or => 1,
        Operation::Xor => 3,
    }
}

// After the last line. `Summary` takes seven fields of `Body` one by one: they are no struct in both, since the definitions in specs/ and the callers
// name these fields of a `Summary`.
fn ended(file: &[u8], due: Due) -> Result<Summary, Rejected>
    requires held { Held due }
    requires start_inside { StartInside file.now due }
    ensures answer { answer_of result ≡ finish (line_due due) due }
    ensures start { StartsAt file.now result }
{
    let missing = Rejected {
        refusal: Refusal::NotDue,
        line: line_due(due),
    };
    let Due::Later(body) = due else {
        return Err(missing);
    };
    if !has_outputs(body) {
        return Err(missing);
    }
    Ok(Summary {
        edition: body.edition,
        inputs: body.inputs,
        names: body.names,
        gates: body.gates,
        outputs: body.outputs,
        ands: body.ands,
        reference: body.reference,
        start: netlist_names::place_after(file, 1 + body.names),
    })
}
