// Whether two files are loaded: every refusal, decided over the files and the lengths of the lent slices.
#![tactic(auto)]

ghost use Rattle.load_model.specs.Lent.{room_with};
ghost use Rattle.load_model.specs.Load.{short_slice?};
ghost use Rattle.load_decision.specs.code.Decision.{Checks, FoundIn, checked_file, decided, decision, pair_decision};
ghost use Rattle.std.specs.Prelude.{IfOk, ◌≡◌};

use load_model::{Accepted, Lengths, Refused};
use netlist::check::check_file;
use netlist::{Role, Summary};
use refusal::Refusal;

// A refusal, or the two files as accepted, which are then loaded.
#[tactic(auto, unfolding(crate::specs::code::Decision::decision, crate::specs::code::Decision::read_decision, crate::specs::code::Decision::second_decision, table::specs::Refusals::first_refusal))]
pub fn decide<'a>(
    left: &'a [u8],
    right: &'a [u8],
    lengths: Lengths,
) -> Result<(Accepted<'a>, Accepted<'a>), Refused>
    ensures decision { decided result ≡ decision left.now right.now (room_with lengths) }
    ensures files { IfOk result (λ p. (p.0.file.now ≡ left.now) × (p.1.file.now ≡ right.now)) }
{
    if netlist::MAX_BYTES < left.len() {
        return Err(refused(Refusal::FileTooLong, 1, 0));
    }
    if netlist::MAX_BYTES < right.len() {
        return Err(refused(Refusal::FileTooLong, 2, 0));
    }
    let one = check_in(left, Role::First, 1)?;
    let two = check_in(right, Role::Second(u32::from(one.edition)), 2)?;
    let left = Accepted {
        file: left,
        summary: one,
    };
    let right = Accepted {
        file: right,
        summary: two,
    };
    decide_pair(left, right, lengths)
}

fn refused(refusal: Refusal, file: u32, line: u32) -> Refused
    ensures { result ≡ record { refusal = refusal; file = file; line = line } }
{
    Refused {
        refusal,
        file,
        line,
    }
}

// Checks the file of a number.
fn check_in(file: &[u8], role: Role, number: u32) -> Result<Summary, Refused>
    ensures { FoundIn number result (checked_file role file.now) }
{
    check_file(file, role).map_err(|rejected| refused(rejected.refusal, number, rejected.line))
}

// By the counts and the names of two accepted files and the lengths of the lent slices.
fn decide_pair<'a>(
    left: Accepted<'a>,
    right: Accepted<'a>,
    lengths: Lengths,
) -> Result<(Accepted<'a>, Accepted<'a>), Refused>
    requires { Checks left.file.now right.file.now left.summary right.summary }
    ensures decision { decided result ≡ pair_decision left.entry.file.now right.entry.file.now left.entry.summary right.entry.summary (room_with lengths) }
    ensures files { IfOk result (λ p. (p.0.file.now ≡ left.entry.file.now) × (p.1.file.now ≡ right.entry.file.now)) }
{
    let one = left.summary;
    let two = right.summary;
    if one.inputs != two.inputs || one.outputs != two.outputs {
        return Err(refused(Refusal::CountsDiffer, 2, 1));
    }
    let left_names = netlist_names::front_names(left.file, two.names);
    let right_names = netlist_names::front_names(right.file, two.names);
    if let Some(lacked) = netlist_names::first_lacked(left_names, right_names) {
        return Err(refused(Refusal::LackedName, 2, 2 + lacked));
    }
    if (table::MAX_ANDS as usize) < one.ands as usize + two.ands as usize {
        return Err(refused(Refusal::TooManyAnds, 0, 0));
    }
    if lengths.table < load_model::MAX_TABLE {
        return Err(refused(Refusal::ShortTable, 0, 0));
    }
    if is_short(lengths) {
        return Err(refused(Refusal::ShortSlice, 0, 0));
    }
    Ok((left, right))
}

// Whether a working slice is too short.
fn is_short(lengths: Lengths) -> bool
    ensures { result ≡ short_slice? (room_with lengths) }
{
    lengths.pairs < load_model::WORKING_ROOM
        || lengths.look < load_model::WORKING_ROOM
        || lengths.literals < load_model::WORKING_ROOM
        || lengths.outputs < load_model::WORKING_ROOM
}
