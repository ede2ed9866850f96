// Loading: two drawing files into one table.
#![tactic(auto)]

ghost use Rattle.load_model.specs.Load.{answer_of, load_result, table_loaded};
ghost use Rattle.load_model.specs.Lent.{Kept, SameSlices, lists_in, room_beside};
ghost use Rattle.std.specs.Prelude.{◌≡◌};

pub use load_model::{
    Lengths, Loaded, MAX_TABLE, MAX_VERTICES, Refused, Tally, WORKING_ROOM, Working,
};
pub use netlist_model::Edition;
pub use refusal::Refusal;

// Loads two files into the table. The working slices may hold anything; a refusal leaves every lent slice unchanged.
pub fn load(
    left: &[u8],
    right: &[u8],
    table: &mut [u32],
    working: &mut Working<'_>,
) -> Result<Loaded, Refused>
    ensures result { answer_of result ≡ load_result left.now right.now (room_beside table.old (lists_in working.old)) }
    ensures table { table.new ≡ table_loaded (answer_of result) left.now right.now table.old }
    ensures kept { Kept (answer_of result) (lists_in working.old) (lists_in working.new) }
    ensures same { SameSlices working.old working.new }
{
    let lengths = working.lengths(table);
    let (left, right) = load_decision::decide(left, right, lengths)?;
    let tally = load_pair::load_pair(left, right, table, working);
    let edition = left.summary.edition;
    Ok(Loaded { edition, tally })
}
