// compare: the output of a table on both sides.
#![tactic(auto)]

mod task;
mod work;

ghost use Rattle.compare_model.specs.Lent.{SameSlices};
ghost use Rattle.comparer.specs.Lent.{Compared, holding};

pub use compare_model::{Lent, Limits};
pub use refusal::Refusal;
pub use sweep_model::{Cause, Counts, Reply};

// Compares output number `output` of the two sides of a table on the settings that its constraint allows. A refusal is the first that applies, and
// leaves every slice unchanged. The reply is one of:
// - Equal: the two sides of the output agree on every allowed setting;
// - Different: they do not, and the front of the setting is the first allowed setting on which they differ, a byte 48 or 49 for each input;
// - Undecided, with the cause: a limit was passed.
// The reply carries the rows used, the steps taken and the rows that a product which broke off had added (0 where none
// did), the table holds the rows and the outputs that the sweep left, and its constraint's word stays. The front of the marks has a byte for each
// vertex of the table and, unless that word is 1, for each of the two next vertices. The five slices before the marks are worked in:
// only their lengths matter.
pub fn compare(
    table: &mut [u32],
    output: u32,
    limits: Limits,
    lent: &mut Lent<'_>,
) -> Result<Reply, Refusal>
    ensures compared { Compared output limits (holding table.old lent.old) (holding table.new lent.new) result }
    ensures same { SameSlices lent.old lent.new }
{
    let words = compare_refusal::check(&table[..], output, limits, lent.lengths())?;
    let ended = work::run(&words, output, limits, lent);
    Ok(work::finish(table, lent, ended))
}
