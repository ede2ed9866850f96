// The program's call: two files, and the report on them as bytes. A length of 0 and no `Option`: the definition, `report_of`, has a count.
#![tactic(auto)]

ghost use Rattle.std.specs.Prelude.{◌≡◌};
ghost use Rattle.compare_model.specs.Lent.{SameSlices};
ghost use Rattle.comparer.specs.Lent.{holding};
ghost use Rattle.load_model.specs.Lent.{Kept, room_in, working};
ghost use Rattle.load_model.specs.Load.{answer_of, load_result, table_loaded};
ghost use Rattle.report_pair.specs.Lent.{Front, Reported};

use compare_model::Lent;
use load::{Loaded, Refused, Working};

// Puts the report on two files at the front of `out` and gives back its length: the line of a refused load, or the head line and a line
// for each output. Where `out`, one of the slices to work in, the marks or the setting is too short for some pair of files, no slice is
// changed, and the length is 0. The table is left as the last comparison left it. The slices from `pairs` to `rows` are worked in: only their
// lengths matter.
pub fn report_pair(
    left: &[u8],
    right: &[u8],
    out: &mut [u8],
    table: &mut [u32],
    lent: &mut Lent<'_>,
) -> usize
    ensures reported { Reported left.now right.now out.old out.new (holding table.old lent.old) (holding table.new lent.new) result }
    ensures front { Front result out.new }
    ensures same { SameSlices lent.old lent.new }
{
    if report_parts::is_short(out.len(), lent.lengths()) {
        return 0;
    }
    let mut working = Working {
        pairs: lent.pairs,
        look: lent.look,
        literals: lent.diagrams,
        outputs: lent.stages,
    };
    match load::load(left, right, table, &mut working) {
        Ok(loaded) => {
            let edition = u32::from(loaded.edition);
            report_lines::report_table(out, edition, table, lent)
        }
        Err(refused) => {
            let number = u32::from(refused.refusal);
            report::write_refused(out, number, refused.file, refused.line)
        }
    }
}
