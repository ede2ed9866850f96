// The lines of a loaded table. The edition is a number, as in `report`.
// `Ready` stays a clause: `compare` is lent the table and the slices apart.
#![tactic(auto)]

ghost use Rattle.std.specs.Prelude.{◌*◌, ◌≤◌, length};
ghost use Rattle.compare_model.specs.Lent.{SameSlices};
ghost use Rattle.comparer.specs.Lent.{holding};
ghost use Rattle.report_fields.specs.code.Line.{Added, HasRoom};
ghost use Rattle.report_format.specs.Report.{StoredWithin};
ghost use Rattle.report_model.specs.Report.{reply_room, report_room};
ghost use Rattle.report_output.specs.code.Slices.{LeftAfter, Ready, first_lines, table_lines};
ghost use Rattle.table.specs.Table.{outputs_of};

use compare_model::Lent;
use report_fields::Line;
use table::Table;

// Puts the head line and the lines of a loaded table at the front of `out`, and gives back their length.
pub fn report_table(out: &mut [u8], edition: u32, table: &mut [u32], lent: &mut Lent<'_>) -> usize
    requires ready { Ready table.old (length lent.old.setting.now) }
    requires report_room_in_bounds { report_room ≤ length out.old }
    ensures stored_within { StoredWithin out.old 0 report_room (table_lines edition (holding table.old lent.old)) out.new result }
    ensures left_after { LeftAfter (outputs_of table.old) (holding table.old lent.old) (holding table.new lent.new) }
    ensures same { SameSlices lent.old lent.new }
{
    let at = report::write_head(out);
    let mut lines = Line { out, at };
    report_outputs(&mut lines, edition, table, lent);
    lines.at
}

// Adds the lines of the outputs in rising number, each compared on the slices as the one before left them.
fn report_outputs(report: &mut Line<'_>, edition: u32, table: &mut [u32], lent: &mut Lent<'_>)
    requires ready { Ready table.old (length lent.old.setting.now) }
    requires reply_room_in_bounds { HasRoom report.old (outputs_of table.old * reply_room) }
    ensures added { Added report.old (outputs_of table.old * reply_room) (first_lines edition (outputs_of table.old) (holding table.old lent.old)) report.new }
    ensures left_after { LeftAfter (outputs_of table.old) (holding table.old lent.old) (holding table.new lent.new) }
    ensures same { SameSlices lent.old lent.new }
{
    let view = Table { words: &table[..] };
    let outputs = view.outputs();
    for output in 0..outputs {
        report_output::report_output(report, edition, output, table, lent);
    }
}
