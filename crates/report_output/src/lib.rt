// A comparison of an output, and its line. The edition is a number, as in `report`.
#![tactic(auto)]

ghost use Rattle.std.specs.Prelude.{length, take, ◌≡◌, ◌≤◌};
ghost use Rattle.compare_model.specs.Lent.{SameSlices};
ghost use Rattle.compare_model.specs.Said.{said_of};
ghost use Rattle.comparer.specs.Lent.{holding};
ghost use Rattle.reply_line.specs.Line.{said_or_number};
ghost use Rattle.report_fields.specs.code.Line.{Added, HasRoom};
ghost use Rattle.report_model.specs.Report.{comparison_line, reply_room};
ghost use Rattle.report_output.specs.code.Slices.{LeftToNext, Ready, asked};

use compare_model::{Lent, Limits};
use refusal::Refusal;
use report_fields::Line;
use report_model::{ROW_LIMIT, SIZE_LIMIT, STEP_LIMIT};
use sweep_model::Reply;
use table::Table;

// Compares an output, and adds its line to the report.
pub fn report_output(
    report: &mut Line<'_>,
    edition: u32,
    output: u32,
    table: &mut [u32],
    lent: &mut Lent<'_>,
)
    requires ready { Ready table.old (length lent.old.setting.now) }
    requires reply_room_in_bounds { HasRoom report.old reply_room }
    ensures added { Added report.old reply_room (comparison_line edition (asked output (holding table.old lent.old))) report.new }
    ensures left_to_next { LeftToNext output (holding table.old lent.old) (holding table.new lent.new) }
    ensures same { SameSlices lent.old lent.new }
{
    let limits = Limits {
        size: SIZE_LIMIT,
        rows: ROW_LIMIT,
        steps: STEP_LIMIT,
    };
    let view = Table { words: &table[..] };
    let inputs = view.inputs() as usize;
    let reply = comparer::compare(table, output, limits, lent);
    report_parts::put_line(
        report,
        edition,
        output,
        numbered(reply),
        digits(lent, inputs),
    );
}

// An answer with the number of its refusal.
fn numbered(answer: Result<Reply, Refusal>) -> Result<Reply, u32>
    ensures { said_or_number result ≡ said_of answer }
{
    match answer {
        Ok(reply) => Ok(reply),
        Err(refusal) => Err(u32::from(refusal)),
    }
}

// The front of the setting: a byte for each input.
fn digits<'a>(lent: &'a Lent<'_>, inputs: usize) -> &'a [u8]
    requires { inputs ≤ length lent.now.setting.now }
    ensures { result.now ≡ take inputs lent.now.setting.now }
{
    &lent.setting[..inputs]
}
