// Parts of the report: whether its slices are too short, and a line added to it.
#![tactic(auto)]

ghost use Rattle.std.specs.Prelude.{◌+◌, length, ◌≡◌};
ghost use Rattle.compare_model.specs.Lent.{room_of};
ghost use Rattle.reply_line.specs.Line.{line_for, said_or_number};
ghost use Rattle.report_fields.specs.code.Line.{Added, HasRoom};
ghost use Rattle.report_format.specs.Report.{LINE_ROOM};
ghost use Rattle.report_model.specs.Report.{short_room?};

use compare_model::Lengths;
use report_fields::Line;
use report_model::{COMPARE_VERTICES, REPORT_ROOM, ROW_LIMIT};
use sweep_model::Reply;

// Whether slices of these lengths are too short for some pair of files: that of the report, and those lent beside the table.
pub fn is_short(out: usize, lengths: Lengths) -> bool
    ensures { result ≡ short_room? out (room_of lengths) lengths.marks lengths.setting }
{
    out < REPORT_ROOM
        || compare_refusal::is_short(COMPARE_VERTICES, ROW_LIMIT, lengths)
        || lengths.setting < table::MAX_INPUTS as usize
}

// Adds the line of a reply to the report. The edition is a number, as in `report`, and so is a refusal.
pub fn put_line(
    report: &mut Line<'_>,
    edition: u32,
    output: u32,
    reply: Result<Reply, u32>,
    setting: &[u8],
)
    requires { HasRoom report.old (LINE_ROOM + length setting.now) }
    ensures { Added report.old (LINE_ROOM + length setting.now) (line_for edition output (said_or_number reply) setting.now) report.new }
{
    let end = report.at + report_format::LINE_ROOM + setting.len();
    report.at += reply_line::write_line(
        &mut report.out[report.at..end],
        edition,
        output,
        reply,
        setting,
    );
}
