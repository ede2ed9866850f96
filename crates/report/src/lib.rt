// The lines that the program prints, as bytes. Each call can only run out of room, and says so by a length of 0, which no line has: most callers
// add the length to a place, and would make an `Option` 0 there.
#![tactic(auto)]

ghost use Rattle.std.specs.Prelude.{◌+◌, length};
ghost use Rattle.report_format.specs.Report.{LINE_ROOM, Printed, head_line, refused_line, reply_line};

use report_fields::Line;
use report_format::{LINE_ROOM, Word};

// Puts the head line at the front of `out` and gives back its length.
// Where `out` has fewer than `LINE_ROOM` bytes nothing is written, and the length is 0.
pub fn write_head(out: &mut [u8]) -> usize
    ensures { Printed LINE_ROOM head_line out.old out.new result }
{
    if out.len() < LINE_ROOM {
        return 0;
    }
    let mut fields = Line { out, at: 0 };
    fields.put(b"rules\toutput\treply\tsetting\tvertex\trows\tsteps\n");
    fields.at
}

// Puts the line of a reply at the front of `out` and gives back its length.
// The parameters are the fields of the line, one by one; an enum for the edition would ask more of callers.
// Where `out` has fewer than `LINE_ROOM` bytes and the setting's nothing is written, and the length is 0.
pub fn write_reply(
    out: &mut [u8],
    edition: u32,
    output: u32,
    word: Word,
    setting: &[u8],
    vertex: Option<u32>,
    rows: u32,
    steps: u32,
) -> usize
    ensures { Printed (LINE_ROOM + length setting.now) (reply_line edition output word setting.now vertex rows steps) out.old out.new result }
{
    if out.len() < LINE_ROOM + setting.len() {
        return 0;
    }
    let mut fields = Line { out, at: 0 };
    fields.put_pair(edition, output, b'\t');
    fields.put_word(word);
    fields.put_setting(setting);
    fields.put_vertex(vertex);
    fields.put_pair(rows, steps, b'\n');
    fields.at
}

// Puts the line of a refused load at the front of `out` and gives back its length.
// Numbers, as the line has them: a `Refusal` would ask more of callers.
// Where `out` has fewer than `LINE_ROOM` bytes nothing is written, and the length is 0.
pub fn write_refused(out: &mut [u8], number: u32, file: u32, line: u32) -> usize
    ensures { Printed LINE_ROOM (refused_line number file line) out.old out.new result }
{
    if out.len() < LINE_ROOM {
        return 0;
    }
    let mut fields = Line { out, at: 0 };
    fields.put(b"refused\t");
    fields.put_number(number, b'\t');
    fields.put_pair(file, line, b'\n');
    fields.at
}
