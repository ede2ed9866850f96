// The line of a reply, as bytes.
#![tactic(auto)]

ghost use Rattle.reply_line.specs.code.Cause.{cause_vertex, cause_word};
ghost use Rattle.reply_line.specs.Line.{line_for, room_for, said_or_number};
ghost use Rattle.report_format.specs.Report.{Printed};
ghost use Rattle.std.specs.Prelude.{◌≡◌};

use report_format::Word;
use sweep_model::{Cause, Reply};

// Puts the line of a reply on an output at the front of `out` and gives back its length. The edition is that of the pair of files, and the
// setting that of a Different. The edition is a number, as in `report`, and so is a refusal: any number may be printed.
pub fn write_line(
    out: &mut [u8],
    edition: u32,
    output: u32,
    reply: Result<Reply, u32>,
    setting: &[u8],
) -> usize
    ensures { Printed (room_for (said_or_number reply) setting.now) (line_for edition output (said_or_number reply) setting.now) out.old out.new result }
{
    let (word, setting, vertex, counts) = match reply {
        Ok(Reply::Equal(counts)) => (Word::Equal, &b""[..], None, counts),
        Ok(Reply::Different(counts)) => (Word::Different, setting, None, counts),
        Ok(Reply::Undecided(cause, counts)) => (word_of(cause), &b""[..], vertex_of(cause), counts),
        Err(number) => return report::write_refused(out, number, 0, 0),
    };
    report::write_reply(
        out,
        edition,
        output,
        word,
        setting,
        vertex,
        counts.rows,
        counts.steps,
    )
}

// `Word` and `Cause` are of other crates, so that neither this nor `vertex_of` can be a `From` here.
fn word_of(cause: Cause) -> Word
    ensures { result ≡ cause_word cause }
{
    match cause {
        Cause::Size => Word::Size,
        Cause::Rows(_) => Word::Rows,
        Cause::Steps(_) => Word::Steps,
    }
}

fn vertex_of(cause: Cause) -> Option<u32>
    ensures { result ≡ cause_vertex cause }
{
    match cause {
        Cause::Size => None,
        Cause::Rows(v) | Cause::Steps(v) => Some(v),
    }
}
