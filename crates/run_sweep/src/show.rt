// The line of a sweep.
ghost use Rattle.std.specs.Prelude.{◌*◌, ◌+◌, ◌≤◌, length};
ghost use Rattle.compare_model.specs.Compare.{max_rows, max_steps};
ghost use Rattle.compare_reply.specs.code.Followed.{Followed};
ghost use Rattle.run_sweep.specs.code.Asked.{INPUTS};

use crate::asked::MAX_INPUTS;
use compare_reply::{reply_of, write_setting};
use netlist_model::Edition;
use std::io;
use sweep_model::Reply;
use sweep_state::end::Ended;
use sweep_state::task::Task;
use words::{first_word, second_word};

const LINE_ROOM: usize = report_format::LINE_ROOM + MAX_INPUTS;

// The reply's line without its end, a tab, and the rows added.
pub fn show_reply(
    rt: &impl Print,
    list: u32,
    ended: Ended,
    rows: &[u32],
    task: Task,
) -> io::Result<()>
    requires followed { Followed rows.now task.inputs ended.end }
    requires counted { (ended.used + ended.added ≤ max_rows) × (ended.steps ≤ max_steps) }
    requires narrow { task.inputs ≤ INPUTS }
{
    let mut setting = [0; MAX_INPUTS];
    write_setting(ended.end, rows, task.inputs, &mut setting);
    show_line(rt, list, reply_of(ended), &setting[..task.inputs])?;
    print!(rt; "\t{}", ended.added)
}

fn show_line(rt: &impl Print, list: u32, reply: Reply, setting: &[u8]) -> io::Result<()> {
    let mut line = [0u8; LINE_ROOM];
    let edition = u32::from(Edition::ByPlace);
    let end = reply_line::write_line(&mut line, edition, list, Ok(reply), setting);
    if 0 < end {
        rt.write_all(&line[..end - 1])?;
    }
    Ok(())
}

// A tab, and a digit for each vertex.
pub fn show_marks(rt: &impl Print, marks: &[u8], count: usize) -> io::Result<()>
    requires { count ≤ length marks.now }
{
    rt.write_all(b"\t")?;
    for mark in marks[..count].iter() {
        rt.print(*mark)?;
    }
    Ok(())
}

// A tab and the row, for each made vertex, and the end of the line.
pub fn show_rows(rt: &impl Print, pairs: &[u32], first: u32, count: u32) -> io::Result<()>
    requires { 2 * count ≤ length pairs.now }
{
    for v in first..count {
        print!(rt; "\t{},{}", first_word(pairs, v), second_word(pairs, v))?;
    }
    rt.write_all(b"\n")
}
