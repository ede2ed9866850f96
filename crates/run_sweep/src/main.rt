// Small working graphs swept as the cards of `graphs.txt` say, under limits of every kind. A line for each sweep: the reply's line with the card's
// list for the output, the rows added, the marks, and the row of each made vertex. The file's layout stands in tools/graphs.py, which writes it.
#![tactic(auto)]

mod asked;
mod graph;
mod show;

ghost use Rattle.run_sweep.specs.code.Asked.{Asked};

use graph::VERTICES;
use run_card_file::{CARD_STOP, field, number};
use std::{fs, io};
use sweep_state::task::Task;

const WORDS: usize = 2 * VERTICES;

// Four words a row of the highest row limit.
const ROWS_ROOM: usize = 4 * asked::MAX_ROWS;

// What a sweep is lent, but for the marks.
#[derive(Drop)]
struct Slices {
    pairs: [u32; WORDS],
    look: [u32; WORDS],
    diagrams: [u32; WORDS],
    stages: [u32; WORDS],
    rows: [u32; ROWS_ROOM],
}

fn main(rt: HostRuntime) -> io::Result<()> {
    let bytes = fs::read(&rt, "graphs.txt")?;
    sweep_all(&rt, &bytes)
}

fn sweep_all(rt: &impl Print, file: &[u8]) -> io::Result<()> {
    let mut slices = Slices {
        pairs: [0; WORDS],
        look: [0; WORDS],
        diagrams: [0; WORDS],
        stages: [0; WORDS],
        rows: [0; ROWS_ROOM],
    };
    for card in file.split(|b| *b == CARD_STOP) {
        sweep_card(rt, card, &mut slices)?;
    }
    Ok(())
}

// Sweeps the card's graph, or the graph as the card before left it.
fn sweep_card(rt: &impl Print, card: &[u8], slices: &mut Slices) -> io::Result<()> {
    let list = number(field(card, 0));
    let task = asked::task_of(card);
    graph::read_words(field(card, 9), &mut slices.pairs);
    if asked::is_asked(task, &slices.pairs) {
        show_sweep(rt, list, task, slices)
    } else {
        rt.write_all(b"refused\n")
    }
}

fn show_sweep(rt: &impl Print, list: u32, task: Task, slices: &mut Slices) -> io::Result<()>
    requires { Asked task slices.old.pairs }
{
    let mut marks = [0; VERTICES];
    let ended = sweep::sweep(
        &mut slices.pairs,
        &mut slices.look,
        &mut slices.diagrams,
        &mut slices.stages,
        &mut slices.rows,
        &mut marks,
        task,
    );
    show::show_reply(rt, list, ended, &slices.rows, task)?;
    show::show_marks(rt, &marks, task.count as usize)?;
    show::show_rows(rt, &slices.pairs, task.first, task.count)
}
