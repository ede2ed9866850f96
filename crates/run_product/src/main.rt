// Products of diagrams: the circuits of `circuits.txt`, each vertex held to its values on every setting.
// A line for each circuit: its name, the size of the last vertex made, rows and steps with their limits, the limit passed if any, and whether all values agree.
// The file's layout stands in tools/circuits.py, which writes it.
#![tactic(auto)]

mod circuit;
mod diagram;
mod values;

ghost use Rattle.std.specs.Prelude.{◌<◌, ◌^◌, ◌≤◌, length, ◌≡◌};
ghost use Rattle.bdd.specs.code.Store.{Store};

use bdd::store::RowStore;
use circuit::VERTICES;
use diagram::{ands, input_rows};
use product::{Short, Steps};
use run_card_file::{CARD_STOP, field, number};
use std::{fs, io};

// Room for 1,024 rows.
const ROOM: usize = 4096;

const MAX_ROWS: usize = 1024;

const MAX_STEPS: usize = 4294967295;

const MAX_INPUTS: usize = 10;

const MAX_SETTINGS: usize = 1024;

// The limit passed, if any, and whether all values agree.
fn verdict(rt: &impl Print, short: Option<Short>, wrong: usize) -> io::Result<()> {
    match short {
        Some(Short::Rows) => rt.write_all(b", short of rows")?,
        Some(Short::Steps) => rt.write_all(b", short of steps")?,
        None => {}
    }
    if wrong == 0 {
        rt.write_all(b", ok\n")
    } else {
        rt.write_all(b", WRONG\n")
    }
}

// The number in a field of a card, or the most.
fn number_in(card: &[u8], k: usize, most: usize) -> usize
    ensures { result ≤ most }
{
    (number(field(card, k)) as usize).min(most)
}

// Empty rows under their next limit: cleared only where that is another one.
fn store_under<'a>(rows: &'a mut [u32], limit: usize, next: usize) -> RowStore<'a>
    requires store { Store rows.old limit 0 }
    requires room { (next ≤ 1024) × (4096 ≡ length rows.old) }
    ensures { (result.rows.ghost_name ≡ rows.entry.ghost_name) × (result.limit ≡ next) × (result.used ≡ 0) }
{
    if next == limit {
        return RowStore {
            rows,
            limit,
            used: 0,
        };
    }
    bdd_unique::clear(rows, next)
}

// Runs the circuit of a card under its limit on rows. Under the limit of the card before it uses the rows again that were given back.
fn run_card(rt: &impl Print, card: &[u8], rows: &mut [u32], limit: &mut usize) -> io::Result<()>
    requires store { Store rows.old limit.old 0 }
    requires room { 4096 ≡ length rows.old }
    ensures { Store rows.new limit.new 0 }
{
    let next = number_in(card, 1, MAX_ROWS);
    let mut steps = Steps {
        taken: 0,
        most: number_in(card, 2, MAX_STEPS),
    };
    let inputs = number_in(card, 3, MAX_INPUTS);
    let settings = number_in(card, 4, MAX_SETTINGS);
    let circuit = circuit::read(inputs, field(card, 6));
    let mut store = store_under(rows, *limit, next);
    *limit = next;
    let mut references = [0; VERTICES];
    input_rows(&mut store, &mut references, inputs);
    let turn = ands(&mut store, &mut references, &circuit, &mut steps);
    let wrong = values::mismatches(&store, &references, &circuit, turn.next, settings);
    let size = bdd_size::size(&mut store, references[turn.next - 1]);
    let rows = store.used;
    bdd_unique::give_back(&mut store, 0);
    rt.write_all(field(card, 0))?;
    print!(rt; ": size {size}, rows {rows} of {next}")?;
    print!(rt; ", steps {} of {}", steps.taken, steps.most)?;
    verdict(rt, turn.short, wrong)
}

// Runs the cards one after the other. The rows are an array, whose length the check knows.
fn main(rt: HostRuntime) -> io::Result<()> {
    let bytes = fs::read(&rt, "circuits.txt")?;
    let mut rows = [0; ROOM];
    bdd_unique::clear(&mut rows, MAX_ROWS);
    let mut limit = MAX_ROWS;
    for card in bytes.split(|b| *b == CARD_STOP) {
        run_card(&rt, card, &mut rows, &mut limit)?;
    }
    Ok(())
}
