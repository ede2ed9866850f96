// The evaluator as the calls of `calls.txt` say: on the and/or table of the rules on all settings, on each refusal alone and before the next,
// on tables with no inputs, the most inputs and the most vertices, and with constraints, of which the value takes no notice. A line for each
// call: what was asked, and what came.
// The fields of a call: its name; the table's words, none for the chain of the most vertices; side; output; setting; the working slice's bytes.
#![tactic(auto)]

ghost use Rattle.std.specs.Prelude.{◌≤◌};

use run_card_file::{CARD_STOP, field, number, number_at, number_count};
use std::{fs, io};

// The vertices of the largest table: the constant, 64 inputs, 6,144 made.
const MOST_VERTICES: usize = 6209;

// The words of the largest table with one output a side: 3, two for each made vertex, 2, and the constraint's.
const MOST_WORDS: usize = 12294;

// One call, with a working slice of `room` bytes.
fn show(
    rt: &impl Print,
    asked: &[u8],
    table: &[u32],
    side: u32,
    output: u32,
    setting: &[u8],
    room: usize,
) -> io::Result<()>
    requires { room ≤ 6209 }
{
    let mut values = [0; MOST_VERTICES];
    rt.write_all(asked)?;
    match evaluate::evaluate(table, side, output, setting, &mut values[..room]) {
        Ok(value) => println!(rt; ": value {value}"),
        Err(refusal) => println!(rt; ": refused {}", u32::from(refusal)),
    }
}

// The row of each made vertex: the inversion of the vertex before it, and input 1. The outputs are the last vertex and its inversion. So from
// input 64 upwards each vertex inverts the one before it while input 1 is 1, and every made vertex is 0 while input 1 is 0.
fn fill_chain(table: &mut [u32; MOST_WORDS]) {
    table[0] = 64;
    table[1] = 6144;
    table[2] = 1;
    for (i, row) in table[3..12291].chunks_exact_mut(2).enumerate() {
        row.copy_from_slice(&[129 + 2 * i as u32, 2]);
    }
    table[12291] = 12416;
    table[12292] = 12417;
    table[12293] = 1;
}

// The table of a field of numbers; of an empty one it is the chain. Gives back how many words it has.
fn write_table(numbers: &[u8], table: &mut [u32; MOST_WORDS]) -> usize
    ensures { result ≤ 12294 }
{
    if numbers.is_empty() {
        fill_chain(table);
        return MOST_WORDS;
    }
    let count = number_count(numbers).min(MOST_WORDS);
    for (i, word) in table.iter_mut().take(count).enumerate() {
        *word = number_at(numbers, i);
    }
    count
}

// The call of a card. The table is an array, whose length the check knows.
fn show_card(rt: &impl Print, card: &[u8]) -> io::Result<()> {
    let mut table = [0u32; MOST_WORDS];
    let end = write_table(field(card, 1), &mut table);
    show(
        rt,
        field(card, 0),
        &table[..end],
        number(field(card, 2)),
        number(field(card, 3)),
        field(card, 4),
        (number(field(card, 5)) as usize).min(MOST_VERTICES),
    )
}

fn main(rt: HostRuntime) -> io::Result<()> {
    let cards = fs::read(&rt, "calls.txt")?;
    for card in cards.split(|b| *b == CARD_STOP) {
        show_card(&rt, card)?;
    }
    Ok(())
}
