// load on the pairs of `pairs.txt`: the bench's pairs, each refusal alone and with the next in the order of tests, files that are too long, the
// largest pair, whole and with slices that are short, and first files with a constraint. Two lines for each: what the pair is, and what came;
// then the table's first words.
// The fields of a pair, from the second on: its name; both drawing files; how many words of the table are shown; for each file, where it is
// made here, the numbers that it is made of; and how many words short of the largest pair the table and the working slices are.
#![tactic(auto)]

mod file;

ghost use Rattle.std.specs.Prelude.{◌≤◌};

use load::{Lengths, Loaded, Refused, Working};
use run_card_file::{CARD_STOP, field, number, number_at};
use std::alloc::Global;
use std::{fs, io};

// The words of the longest table, and those of each working slice.
const TABLE: usize = 12420;

const SLICE: usize = 12418;

fn main(rt: HostRuntime) -> io::Result<()> {
    let bytes = fs::read(&rt, "pairs.txt")?;
    show_cards(&rt, rt.alloc(), &bytes)
}

fn show_cards(rt: &impl Print, alloc: Global, file: &[u8]) -> io::Result<()> {
    for card in file.split(|b| *b == CARD_STOP) {
        show_card(rt, alloc, card)?;
    }
    Ok(())
}

// Makes the files of a card.
fn show_card(rt: &impl Print, alloc: Global, card: &[u8]) -> io::Result<()> {
    let left = file::make(alloc, field(card, 2), field(card, 5))?;
    let right = file::make(alloc, field(card, 3), field(card, 6))?;
    show_pair(rt, card, &left, &right)
}

// Loads a pair into slices that may be short, and shows what came. The slices are fronts of arrays, whose lengths the check knows.
fn show_pair(rt: &impl Print, card: &[u8], left: &[u8], right: &[u8]) -> io::Result<()> {
    let lengths = lengths_of(field(card, 7));
    let mut table = [7u32; TABLE];
    let mut pairs = [7u32; SLICE];
    let mut look = [7u32; SLICE];
    let mut literals = [7u32; SLICE];
    let mut outputs = [7u32; SLICE];
    let mut working = Working {
        pairs: &mut pairs[..lengths.pairs],
        look: &mut look[..lengths.look],
        literals: &mut literals[..lengths.literals],
        outputs: &mut outputs[..lengths.outputs],
    };
    let loaded = load::load(left, right, &mut table[..lengths.table], &mut working);
    show(rt, field(card, 1), loaded)?;
    print_words(rt, &table, number(field(card, 4)) as usize)
}

// The lengths of the slices lent: a number is how many words too short one is.
fn lengths_of(short: &[u8]) -> Lengths
    ensures { (result.table ≤ 12420) × (result.pairs ≤ 12418) × (result.look ≤ 12418) × (result.literals ≤ 12418) × (result.outputs ≤ 12418) }
{
    Lengths {
        table: TABLE.saturating_sub(number_at(short, 0) as usize),
        pairs: SLICE.saturating_sub(number_at(short, 1) as usize),
        look: SLICE.saturating_sub(number_at(short, 2) as usize),
        literals: SLICE.saturating_sub(number_at(short, 3) as usize),
        outputs: SLICE.saturating_sub(number_at(short, 4) as usize),
    }
}

fn show(rt: &impl Print, name: &[u8], loaded: Result<Loaded, Refused>) -> io::Result<()> {
    rt.write_all(name)?;
    match loaded {
        Ok(Loaded { edition, tally }) => {
            print!(rt; ": edition {} asked {}", u32::from(edition), tally.asked)?;
            println!(rt;
                " folded {} found {} made {}",
                tally.folded, tally.found, tally.made
            )
        }
        Err(
            Refused {
                refusal,
                file,
                line,
            },
        ) => println!(rt; ": refused {} file {file} line {line}", u32::from(refusal)),
    }
}

// The first words, or all.
fn print_words(rt: &impl Print, words: &[u32; TABLE], count: usize) -> io::Result<()> {
    rt.write_all(b"  table")?;
    for word in words.iter().take(count) {
        print!(rt; " {}", *word)?;
    }
    rt.write_all(b"\n")
}
