// The bench cards of `cards.txt` run: a line for each, `ok` or what is not as the card says, and how many passed.
// The file's layout stands in tools/cards.py, which writes it.
#![tactic(auto)]

use comparer::{Lent, Limits, Refusal, Reply};
use load::Working;
use netlist_model::Edition;
use run_card_file::{CARD_STOP, field, number, number_at, number_count};
use std::{fs, io};

// The most vertices of a comparison: those of a table and the two next ones.
const VERTICES: usize = load::MAX_VERTICES + compare_model::NEXT_VERTICES;

const WORKING_ROOM: usize = 2 * VERTICES;

// Four words a row of the highest row limit.
const ROWS_ROOM: usize = 4 * 32768;

const SETTING_ROOM: usize = table::MAX_INPUTS as usize;

// What the table, the marks and the setting are filled with, to see what is left unchanged.
const WORD_BEFORE: u32 = 7;

const MARK_BEFORE: u8 = 9;

const SETTING_BEFORE: u8 = b'-';

fn main(rt: HostRuntime) -> io::Result<()> {
    let bytes = fs::read(&rt, "cards.txt")?;
    run_cards(&rt, &bytes)
}

// The slices that the calls work in are arrays: their lengths never change.
fn run_cards(rt: &impl Print, file: &[u8]) -> io::Result<()> {
    let mut table = [WORD_BEFORE; load::MAX_TABLE];
    let mut lent = Lent {
        pairs: &mut [0; WORKING_ROOM],
        look: &mut [0; WORKING_ROOM],
        diagrams: &mut [0; WORKING_ROOM],
        stages: &mut [0; WORKING_ROOM],
        rows: &mut [0; ROWS_ROOM],
        marks: &mut [MARK_BEFORE; VERTICES],
        setting: &mut [SETTING_BEFORE; SETTING_ROOM],
    };
    let mut passed = 0usize;
    for card in file.split(|b| *b == CARD_STOP) {
        if runs(rt, card, &mut table, &mut lent)? {
            passed = passed.saturating_add(1);
        }
    }
    println!(rt; "{passed} passed")
}

// Runs a card and prints its line. Gives back whether all is as the card says.
fn runs(rt: &impl Print, card: &[u8], table: &mut [u32], lent: &mut Lent<'_>) -> io::Result<bool> {
    rt.write_all(field(card, 0))?;
    rt.write_all(b":")?;
    let is_loaded = loads(rt, card, table, lent)?;
    let is_compared = compares(rt, card, table, lent)?;
    let is_left = say(rt, starts_with_words(table, field(card, 11)), b" table")?;
    let is_passed = is_loaded && is_compared && is_left;
    rt.write_all(if is_passed { b" ok\n" } else { b"\n" })?;
    Ok(is_passed)
}

// Prints what is not as the card says.
fn say(rt: &impl Print, is_right: bool, name: &[u8]) -> io::Result<bool> {
    if !is_right {
        rt.write_all(name)?;
    }
    Ok(is_right)
}

// Loads the card's files, if it has any.
fn loads(rt: &impl Print, card: &[u8], table: &mut [u32], lent: &mut Lent<'_>) -> io::Result<bool> {
    if field(card, 1).is_empty() {
        return Ok(true);
    }
    table.fill(WORD_BEFORE);
    let mut working = Working {
        pairs: &mut *lent.pairs,
        look: &mut *lent.look,
        literals: &mut *lent.diagrams,
        outputs: &mut *lent.stages,
    };
    let loaded = load::load(field(card, 1), field(card, 2), table, &mut working);
    say(rt, loaded.is_ok(), b" load")
}

// Compares as the card asks, and judges the reply with its rows added, the setting and the marks.
fn compares(
    rt: &impl Print,
    card: &[u8],
    table: &mut [u32],
    lent: &mut Lent<'_>,
) -> io::Result<bool> {
    lent.marks.fill(MARK_BEFORE);
    lent.setting.fill(SETTING_BEFORE);
    let output = number(field(card, 3));
    let reply = comparer::compare(table, output, limits_of(card), lent);
    let is_reply = say(rt, is_line(field(card, 7), output, reply), b" reply")?;
    let is_added = say(rt, has_added(reply, number(field(card, 8))), b" added")?;
    let is_setting = say(rt, lent.setting.starts_with(field(card, 9)), b" setting")?;
    let is_marks = say(
        rt,
        starts_with_digits(lent.marks, field(card, 10)),
        b" marks",
    )?;
    Ok(is_reply && is_added && is_setting && is_marks)
}

fn limits_of(card: &[u8]) -> Limits {
    Limits {
        size: number(field(card, 4)),
        rows: number(field(card, 5)),
        steps: u64::from(number(field(card, 6))),
    }
}

// Whether `line` is the line of a reply, without its setting.
fn is_line(line: &[u8], output: u32, reply: Result<Reply, Refusal>) -> bool {
    let mut came = [0; report_format::LINE_ROOM];
    let edition = u32::from(Edition::ByPlace);
    let end = reply_line::write_line(&mut came, edition, output, reply.map_err(u32::from), b"");
    line == &came[..end]
}

// Whether the reply carries these rows added; a refusal carries none.
fn has_added(reply: Result<Reply, Refusal>, added: u32) -> bool {
    match reply {
        Ok(Reply::Equal(counts) | Reply::Different(counts) | Reply::Undecided(_, counts)) => {
            counts.added == added
        }
        Err(_) => false,
    }
}

// Whether `marks` starts with the numbers of these digits.
fn starts_with_digits(marks: &[u8], digits: &[u8]) -> bool {
    let is_digit = |(digit, mark): (&u8, &u8)| u32::from(*digit)
        == u32::from(*mark) + u32::from(b'0');
    digits.len() <= marks.len() && digits.iter().zip(marks).all(is_digit)
}

// Whether `words` starts with the numbers of `front`.
fn starts_with_words(words: &[u32], front: &[u8]) -> bool {
    (0..number_count(front)).all(|i| words.get(i) == Some(&number_at(front, i)))
}
