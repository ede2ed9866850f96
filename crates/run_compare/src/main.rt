// Calls of compare at and past each bound, as the cases of `cases.txt` say. A line for each: the case's name, and the reply's word, or the
// refusal's number and whether a lent slice changed.
// The fields of a case: its name; the words at the table's front; the output; the size limit; the row limit; two numbers whose sum is the
// step limit; the lengths lent of table, pairs, look, diagrams, stages, rows, marks and setting.
#![tactic(auto)]

ghost use Rattle.std.specs.Prelude.{◌≤◌};

use comparer::{Cause, Lent, Limits, Refusal, Reply};
use run_card_file::{CARD_STOP, field, number, number_at, number_count};
use std::{fs, io};

// The words of the largest table are 12,420, and the vertices of its comparison 6,211: one more of each.
const TABLE_ROOM: usize = 12421;

const MARKS_ROOM: usize = 6212;

const WORKING_ROOM: usize = 2 * MARKS_ROOM;

// Four words a row of one more than the highest row limit.
const ROWS_ROOM: usize = 4 * 32769;

const SETTING_ROOM: usize = 65;

// What the slices hold before a call. Literal 1 is below twice any vertex.
const LITERAL_BEFORE: u32 = 1;

const WORD_BEFORE: u32 = 7;

const MARK_BEFORE: u8 = 9;

const SETTING_BEFORE: u8 = b'-';

fn main(rt: HostRuntime) -> io::Result<()> {
    let bytes = fs::read(&rt, "cases.txt")?;
    for case in bytes.split(|b| *b == CARD_STOP) {
        run_case(&rt, case)?;
    }
    Ok(())
}

// Makes the call that the case asks for, with the fronts of slices lent: arrays, whose lengths the check knows.
fn run_case(rt: &impl Print, case: &[u8]) -> io::Result<()> {
    let ends = field(case, 6);
    let mut table = [LITERAL_BEFORE; TABLE_ROOM];
    let mut pairs = [WORD_BEFORE; WORKING_ROOM];
    let mut look = [WORD_BEFORE; WORKING_ROOM];
    let mut diagrams = [WORD_BEFORE; WORKING_ROOM];
    let mut stages = [WORD_BEFORE; WORKING_ROOM];
    let mut rows = [WORD_BEFORE; ROWS_ROOM];
    let mut marks = [MARK_BEFORE; MARKS_ROOM];
    let mut setting = [SETTING_BEFORE; SETTING_ROOM];
    fill_front(field(case, 1), &mut table);
    let mut lent = Lent {
        pairs: &mut pairs[..end_at(ends, 1, WORKING_ROOM)],
        look: &mut look[..end_at(ends, 2, WORKING_ROOM)],
        diagrams: &mut diagrams[..end_at(ends, 3, WORKING_ROOM)],
        stages: &mut stages[..end_at(ends, 4, WORKING_ROOM)],
        rows: &mut rows[..end_at(ends, 5, ROWS_ROOM)],
        marks: &mut marks[..end_at(ends, 6, MARKS_ROOM)],
        setting: &mut setting[..end_at(ends, 7, SETTING_ROOM)],
    };
    let answer = comparer::compare(
        &mut table[..end_at(ends, 0, TABLE_ROOM)],
        number(field(case, 2)),
        limits_of(case),
        &mut lent,
    );
    let kept = [
        is_front(field(case, 1), &table),
        are_all(&pairs, WORD_BEFORE),
        are_all(&look, WORD_BEFORE),
        are_all(&diagrams, WORD_BEFORE),
        are_all(&stages, WORD_BEFORE),
        are_all(&rows, WORD_BEFORE),
        are_all(&marks, MARK_BEFORE),
        are_all(&setting, SETTING_BEFORE),
    ];
    show(rt, field(case, 0), answer, are_all(&kept, true))
}

fn limits_of(case: &[u8]) -> Limits {
    let steps = field(case, 5);
    Limits {
        size: number(field(case, 3)),
        rows: number(field(case, 4)),
        steps: u64::from(number_at(steps, 0)) + u64::from(number_at(steps, 1)),
    }
}

// The end of slice `k` of those that a case lends, or the most.
fn end_at(ends: &[u8], k: usize, most: usize) -> usize
    ensures { result ≤ most }
{
    most.min(number_at(ends, k) as usize)
}

// Word `i` of a case's table.
fn word_before(front: &[u8], i: usize) -> u32 {
    if i < number_count(front) {
        number_at(front, i)
    } else {
        LITERAL_BEFORE
    }
}

// Writes the words of a case's table.
fn fill_front(front: &[u8], table: &mut [u32]) {
    for (i, word) in table.iter_mut().enumerate() {
        *word = word_before(front, i);
    }
}

// Whether a table holds the words of the case's.
fn is_front(front: &[u8], table: &[u32]) -> bool {
    table
        .iter()
        .enumerate()
        .all(|(i, word)| *word == word_before(front, i))
}

// Whether all items of an array are one.
fn are_all<T: Copy + PartialEq, const N: usize>(items: &[T; N], item: T) -> bool {
    items.iter().all(|x| *x == item)
}

fn show(
    rt: &impl Print,
    name: &[u8],
    answer: Result<Reply, Refusal>,
    is_kept: bool,
) -> io::Result<()> {
    rt.write_all(name)?;
    match answer {
        Ok(reply) => println!(rt; ": {}", word_of(reply)),
        Err(refusal) => {
            let kept = if is_kept { "unchanged" } else { "changed" };
            println!(rt; ": refused {}, {kept}", u32::from(refusal))
        }
    }
}

fn word_of(reply: Reply) -> &'static str {
    match reply {
        Reply::Equal(_) => "equal",
        Reply::Different(_) => "different",
        Reply::Undecided(Cause::Size, _) => "size",
        Reply::Undecided(Cause::Rows(_), _) => "rows",
        Reply::Undecided(Cause::Steps(_), _) => "steps",
    }
}
