// The checker on good and on damaged drawing files, those of `files.txt` and the longest. A line for each: what the file is, and what came; a C
// line's reference where it is not 1.
#![tactic(auto)]

ghost use Rattle.std.specs.Prelude.{◌≤◌, length};

use netlist::{Rejected, Role, Summary, check};
use run_card_file::{CARD_STOP, field, number};
use std::{fs, io};

// The bytes of the longest good file of edition 1 without a C line: line 1, 436 and 3,660 gate lines, 64 output lines.
const WITHOUT: usize = 65127;

// And with one.
const LONGEST: usize = 65134;

fn show(rt: &impl Print, name: &[u8], file: &[u8], role: Role) -> io::Result<()> {
    rt.write_all(name)?;
    match check::check_file(file, role) {
        Ok(summary) => show_summary(rt, summary),
        Err(Rejected { refusal, line }) => println!(rt;
            ": refused {} line {line}",
            u32::from(refusal)
        ),
    }
}

fn show_summary(rt: &impl Print, summary: Summary) -> io::Result<()> {
    let edition = u32::from(summary.edition);
    print!(rt;
        ": accepted, edition {edition} inputs {} names {}",
        summary.inputs, summary.names
    )?;
    print!(rt;
        " gates {} outputs {} ands {}",
        summary.gates, summary.outputs, summary.ands
    )?;
    if summary.reference != 1 {
        print!(rt; " reference {}", summary.reference)?;
    }
    println!(rt; " start {}", summary.start)
}

// The files of `files.txt`, a card each: a name, the file and, where it is a second file, the edition of the first.
fn show_cards(rt: &impl Print, file: &[u8]) -> io::Result<()> {
    for card in file.split(|b| *b == CARD_STOP) {
        show_card(rt, card)?;
    }
    Ok(())
}

fn show_card(rt: &impl Print, card: &[u8]) -> io::Result<()> {
    show(
        rt,
        field(card, 0),
        field(card, 1),
        role_of(number(field(card, 2))),
    )
}

// The role of a file, by the edition of the first file; 0 where it is the first itself.
fn role_of(edition: u32) -> Role {
    if edition == 0 {
        return Role::First;
    }
    Role::Second(edition)
}

// Writes the longest good file of edition 1, and shows it without its C line and with it. The file is an array, whose length the check knows.
fn longest(rt: &impl Print) -> io::Result<()> {
    let mut file = [0u8; LONGEST];
    repeat(b"N\t1\t64\t4096\t64\n", &mut file, 0, 15);
    repeat(b"G\txor\t129\t129\n", &mut file, 15, 6119);
    repeat(b"G\txor\t1001\t1001\n", &mut file, 6119, 64679);
    repeat(b"O\t8321\n", &mut file, 64679, WITHOUT);
    repeat(b"C\t8321\n", &mut file, WITHOUT, LONGEST);
    show_longest(rt, &file)
}

fn show_longest(rt: &impl Print, file: &[u8; LONGEST]) -> io::Result<()> {
    show_front(rt, b"the longest good file of edition 1", file, WITHOUT)?;
    show_front(
        rt,
        b"the longest good file of edition 1, with a C line",
        file,
        LONGEST,
    )
}

// The checker on the bytes before `end`.
fn show_front(rt: &impl Print, name: &[u8], file: &[u8], end: usize) -> io::Result<()>
    requires { end ≤ length file.now }
{
    show(rt, name, &file[..end], Role::First)
}

// Writes a line again and again from `from` up to `to`.
fn repeat(line: &[u8], file: &mut [u8; LONGEST], from: usize, to: usize)
    requires from_bound { from ≤ to }
    requires to_bound { to ≤ LONGEST }
{
    for (b, a) in file[from..to].iter_mut().zip(line.iter().cycle()) {
        *b = *a;
    }
}

fn main(rt: HostRuntime) -> io::Result<()> {
    let bytes = fs::read(&rt, "files.txt")?;
    show_cards(&rt, &bytes)?;
    longest(&rt)
}
