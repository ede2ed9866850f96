// The program's call on many pairs: for each name of the file `names` the name, and the report on the files of that folder. Then the and/or
// pair with each lent slice one element short.
#![tactic(auto)]

ghost use Rattle.std.specs.Prelude.{◌≡◌, ◌≤◌, length, take};

use compare_model::Lent;
use report_model::{COMPARE_ROOM, COMPARE_VERTICES, REPORT_ROOM, ROWS_ROOM};
use std::io;
use std::rt::Files;

// A byte more than a file may have, so that a longer one is seen to be too long.
const FILE_ROOM: usize = netlist_model::MAX_BYTES + 1;

const SETTING_ROOM: usize = table::MAX_INPUTS as usize;

// Room for the names.
const NAMES_ROOM: usize = 4096;

// Room for a folder's name and the name of a file in it.
const PATH_ROOM: usize = 64;

// The slices that the call is lent.
#[derive(Clone, Copy, PartialEq, Eq)]
enum Slice {
    Out,
    Table,
    Pairs,
    Look,
    Diagrams,
    Stages,
    Rows,
    Marks,
    Setting,
}

const SLICES: [Slice; 9] = [
    Slice::Out,
    Slice::Table,
    Slice::Pairs,
    Slice::Look,
    Slice::Diagrams,
    Slice::Stages,
    Slice::Rows,
    Slice::Marks,
    Slice::Setting,
];

// The names are read as the files of a pair are, into an array, whose length the check knows.
fn main(rt: HostRuntime) -> io::Result<()> {
    let mut names = [0; NAMES_ROOM];
    let end = files::read_file(&rt, b"names", &mut names);
    report_all(&rt, &names[..end])?;
    for slice in SLICES {
        report_and_or(&rt, slice)?;
    }
    Ok(())
}

// The report on each pair, in the order of the names. Each name ends with byte 10.
fn report_all(rt: &(impl Files + Print), names: &[u8]) -> io::Result<()> {
    for line in names.split_inclusive(|b| *b == b'\n') {
        if let Some(name) = line.strip_suffix(b"\n") {
            report_named(rt, name)?;
        }
    }
    Ok(())
}

// The files are read into arrays, whose lengths the check knows.
fn report_named(rt: &(impl Files + Print), name: &[u8]) -> io::Result<()> {
    let mut left = [0; FILE_ROOM];
    let mut right = [0; FILE_ROOM];
    let left_end = read_named(rt, name, b"/left.tsv", &mut left);
    let right_end = read_named(rt, name, b"/right.tsv", &mut right);
    rt.write_all(name)?;
    rt.write_all(b"\n")?;
    print_report(rt, &left[..left_end], &right[..right_end], None)
}

// Reads a file of a folder. A path that is longer than the room for it is cut.
fn read_named(files: &impl Files, folder: &[u8], name: &[u8], bytes: &mut [u8]) -> usize
    ensures in_bounds { result ≤ length bytes.new }
    ensures front { result ≡ length (take result bytes.new) }
{
    let mut path = [0; PATH_ROOM];
    for (to, byte) in path.iter_mut().zip(folder.iter().chain(name)) {
        *to = *byte;
    }
    let end = folder.len().saturating_add(name.len()).min(PATH_ROOM);
    files::read_file(files, &path[..end], bytes)
}

// The report on the and/or pair, with one of the lent slices one element short.
fn report_and_or(rt: &impl Print, short: Slice) -> io::Result<()> {
    print_report(
        rt,
        b"N\t1\t2\t1\t1\nG\tand\t2\t4\nO\t6\n",
        b"N\t1\t2\t1\t1\nG\tor\t2\t4\nO\t6\n",
        Some(short),
    )
}

// Prints the report on two files, with one of the lent slices one element short, or none. An empty report is said to be nothing.
// The slices lent are arrays, whose lengths the check knows.
fn print_report(
    rt: &impl Print,
    left: &[u8],
    right: &[u8],
    short: Option<Slice>,
) -> io::Result<()> {
    let mut out = [0; REPORT_ROOM];
    let out = &mut out[less(short, Slice::Out)..];
    let mut table = [0; load::MAX_TABLE];
    let mut lent = Lent {
        pairs: &mut [0; COMPARE_ROOM][less(short, Slice::Pairs)..],
        look: &mut [0; COMPARE_ROOM][less(short, Slice::Look)..],
        diagrams: &mut [0; COMPARE_ROOM][less(short, Slice::Diagrams)..],
        stages: &mut [0; COMPARE_ROOM][less(short, Slice::Stages)..],
        rows: &mut [0; ROWS_ROOM][less(short, Slice::Rows)..],
        marks: &mut [0; COMPARE_VERTICES][less(short, Slice::Marks)..],
        setting: &mut [0; SETTING_ROOM][less(short, Slice::Setting)..],
    };
    let table = &mut table[less(short, Slice::Table)..];
    match report_pair::report_pair(left, right, out, table, &mut lent) {
        0 => rt.write_all(b"nothing\n"),
        end => rt.write_all(&out[..end]),
    }
}

// By how much a slice is short.
fn less(short: Option<Slice>, slice: Slice) -> usize
    ensures { result ≤ 1 }
{
    usize::from(short == Some(slice))
}
