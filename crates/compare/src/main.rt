// The program: compares the drawings `left.tsv` and `right.tsv`, and prints a line for each output or why they are refused.
#![tactic(auto)]

use compare_model::Lent;
use report_model::{COMPARE_ROOM, COMPARE_VERTICES, REPORT_ROOM, ROWS_ROOM};

// A byte more than a file may have, so that a longer one is seen to be too long.
const FILE_ROOM: usize = netlist_model::MAX_BYTES + 1;

const SETTING_ROOM: usize = table::MAX_INPUTS as usize;

// The bytes of the two files stand in arrays, with no heap.
fn main(rt: HostRuntime) {
    let mut left = [0u8; FILE_ROOM];
    let mut right = [0u8; FILE_ROOM];
    let left_end = files::read_file(&rt, b"left.tsv", &mut left);
    let right_end = files::read_file(&rt, b"right.tsv", &mut right);
    print_report(&rt, &left[..left_end], &right[..right_end]);
}

// The call works in slices that its caller lends: arrays here, with no heap.
fn print_report(rt: &(impl Print + Eprint), left: &[u8], right: &[u8]) {
    let mut out = [0; REPORT_ROOM];
    let mut table = [0; load::MAX_TABLE];
    let mut lent = Lent {
        pairs: &mut [0; COMPARE_ROOM],
        look: &mut [0; COMPARE_ROOM],
        diagrams: &mut [0; COMPARE_ROOM],
        stages: &mut [0; COMPARE_ROOM],
        rows: &mut [0; ROWS_ROOM],
        marks: &mut [0; COMPARE_VERTICES],
        setting: &mut [0; SETTING_ROOM],
    };
    let end = report_pair::report_pair(left, right, &mut out, &mut table, &mut lent);
    print(rt, &out[..end]);
}

// Writes the whole report at once. Where that fails, nothing more is written there, and standard error says so.
fn print(rt: &(impl Print + Eprint), report: &[u8]) {
    if rt.write_all(report).is_ok() {
        return;
    }
    let _ = rt.eprintln("compare: a write to standard output failed, so the report is cut off");
}
