// The lines of a file, each handed back as a part of it.
ghost use Rattle.std.specs.Prelude.{◌+◌, ◌<◌, ◌≤◌, drop, length, ◌≡◌};
ghost use Rattle.netlist_model.specs.Records.{record_of};
ghost use Rattle.text.specs.Split.{up_to};

use crate::records;
use netlist_model::Record;

pub const LINE_END: u8 = b'\n';

// The record of the line that starts at `at`, if it has the layout of one. A file and a place in it are two parameters: the place comes from `Starts` or
// from a `Summary`, and a struct of both would be made for one call.
pub fn read_line(file: &[u8], at: usize) -> Option<Record>
    requires { at ≤ length file.now }
    ensures { result ≡ record_of (up_to 10 (drop at file.now)) }
{
    records::read_record(text::until(file, at, LINE_END))
}

// The places at which the lines of a file start.
#[derive(Drop)]
pub struct Starts<'a> {
    pub file: &'a [u8],
    pub at: usize,
}

impl<'a> Iterator for Starts<'a> {
    ghost use Rattle.netlist_records.specs.code.Starts.{GivesStart, bytes_left};
    ghost use Rattle.std.specs.Iterator.{at_most};

    type Item = usize;

    ghost next_gives = { GivesStart };

    ghost remaining = { λ s. at_most (bytes_left s) };

    fn next(&mut self) -> Option<usize> {
        let at = self.at;
        if self.file.len() <= at {
            return None;
        }
        self.at = line_end(self.file, at);
        Some(at)
    }
}

// Those from the first on.
pub fn line_starts(file: &[u8]) -> Starts<'_>
    ensures file { result.file.now ≡ file.now }
    ensures at { result.at ≡ 0 }
{
    Starts { file, at: 0 }
}

// The place after the end byte of the line that starts at `at`: past the end of the file where the last line has no end byte.
pub fn line_end(file: &[u8], at: usize) -> usize
    requires { at ≤ length file.now }
    ensures { result ≡ at + length (up_to 10 (drop at file.now)) + 1 }
{
    at + text::until(file, at, LINE_END).len() + 1
}
