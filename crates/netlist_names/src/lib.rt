// The names in a file's I lines, which come after line 1.
#![tactic(auto)]

ghost use Rattle.std.specs.Prelude.{◌≤◌, drop, length, Some, ◌≡◌};
ghost use Rattle.netlist_model.specs.Names.{found, lacked};
ghost use Rattle.netlist_model.specs.Records.{line_of, name_line, record_of};
ghost use Rattle.netlist_model.specs.code.Passing.{NamesThere, front_names, place_after};
ghost use Rattle.std.specs.Iterator.{YieldsFirstBy, item_count};
ghost use Rattle.netlist_names.specs.code.Walk.{names_ahead, names_from};
ghost use Rattle.text.specs.Split.{up_to};

use netlist_model::Record;
use netlist_records::{lines, records};

// The name in the I line that starts at `at`. A file and a place in it are two parameters, as in `netlist_records::lines`.
pub fn name_at(file: &[u8], at: usize) -> &[u8]
    requires at_in_bounds { at ≤ length file.now }
    requires file_value { record_of (up_to 10 (drop at file.now)) ≡ Some Record.Name }
    ensures { name_line result.now ≡ line_of (up_to 10 (drop at file.now)) }
{
    records::name_in(text::until(file, at, lines::LINE_END))
}

// The names in the I lines from a place on. `find_name` and `first_lacked` take a copy.
#[derive(Clone, Copy, Drop)]
pub struct Names<'a> {
    pub file: &'a [u8],
    pub at: usize,
    pub left: u32,
    ghost there: { left ≤ names_ahead file.now at },
}

impl<'a> Iterator for Names<'a> {
    ghost use Rattle.netlist_names.specs.code.Left.{names_left};

    type Item = &'a [u8];

    ghost next_gives = { YieldsFirstBy (λ name. name.now) names_left };

    ghost remaining = { item_count names_left };

    fn next(&mut self) -> Option<&'a [u8]> {
        if self.left == 0 {
            return None;
        }
        let name = name_at(self.file, self.at);
        self.at = lines::line_end(self.file, self.at);
        self.left -= 1;
        Some(name)
    }
}

// The first `count` names of a file.
pub fn front_names(file: &[u8], count: u32) -> Names<'_>
    requires { NamesThere file.now count }
    ensures names { names_from result.file.now result.at result.left ≡ front_names count file.now }
    ensures left { result.left ≡ count }
{
    Names {
        file,
        at: lines::line_end(file, 0),
        left: count,
    }
}

// The place of a name among others, if it is there.
pub fn find_name(mut names: Names<'_>, name: &[u8]) -> Option<u32>
    ensures { result ≡ found name.now (names_from names.entry.file.now names.entry.at names.entry.left) }
{
    let place = names.position(|other| text::same(name, other))?;
    Some(place as u32)
}

// The place of the first name of `right` that `left` lacks, if there is one.
pub fn first_lacked(left: Names<'_>, mut right: Names<'_>) -> Option<u32>
    ensures { result ≡ lacked (names_from left.entry.file.now left.entry.at left.entry.left) (names_from right.entry.file.now right.entry.at right.entry.left) }
{
    let place = right.position(|name| find_name(left, name).is_none())?;
    Some(place as u32)
}

// The place after the first `count` lines of a file. It is carried from line to line: `Starts` gives only places where a line starts, and
// the file may end here.
pub fn place_after(file: &[u8], count: u32) -> usize
    requires { place_after file.now count ≤ length file.now }
    ensures { result ≡ place_after file.now count }
{
    let mut at = 0;
    for _ in 0..count {
        at = lines::line_end(file, at);
    }
    at
}
