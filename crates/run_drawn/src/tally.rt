// How many pairs had names, how many of these a cycle of three inputs, how many pairs had a constraint, how many replies were Equal only by it, how
// many replies of each kind came, and how many answers were wrong.
use std::io;

#[derive(Default, Drop)]
pub struct Tally {
    pub by_name: u32,
    pub cycles: u32,
    pub constrained: u32,
    pub equal_by_constraint: u32,
    pub equal: u32,
    pub different: u32,
    pub size: u32,
    pub rows: u32,
    pub steps: u32,
    pub refused: u32,
    pub wrong: u32,
}

impl Tally {
    // Counts what does not hold.
    pub fn hold(&mut self, holds: bool) {
        if !holds {
            count(&mut self.wrong);
        }
    }

    // Prints how many pairs there were, and the counts of each kind.
    pub fn print(&self, rt: &impl Print, pairs: u32) -> io::Result<()> {
        print_line(rt, "pairs", pairs)?;
        print_line(rt, "by name", self.by_name)?;
        print_line(rt, "cycles of three", self.cycles)?;
        print_line(rt, "with r", self.constrained)?;
        print_line(rt, "equal by r", self.equal_by_constraint)?;
        print_line(rt, "equal", self.equal)?;
        print_line(rt, "different", self.different)?;
        print_line(rt, "size", self.size)?;
        print_line(rt, "rows", self.rows)?;
        print_line(rt, "steps", self.steps)?;
        print_line(rt, "refused", self.refused)?;
        print_line(rt, "wrong", self.wrong)
    }
}

pub fn count(n: &mut u32) {
    *n = n.saturating_add(1);
}

fn print_line(rt: &impl Print, name: &str, n: u32) -> io::Result<()> {
    println!(rt; "{name} {n}")
}
