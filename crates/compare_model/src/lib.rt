// A comparison: what it is asked, and the slices that it is lent.
#![tactic(auto)]

// The vertices that it may have beside the table's: the ANDs of the constraint with the two outputs.
pub const NEXT_VERTICES: usize = 2;

// The size limit, the row limit and the step limit. The last is wider, so that one that is too large can be given and refused.
#[derive(Clone, Copy, Debug, PartialEq, Eq)]
pub struct Limits {
    pub size: u32,
    pub rows: u32,
    pub steps: u64,
}

// The lengths of the slices that are lent beside the table.
#[derive(Clone, Copy, Debug, PartialEq, Eq)]
pub struct Lengths {
    pub pairs: usize,
    pub look: usize,
    pub diagrams: usize,
    pub stages: usize,
    pub rows: usize,
    pub marks: usize,
    pub setting: usize,
}

// The slices that are lent beside the table: five to work in, the marks, and the setting.
#[derive(Drop)]
pub struct Lent<'a> {
    pub pairs: &'a mut [u32],
    pub look: &'a mut [u32],
    pub diagrams: &'a mut [u32],
    pub stages: &'a mut [u32],
    pub rows: &'a mut [u32],
    pub marks: &'a mut [u8],
    pub setting: &'a mut [u8],
}

impl Lent<'_> {
    ghost use Rattle.compare_model.specs.Lent.{lengths_of};
    ghost use Rattle.std.specs.Prelude.{◌≡◌};

    pub fn lengths(&self) -> Lengths
        ensures { result ≡ lengths_of self.now }
    {
        Lengths {
            pairs: self.pairs.len(),
            look: self.look.len(),
            diagrams: self.diagrams.len(),
            stages: self.stages.len(),
            rows: self.rows.len(),
            marks: self.marks.len(),
            setting: self.setting.len(),
        }
    }
}
