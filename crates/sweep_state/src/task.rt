// What a sweep is asked.

// How many vertices come first (the constant and the inputs) and how many there are; the inputs; the two literals looked at; the limits on
// size, rows and steps.
// The literals are numbers, as the definitions of a sweep have them: each contract and definition would unpack a `Literal`.
#[derive(Clone, Copy, Debug, PartialEq, Eq)]
pub struct Task {
    pub first: u32,
    pub count: u32,
    pub inputs: usize,
    pub left: u32,
    pub right: u32,
    pub size: usize,
    pub rows: usize,
    pub steps: usize,
}
