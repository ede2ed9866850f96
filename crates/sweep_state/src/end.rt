// How a sweep ends.
use sweep_model::Cause;

// One literal or one function; inverse literals; the references of two functions; or it is undecided.
#[derive(Clone, Copy, Debug, PartialEq, Eq)]
pub enum End {
    Equal,
    Inverse,
    Differ(usize, usize),
    Undecided(Cause),
}

// How a sweep ended, the rows used, the steps taken, and the rows that a product which broke off had added.
#[derive(Clone, Copy, Debug, PartialEq, Eq)]
pub struct Ended {
    pub end: End,
    pub used: usize,
    pub steps: usize,
    pub added: usize,
}
