// The replies of a comparison. The sweep itself is a definition, in specs/; there is no code here.
#![tactic(auto)]

// Why a comparison is undecided; Rows and Steps name the vertex at which the limit was passed.
#[derive(Clone, Copy, Debug, PartialEq, Eq)]
pub enum Cause {
    Size,
    Rows(u32),
    Steps(u32),
}

// The rows in use, the product steps taken, and the rows that a product which broke off had added: those were given back.
#[derive(Clone, Copy, Debug, PartialEq, Eq)]
pub struct Counts {
    pub rows: u32,
    pub steps: u32,
    pub added: u32,
}

// What a comparison that is not refused says.
#[derive(Clone, Copy, Debug, PartialEq, Eq)]
pub enum Reply {
    Equal(Counts),
    Different(Counts),
    Undecided(Cause, Counts),
}
