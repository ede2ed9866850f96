// References: twice a row, plus 1 if inverted. 0 is false and 1 is true.
// They stand as numbers in the words of rows and of other slices: a type of its own would be packed and unpacked at each of them.
ghost use Rattle.std.specs.Prelude.{◌*◌, ◌/◌, ◌≤◌, length, ◌≡◌};
ghost use Rattle.bdd.specs.Diagram.{cofactor, edge};
ghost use Rattle.bdd.specs.code.Split.{Ends, Halved};

use crate::rows::{child_of, level_of};

// The reference c, inverted once more where r is inverted.
// `Literal::onto` does so with 32 bits: a function of both widths would ask for the laws of `/`, `%` and `+` of its type.
#[tactic(auto, unfolding(crate::specs::Diagram::edge))]
pub fn edge_to(c: usize, r: usize) -> usize
    ensures { result ≡ edge c r }
{
    c / 2 * 2 + (c % 2 + r % 2) % 2
}

// The reference r where the input of the level has the digit b.
pub fn cofactor_of(rows: &[u32], b: bool, level: usize, r: usize) -> usize
    requires { r / 2 * 4 ≤ length rows.now }
    ensures { result ≡ cofactor rows.now b level r }
{
    if level_of(rows, r / 2) == level {
        edge_to(child_of(rows, b, r / 2), r)
    } else {
        r
    }
}

// The AND of f and g where one is constant, or they are equal or inverse; none where it does not end without a look at their rows.
pub fn ends(f: usize, g: usize) -> Option<usize>
    ensures { Ends f g result }
{
    if f == 0 {
        return Some(0);
    }
    if g == 0 {
        return Some(0);
    }
    if f == 1 {
        return Some(g);
    }
    if g == 1 {
        return Some(f);
    }
    if f == g {
        return Some(f);
    }
    if f / 2 == g / 2 {
        return Some(0);
    }
    None
}

// Two references f and g at the higher of their levels: the cofactors where that input is 0 and where it is 1.
#[derive(Clone, Copy, Debug, PartialEq, Eq)]
pub struct Halves {
    pub level: usize,
    pub f0: usize,
    pub f1: usize,
    pub g0: usize,
    pub g1: usize,
}

// Splits f and g at the lowest-numbered input on which either depends.
pub fn split_at_top(rows: &[u32], f: usize, g: usize) -> Halves
    requires { (f / 2 * 4 ≤ length rows.now) × (g / 2 * 4 ≤ length rows.now) }
    ensures { Halved rows.now f g result }
{
    let top = level_of(rows, f / 2).max(level_of(rows, g / 2));
    Halves {
        level: top,
        f0: cofactor_of(rows, false, top, f),
        f1: cofactor_of(rows, true, top, f),
        g0: cofactor_of(rows, false, top, g),
        g1: cofactor_of(rows, true, top, g),
    }
}
