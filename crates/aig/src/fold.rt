// Folding: an AND whose operands decide it has no vertex of its own.
ghost use Rattle.aig.specs.Fold.{fold_of};
ghost use Rattle.std.specs.Prelude.{◌≡◌};

use crate::literal::Literal;

// What an AND comes to: a literal, or a pair whose lower literal stands first.
#[derive(Clone, Copy, Debug, PartialEq, Eq)]
pub enum Folded {
    To(Literal),
    Pair(Literal, Literal),
}

// The tests of algorithm `and` in Figure 1 of source document 004, in the figure's order; its p1 and p2 are a and b here. Each return
// names the figure's test that it follows. Then the lower literal stands first, where the figure puts the lower rank first.
#[tactic(auto, unfolding(crate::specs::Fold::fold_of))]
pub fn fold_pair(a: Literal, b: Literal) -> Folded
    ensures { result ≡ fold_of a.0 b.0 }
{
    if a == Literal::FALSE {
        return Folded::To(Literal::FALSE); // p1 == CONST_0
    }
    if b == Literal::FALSE {
        return Folded::To(Literal::FALSE); // p2 == CONST_0
    }
    if a == Literal::TRUE {
        return Folded::To(b); // p1 == CONST_1
    }
    if b == Literal::TRUE {
        return Folded::To(a); // p2 == CONST_1
    }
    if a == b {
        return Folded::To(a); // p1 == p2
    }
    if a.negated() == b {
        return Folded::To(Literal::FALSE); // p1 == ¬p2
    }
    if a < b {
        return Folded::Pair(a, b);
    }
    Folded::Pair(b, a)
}
