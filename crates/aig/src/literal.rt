// A literal names a vertex, inverted or not. The paper calls it a reference.
ghost use Rattle.std.specs.Prelude.{◌<◌, ◌^◌, ◌≡◌};
ghost use Rattle.aig.specs.Literal.{inverted?, lit, literal_of, negate, onto, vertex_of};

// Twice a vertex number, plus 1 if inverted.
#[derive(Clone, Copy, Debug, PartialEq, Eq, PartialOrd, Ord)]
pub struct Literal(pub u32);

impl Literal {
    pub const FALSE: Literal = Literal(0);

    pub const TRUE: Literal = Literal(1);

    pub fn new(vertex: u32, inverted: bool) -> Self
        requires { vertex < 2 ^ 31 }
        ensures { result ≡ lit (literal_of vertex inverted) }
    {
        Literal(2 * vertex + u32::from(inverted))
    }

    pub fn negated(self) -> Self
        ensures { result ≡ lit (negate self.0) }
    {
        if self.0 % 2 == 0 {
            Literal(self.0 + 1)
        } else {
            Literal(self.0 - 1)
        }
    }

    pub fn vertex(self) -> u32
        ensures { result ≡ vertex_of self.0 }
    {
        self.0 / 2
    }

    pub fn is_inverted(self) -> bool
        ensures { result ≡ inverted? self.0 }
    {
        self.0 % 2 == 1
    }

    // This literal, inverted where `other` is.
    pub fn onto(self, other: Literal) -> Self
        ensures { result ≡ lit (onto self.0 other.0) }
    {
        Literal(self.0 / 2 * 2 + (self.0 % 2 + other.0 % 2) % 2)
    }
}
