// A row is the vertex's two operands or, twice, the literal that it was merged into.
ghost use Rattle.std.specs.Prelude.{◌*◌, ◌+◌, ◌<◌, length, ◌≡◌};
ghost use Rattle.aig.specs.Literal.{lit, vertex_of};
ghost use Rattle.sweep_model.specs.Normalise.{resolve};

use aig::literal::Literal;
use words::{first_word, second_word};

// What a literal became: the one that its vertex was merged into, inverted where it is, or else itself.
pub fn resolve(pairs: &[u32], r: Literal) -> Literal
    requires { 2 * vertex_of r.0 + 1 < length pairs.now }
    ensures { result ≡ lit (resolve pairs.now r.0) }
{
    let v = r.vertex();
    let x = first_word(pairs, v);
    let y = second_word(pairs, v);
    if x == y { Literal(x).onto(r) } else { r }
}
