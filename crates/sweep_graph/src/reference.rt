// References of diagrams: that of a literal, and the owner of its row.
ghost use Rattle.std.specs.Prelude.{◌*◌, ◌/◌, ◌<◌, ◌≤◌, length, ◌≡◌};
ghost use Rattle.aig.specs.Literal.{vertex_of};
ghost use Rattle.aig.specs.Lookup.{first_word};
ghost use Rattle.bdd.specs.Diagram.{edge};
ghost use Rattle.bdd.specs.code.Owners.{with_owner};
ghost use Rattle.bdd.specs.code.Rows.{RADIX};

use aig::literal::Literal;
use bdd::references::edge_to;
use bdd::rows::set_owner;
use words::first_word;

// The reference of a literal's function, by its vertex's diagram.
pub fn reference_of(diagrams: &[u32], r: Literal) -> usize
    requires { 2 * vertex_of r.0 < length diagrams.now }
    ensures { result ≡ edge (first_word diagrams.now (vertex_of r.0)) r.0 }
{
    let own = first_word(diagrams, r.vertex());
    let inverted = r.0;
    edge_to(own as usize, inverted as usize)
}

// The row of a reference has the owner w; the constant has no row.
pub fn own_row(rows: &mut [u32], reference: u32, w: u32)
    requires { (reference / 2 * 4 ≤ length rows.old) × (w < RADIX) }
    ensures { rows.new ≡ with_owner rows.old (reference / 2) w }
{
    let row = (reference / 2) as usize;
    if row == 0 {
        return;
    }
    set_owner(rows, row, w as usize);
}
