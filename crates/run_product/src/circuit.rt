// A circuit of ANDs to multiply, read from its card: vertex 0 is false, then come the inputs, then the ANDs. A literal is twice a vertex, plus
// 1 if inverted.
ghost use Rattle.std.specs.Prelude.{◌≤◌, ◌≡◌};

use run_card_file::{number_at, number_count};

// The most vertices.
pub const VERTICES: usize = 128;

// The operands are two literals for each vertex: an array, whose length the check knows.
#[derive(Drop)]
pub struct Circuit {
    pub inputs: usize,
    pub vertices: usize,
    pub operands: [(usize, usize); VERTICES],
    pub ghost few: { (inputs ≤ 10) × (vertices ≤ 128) },
}

// Reads a circuit of so many inputs, with as many vertices as there is room for.
pub fn read(inputs: usize, field: &[u8]) -> Circuit
    requires { inputs ≤ 10 }
    ensures { result.inputs ≡ inputs }
{
    let mut operands = [(0, 0); VERTICES];
    let vertices = (number_count(field) / 2).min(VERTICES);
    for (v, literals) in operands.iter_mut().take(vertices).enumerate() {
        let p = number_at(field, v * 2);
        let q = number_at(field, v * 2 + 1);
        *literals = (p as usize, q as usize);
    }
    Circuit {
        inputs,
        vertices,
        operands,
    }
}
