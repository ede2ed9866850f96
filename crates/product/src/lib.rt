// The product: the recursive AND of two diagrams, counted.
#![tactic(auto)]

mod steps;

ghost use Rattle.std.specs.Prelude.{◌/◌, ◌≤◌, ◌≡◌};
ghost use Rattle.bdd.specs.code.Slice.{SameSlice};
ghost use Rattle.bdd.specs.code.Split.{Halved};
ghost use Rattle.product.specs.Product.{MultipliesIn, Operands};

use bdd::references::{Halves, ends, split_at_top};
use bdd::store::RowStore;
use bdd_unique::make;
pub use steps::{Short, Steps};

// Two references to rows in use, split at the top.
fn split(store: &RowStore<'_>, f: usize, g: usize) -> Halves
    requires { (f / 2 ≤ store.now.used) × (g / 2 ≤ store.now.used) }
    ensures { Halved store.now.rows.now f g result }
{
    split_at_top(store.rows, f, g)
}

// The AND of f and g, functions of the `left` inputs not yet passed: this call counted, then the value 0 of the lowest-numbered input
// on which either depends, then the value 1, then the row of the two results.
pub fn multiply(
    store: &mut RowStore<'_>,
    f: usize,
    g: usize,
    left: usize,
    steps: &mut Steps,
) -> Result<usize, Short>
    requires { Operands store.old.rows.now store.old.used f g left }
    ensures same { SameSlice store.old store.new × (steps.new.most ≡ steps.old.most) }
    ensures product { MultipliesIn store.old store.new f g left steps.old steps.new result }
{
    steps.take()?;
    if let Some(r) = ends(f, g) {
        return Ok(r);
    }
    let h = split(store, f, g);
    let low = multiply(store, h.f0, h.g0, h.level - 1, steps)?;
    let high = multiply(store, h.f1, h.g1, h.level - 1, steps)?;
    make(store, h.level, low, high).ok_or(Short::Rows)
}
