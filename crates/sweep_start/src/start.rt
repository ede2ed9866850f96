// The start of a sweep: up to the first turn.
ghost use Rattle.std.specs.Prelude.{length, ◌≡◌};
ghost use Rattle.bdd.specs.code.Store.{StoreRoom};
ghost use Rattle.bdd_unique.specs.code.Unique.{Cleared};
ghost use Rattle.sweep_start.specs.code.Start.{GivesInputs, GivingIn, Prepares, Starts, SweepAsked};
ghost use Rattle.sweep_state.specs.code.Sweep.{Kept, lent, put_counts, put_rows};

use crate::inputs::give_rows;
use bdd_unique::clear;
use sweep_look::look::look;
use sweep_model::Cause;
use sweep_normalise::normalise::normalise;
use sweep_pick::begin::begin;
use sweep_state::end::{End, Ended};
use sweep_state::sweep::Sweep;
use sweep_take::take::takes;
use sweep_turn::visit::after_look;

// No row is used and no step is taken.
fn empty(s: &mut Sweep<'_>)
    requires { StoreRoom s.old.rows.now s.old.task.rows 0 }
    ensures cleared { Cleared s.old.rows.now s.new.rows.now s.old.task.rows }
    ensures left { s.new ≡ put_counts 0 0 (put_rows s.new.rows.now s.old) }
    ensures long { length s.new.rows.now ≡ length s.old.rows.now }
{
    let _store = clear(s.rows, s.task.rows);
    s.used = 0;
    s.steps = 0;
}

// No vertex but the constant has a diagram, all marks are 0; and the rows of the graph are normalised.
fn prepare(s: &mut Sweep<'_>)
    requires { SweepAsked s.old.task s.old.look.now (lent s.old) }
    ensures prepared { Prepares s.old.task (lent s.old) (lent s.new) }
    ensures counts { (s.new.used ≡ 0) × (s.new.steps ≡ 0) }
    ensures kept { Kept s.old s.new }
{
    empty(s);
    begin(s);
    normalise(s);
    takes(s);
}

// Each input gets its row, and the two literals are looked at again.
fn give_inputs(s: &mut Sweep<'_>) -> Result<(), Ended>
    requires giving { GivingIn s.old.task (lent s.old) }
    requires counts { (s.old.used ≡ 0) × (s.old.steps ≡ 0) }
    ensures given { GivesInputs s.old.task (lent s.old) (lent s.new) s.new.used s.new.steps result }
    ensures kept { Kept s.old s.new }
{
    match give_rows(s) {
        Ok(()) => after_look(s, look(s)),
        Err(v) => Err(s.ended(End::Undecided(Cause::Rows(v)), 0)),
    }
}

// The graph is normalised and looked at; if nothing is decided, each input gets its row.
pub fn start(s: &mut Sweep<'_>) -> Result<(), Ended>
    requires { SweepAsked s.old.task s.old.look.now (lent s.old) }
    ensures started { Starts s.old.task (lent s.old) (lent s.new) s.new.used s.new.steps result }
    ensures kept { Kept s.old s.new }
{
    prepare(s);
    after_look(s, look(s))?;
    give_inputs(s)
}
