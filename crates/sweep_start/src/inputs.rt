// Each input gets its row.
ghost use Rattle.std.specs.Prelude.{length, ◌≡◌};
ghost use Rattle.bdd_unique.specs.code.Unique.{Makes};
ghost use Rattle.sweep_start.specs.code.Given.{GivesRows, HasInputContext};
ghost use Rattle.sweep_start.specs.code.Inputs.{Gives, RowAsked, level_of};
ghost use Rattle.sweep_state.specs.code.Sweep.{SameLengths, lent, put_arrays, put_counts, put_rows};

use bdd::store::RowStore;
use bdd_unique::make;
use sweep_draw::draw::draw;
use sweep_state::mark::Mark;
use sweep_state::sweep::Sweep;

// The row of input v, or none is left.
fn make_row(s: &mut Sweep<'_>, v: u32) -> Option<usize>
    requires { RowAsked s.old.task v s.old.used (lent s.old).arrays }
    ensures made { Makes s.old.rows.now s.new.rows.now s.old.task.rows s.old.used s.new.used (level_of s.old.task v) 0 1 result }
    ensures left { s.new ≡ put_counts s.new.used s.old.steps (put_rows s.new.rows.now s.old) }
    ensures long { length s.new.rows.now ≡ length s.old.rows.now }
{
    let level = s.task.inputs + 1 - v as usize;
    let mut store = RowStore {
        rows: &mut *s.rows,
        limit: s.task.rows,
        used: s.used,
    };
    let made = make(&mut store, level, 0, 1);
    s.used = store.used;
    made
}

// Input v gets its row, waits and is marked 1; or it is marked 3, and is given back as the vertex at which the row limit was passed.
fn give_row(s: &mut Sweep<'_>, v: u32) -> Result<(), u32>
    requires { RowAsked s.old.task v s.old.used (lent s.old).arrays }
    ensures given { Gives s.old.task v s.old.used (lent s.old).arrays (lent s.new).arrays s.new.used result }
    ensures left { s.new ≡ put_arrays (lent s.new).arrays (put_counts s.new.used s.old.steps s.old) }
    ensures long { SameLengths (lent s.old) (lent s.new) }
{
    match make_row(s, v) {
        Some(reference) => {
            draw(s, v, reference as u32, 1);
            Ok(())
        }
        None => {
            s.mark(v, Mark::Short);
            Err(v)
        }
    }
}

// Each input gets its row, upwards; or the input at which the row limit was passed.
pub fn give_rows(s: &mut Sweep<'_>) -> Result<(), u32>
    requires { HasInputContext s.old.task (lent s.old).arrays s.old.used }
    ensures given { GivesRows s.old.task (lent s.old).arrays s.old.used (lent s.new).arrays s.new.used result }
    ensures left { s.new ≡ put_arrays (lent s.new).arrays (put_counts s.new.used s.old.steps s.old) }
    ensures long { SameLengths (lent s.old) (lent s.new) }
{
    for v in 1..s.task.first {
        give_row(s, v)?;
    }
    Ok(())
}
