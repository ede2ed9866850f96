// A vertex has its product taken.
ghost use Rattle.std.specs.Prelude.{◌*◌, ◌≤◌, IfErr, length, ◌≡◌};
ghost use Rattle.sweep_state.specs.code.Settle.{EndedIn};
ghost use Rattle.sweep_state.specs.code.Sweep.{Kept, lent};
ghost use Rattle.sweep_step.specs.code.Multiply.{Concludes, DueIn, PassedAt, Takes, end_by};

use crate::settle::settle;
use product::Short;
use sweep_draw::drop::break_off;
use sweep_draw::operands::take_product;
use sweep_look::look::look;
use sweep_model::Cause;
use sweep_state::end::{End, Ended};
use sweep_state::sweep::Sweep;

// How a sweep ends whose product of vertex v passed a limit.
fn end_by(short: Short, v: u32) -> End
    ensures { result ≡ end_by v short }
{
    match short {
        Short::Rows => End::Undecided(Cause::Rows(v)),
        Short::Steps => End::Undecided(Cause::Steps(v)),
    }
}

// The product of vertex v is done, with its reference: it is dropped or met, and the two literals are looked at.
fn conclude(s: &mut Sweep<'_>, v: u32, reference: usize, kept: usize) -> Option<End>
    requires ended { EndedIn s.old.task v reference s.old.used kept (lent s.old) }
    requires long { 2 * s.old.task.count ≤ length s.old.look.now }
    ensures concluded { Concludes v reference kept s.old s.new result }
    ensures same { Kept s.old s.new }
{
    settle(s, v, reference, kept);
    look(s)
}

// The product of v's operands is taken: it is dropped or met, and what the two literals decide is given back; or it is broken off, which ends the
// sweep.
pub fn multiply(s: &mut Sweep<'_>, v: u32) -> Result<Option<End>, Ended>
    requires due { DueIn v s.old }
    requires long { 2 * s.old.task.count ≤ length s.old.look.now }
    ensures taken { Takes v s.old s.new result }
    ensures passed { IfErr result (λ r. PassedAt v r.end) }
    ensures same { Kept s.old s.new }
{
    let kept = s.used;
    match take_product(s, v) {
        Ok(reference) => Ok(conclude(s, v, reference, kept)),
        Err(short) => {
            let added = s.used - kept;
            break_off(s, v, kept);
            Err(s.ended(end_by(short, v), added))
        }
    }
}
