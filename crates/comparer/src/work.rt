// A comparison that is not refused.
ghost use Rattle.std.specs.Prelude.{◌*◌, ◌<◌, length, take, ◌≡◌};
ghost use Rattle.compare_model.specs.Compare.{limits_of, said_by, setting_left, table_left, vertex_room};
ghost use Rattle.compare_model.specs.Lent.{SameSlices, lengths_of, room_of};
ghost use Rattle.compare_model.specs.Passed.{Enough, LimitsWithin};
ghost use Rattle.compare_model.specs.Said.{replied};
ghost use Rattle.comparer.specs.Lent.{holding};
ghost use Rattle.comparer.specs.code.Work.{Finishes, Swept, put_setting};
ghost use Rattle.sweep_state.specs.code.Ending.{verdict_of};
ghost use Rattle.table.specs.Accepted.{Accepted};
ghost use Rattle.table.specs.Table.{inputs_of, outputs_of, vertices_of};

use crate::task::task_of;
use compare_copy::{copy_in, copy_out};
use compare_model::{Lent, Limits};
use compare_reply::{reply_of, write_setting};
use sweep::sweep;
use sweep_model::Reply;
use sweep_state::end::Ended;
use table::Table;

// The table's rows and those of the next vertices are copied to the pairs and swept there. The slices go on one by one: of pairs and marks the sweep is
// lent the fronts.
pub fn run(table: &Table<'_>, output: u32, limits: Limits, lent: &mut Lent<'_>) -> Ended
    requires accepted { Accepted table.now.words.now }
    requires known { output < outputs_of table.now.words.now }
    requires within { LimitsWithin (limits_of limits) }
    requires room { Enough (vertex_room table.now.words.now) limits.rows (room_of (lengths_of lent.old)) (length lent.old.marks.now) }
    ensures swept { Swept output limits (holding table.now.words.now lent.old) (holding table.now.words.now lent.new) result }
    ensures setting_kept { lent.new.setting ≡ lent.old.setting }
    ensures same { SameSlices lent.old lent.new }
{
    copy_in(table, output, lent.pairs);
    let task = task_of(table, output, limits);
    let count = task.count as usize;
    let words = 2 * count;
    sweep(
        &mut lent.pairs[..words],
        lent.look,
        lent.diagrams,
        lent.stages,
        lent.rows,
        &mut lent.marks[..count],
        task,
    )
}

// The rows and the outputs are copied back to the table, the setting is written after a Different, and the reply is made.
pub fn finish(table: &mut [u32], lent: &mut Lent<'_>, ended: Ended) -> Reply
    requires { Finishes table.old lent.old.pairs.now lent.old.rows.now ended (length lent.old.setting.now) }
    ensures table_after { table.new ≡ table_left table.old (take (2 * vertices_of table.old) lent.old.pairs.now) }
    ensures left { lent.new ≡ put_setting (setting_left (verdict_of lent.old.rows.now (inputs_of table.old) ended.end) lent.old.setting.now) lent.old }
    ensures same { SameSlices lent.old lent.new }
    ensures result_value { replied result ≡ said_by (verdict_of lent.old.rows.now (inputs_of table.old) ended.end) ended.used ended.steps ended.added }
{
    let view = Table { words: &table[..] };
    let inputs = view.inputs() as usize;
    let words = 2 * view.vertices();
    // `&mut`, though pairs and rows are only read. Tried `&`: the prover then does not know what `pairs` holds, and the borrow checker refuses a shared
    // loan of `rows` beside that of `setting`.
    let pairs = &mut lent.pairs[..words];
    copy_out(table, &pairs[..]);
    let rows = &mut lent.rows[..];
    write_setting(ended.end, &rows[..], inputs, lent.setting);
    reply_of(ended)
}
