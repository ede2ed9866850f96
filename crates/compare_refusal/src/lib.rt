// The refusals of compare: 10 to 15.
#![tactic(auto)]

ghost use Rattle.refusal.specs.Number.{refusal_number};
ghost use Rattle.std.specs.Prelude.{◌<◌, ◌^◌, ◌++◌, ◌≡◌, IfOk};
ghost use Rattle.compare_model.specs.Compare.{beyond?, call_tests, limits_of, outside?, short_slice?};
ghost use Rattle.compare_model.specs.Lent.{room_of};
ghost use Rattle.table.specs.Refusals.{first_refusal};
ghost use Rattle.table.specs.Table.{table_tests};

use compare_model::{Lengths, Limits, NEXT_VERTICES};
use refusal::Refusal;
use table::Table;

pub const MAX_ROWS: u64 = 32768;

pub const MAX_STEPS: u64 = 4294967295;

fn is_outside(most: u64, n: u64) -> bool
    ensures { result ≡ outside? most n }
{
    !(1..=most).contains(&n)
}

fn is_beyond(limits: Limits) -> bool
    ensures { result ≡ beyond? (limits_of limits) }
{
    is_outside(MAX_ROWS, u64::from(limits.size))
        || is_outside(MAX_ROWS, u64::from(limits.rows))
        || is_outside(MAX_STEPS, limits.steps)
}

// Whether a working slice or the marks are short for some vertices and a row limit.
pub fn is_short(vertices: usize, rows: u32, lengths: Lengths) -> bool
    requires { vertices < 2 ^ 32 }
    ensures { result ≡ short_slice? vertices rows (room_of lengths) lengths.marks }
{
    let words = 2 * vertices;
    lengths.pairs < words
        || lengths.look < words
        || lengths.diagrams < words
        || lengths.stages < words
        || lengths.rows < 4 * rows as usize
        || lengths.marks < vertices
}

// The first of the refusals 12 to 15 that applies.
#[tactic(auto, unfolding(table::specs::Refusals::first_refusal))]
fn check_call(
    table: &Table<'_>,
    output: u32,
    limits: Limits,
    lengths: Lengths,
) -> Result<(), Refusal>
    ensures { refusal_number result ≡ first_refusal 0 (call_tests table.now.words.now output (limits_of limits) (room_of lengths) lengths.marks lengths.setting) }
{
    if table.outputs() <= output {
        return Err(Refusal::UnknownOutput);
    }
    if is_beyond(limits) {
        return Err(Refusal::Limits);
    }
    if is_short(table.vertices() + NEXT_VERTICES, limits.rows, lengths) {
        return Err(Refusal::ShortSlice);
    }
    if lengths.setting < table.inputs() as usize {
        return Err(Refusal::ShortSetting);
    }
    Ok(())
}

// Some words as a table that can be compared, or the first refusal that applies.
pub fn check(
    words: &[u32],
    output: u32,
    limits: Limits,
    lengths: Lengths,
) -> Result<Table<'_>, Refusal>
    ensures refusal { refusal_number result ≡ first_refusal 0 (table_tests words.now ++ call_tests words.now output (limits_of limits) (room_of lengths) lengths.marks lengths.setting) }
    ensures table { IfOk result (λ t. t.words.now ≡ words.now) }
{
    let table = table_refusal::check(words)?;
    check_call(&table, output, limits, lengths)?;
    Ok(table)
}
