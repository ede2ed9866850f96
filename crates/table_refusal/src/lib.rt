// The refusals 10 and 11: whether some words are a table that keeps the rules.
#![tactic(auto)]

ghost use Rattle.std.specs.Prelude.{◌*◌, ◌+◌, ◌<◌, ◌^◌, ◌≡◌, IfOk};
ghost use Rattle.refusal.specs.Number.{refusal_number};
ghost use Rattle.table.specs.Refusals.{first_refusal};
ghost use Rattle.table.specs.Table.{all_below?, downward?, inputs_of, malformed?, out_of_order?, row_below?, rows_of, table_tests};

use aig::literal::Literal;
use refusal::Refusal;
use table::{HEADER, Table};

fn is_malformed(words: &[u32]) -> bool
    ensures { result ≡ malformed? words.now }
{
    if words.len() < HEADER {
        return true;
    }
    let made = words[1];
    let outputs = words[2];
    if table::beyond_limits(words[0], made, outputs) {
        return true;
    }
    words.len() < HEADER + 2 * made as usize + 2 * outputs as usize + 1
}

// Whether the literals of a vertex's row are below its own.
fn row_below(row: (Literal, Literal), vertex: u32) -> bool
    requires { vertex < 2 ^ 31 }
    ensures { result ≡ row_below? (2 * vertex) (row.0.0, row.1.0) }
{
    let own = Literal::new(vertex, false);
    row.0 < own && row.1 < own
}

// Whether each row's literals are below twice its vertex.
fn is_downward(table: &Table<'_>) -> bool
    ensures { result ≡ downward? (1 + inputs_of table.now.words.now) (rows_of table.now.words.now) }
{
    let first = 1 + table.inputs();
    (0..table.made()).all(|i| row_below(table.row(i as usize), first + i))
}

// Whether all words of a part are below a bound.
fn all_below(words: &[u32], bound: u32) -> bool
    ensures { result ≡ all_below? bound words.now }
{
    words.iter().all(|word| *word < bound)
}

fn is_out_of_order(table: &Table<'_>) -> bool
    ensures { result ≡ out_of_order? table.now.words.now }
{
    let from = table.rows_end();
    let end = from + 2 * table.outputs() as usize;
    let bound = 2 * table.vertices() as u32;
    if !is_downward(table) {
        return true;
    }
    if !all_below(&table.words[from..end], bound) {
        return true;
    }
    bound <= table.words[end]
}

// Some words as a table, or the first of the refusals 10 and 11 that applies to them.
#[tactic(auto, unfolding(table::specs::Refusals::first_refusal))]
pub fn check(words: &[u32]) -> Result<Table<'_>, Refusal>
    ensures refusal { refusal_number result ≡ first_refusal 0 (table_tests words.now) }
    ensures table { IfOk result (λ t. t.words.now ≡ words.now) }
{
    if is_malformed(words) {
        return Err(Refusal::MalformedTable);
    }
    let table = Table { words };
    if is_out_of_order(&table) {
        return Err(Refusal::TableOrder);
    }
    Ok(table)
}
