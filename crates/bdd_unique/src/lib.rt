// The unique table: rows found or added in chains, and given back in reverse order of making.
#![tactic(auto)]

ghost use Rattle.std.specs.Prelude.{◌*◌, ◌+◌, ◌-◌, ◌<◌, ◌^◌, ◌≤◌, length, ◌≡◌};
ghost use Rattle.bdd.specs.Diagram.{Reference};
ghost use Rattle.bdd.specs.code.Rows.{MARK};
ghost use Rattle.bdd.specs.code.Slice.{SameSlice};
ghost use Rattle.bdd.specs.code.Store.{StoreRoom, bucket};
ghost use Rattle.bdd_unique.specs.code.Unique.{Cleared, Found, GivenBack, Is, MakesIn, NewRow, added, unlinked};

use bdd::references::edge_to;
use bdd::rows::{RADIX, Word, head_of, high_of, level_of, low_of, next_of, put_word};
use bdd::store::RowStore;

// The level and the edges of a row.
#[derive(Clone, Copy, Debug, PartialEq, Eq)]
struct Node {
    level: usize,
    low: usize,
    high: usize,
}

// The bucket of a row.
#[tactic(auto, unfolding(bdd::specs::code::Store::bucket))]
fn bucket_of(limit: usize, node: Node) -> usize
    requires { (1 ≤ limit) × (node.level < 2 ^ 32) × (node.low < 2 ^ 32) × (node.high < 2 ^ 32) }
    ensures { (result ≡ bucket limit node.level node.low node.high) × (result < limit) }
{
    (node.level + 31 * node.low + 1009 * node.high) % limit
}

// The level and the edges of row i.
fn node_of(rows: &[u32], i: usize) -> Node
    requires { i * 4 ≤ length rows.now }
    ensures is { Is rows.now i result.level result.low result.high }
    ensures small { (result.level < 2 ^ 32) × (result.low < 2 ^ 32) × (result.high < 2 ^ 32) }
{
    Node {
        level: level_of(rows, i),
        low: low_of(rows, i),
        high: high_of(rows, i),
    }
}

// The row with this level and these edges.
// The chain of a bucket is linked in the words of the rows, so the walk along it is a `while`.
fn find(store: &RowStore<'_>, node: Node) -> Option<usize>
    requires { NewRow store.now.rows.now store.now.used node.level node.low node.high }
    ensures { Found store.now.rows.now store.now.used node.level node.low node.high result }
{
    if store.used == 0 {
        return None;
    }
    let b = bucket_of(store.limit, node);
    let mut i = head_of(store.rows, b);
    while i != 0 {
        if node_of(store.rows, i) == node {
            return Some(i);
        }
        i = next_of(store.rows, i);
    }
    None
}

// Writes row used + 1 and makes it the head of its bucket.
// It takes the slice: from the first word written until `used` is raised too, the rows are no store.
fn add(rows: &mut [u32], used: usize, limit: usize, node: Node)
    requires room { StoreRoom rows.old limit (used + 1) }
    requires row { NewRow rows.old used node.level node.low node.high }
    ensures { rows.new ≡ added rows.old limit used node.level node.low node.high }
{
    let b = bucket_of(limit, node);
    let next = head_of(rows, b);
    put_word(rows, Word::Low, used + 1, node.low * RADIX + node.level);
    put_word(rows, Word::High, used + 1, node.high * RADIX);
    put_word(rows, Word::Next, used + 1, next);
    put_word(rows, Word::Head, b + 1, used + 1);
}

// The reference whose cofactors at the level are low and high, its row found or added; none where no row is left.
pub fn make(store: &mut RowStore<'_>, level: usize, low: usize, high: usize) -> Option<usize>
    requires level { (1 ≤ level) × (level < MARK) }
    requires low { Reference store.old.rows.now store.old.used (level - 1) low }
    requires high { Reference store.old.rows.now store.old.used (level - 1) high }
    ensures same { SameSlice store.old store.new }
    ensures made { MakesIn store.old store.new level low high result }
{
    if low == high {
        return Some(low);
    }
    let a = edge_to(low, low);
    let b = edge_to(high, low);
    let node = Node {
        level,
        low: a,
        high: b,
    };
    if let Some(i) = find(store, node) {
        return Some(edge_to(i * 2, low));
    }
    let used = store.used;
    if used == store.limit {
        return None;
    }
    add(store.rows, used, store.limit, node);
    store.used = used + 1;
    Some(edge_to((used + 1) * 2, low))
}

// An empty store for a row limit.
pub fn clear<'a>(rows: &'a mut [u32], limit: usize) -> RowStore<'a>
    requires { StoreRoom rows.old limit 0 }
    ensures same { (result.rows.ghost_name ≡ rows.entry.ghost_name) × (result.limit ≡ limit) × (result.used ≡ 0) × (length result.rows.now ≡ length rows.old) }
    ensures cleared { Cleared rows.old result.rows.now limit }
{
    for b in 0..limit {
        put_word(rows, Word::Head, b + 1, 0);
    }
    RowStore {
        rows,
        limit,
        used: 0,
    }
}

// The bucket of row i has the next row of i as its head.
// It takes the slice: until `used` is lowered too, the rows are no store.
fn unlink(rows: &mut [u32], limit: usize, i: usize)
    requires { (1 ≤ i) × StoreRoom rows.old limit i }
    ensures { rows.new ≡ unlinked rows.old limit i }
{
    let b = bucket_of(limit, node_of(rows, i));
    let next = next_of(rows, i);
    put_word(rows, Word::Head, b + 1, next);
}

// Gives back the rows above kept.
// The rows in use are the store's own count, which each row given back lowers: a `for` would count them beside it.
pub fn give_back(store: &mut RowStore<'_>, kept: usize)
    requires { kept ≤ store.old.used }
    ensures same { SameSlice store.old store.new }
    ensures used { store.new.used ≡ kept }
    ensures given_back { GivenBack store.old.rows.now store.new.rows.now store.old.limit store.old.used kept }
{
    while kept < store.used {
        let i = store.used;
        unlink(store.rows, store.limit, i);
        store.used = i - 1;
    }
}
