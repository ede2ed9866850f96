// The size of a diagram: the rows reached from a reference, each counted once. A first pass marks and counts them, a second wipes the marks.
#![tactic(auto)]

ghost use Rattle.std.specs.Prelude.{◌*◌, ◌/◌, ◌≤◌, length, ◌≡◌};
ghost use Rattle.bdd.specs.Diagram.{Canonical};
ghost use Rattle.bdd.specs.code.Rows.{mark_at};
ghost use Rattle.bdd.specs.code.Slice.{SameSlice};
ghost use Rattle.bdd_size.specs.code.Marks.{Marks, Sized, WipeReady, Wipes, marked, wiped};

use bdd::rows::{MARK, Word, high_of, is_marked, low_of, put_word, word_of};
use bdd::store::RowStore;

// Marks row i.
fn set_mark(rows: &mut [u32], i: usize)
    requires { (1 ≤ i) × (i * 4 ≤ length rows.old) × (mark_at rows.old i ≡ 0) }
    ensures { rows.new ≡ marked rows.old i }
{
    let w = word_of(rows, Word::Low, i);
    put_word(rows, Word::Low, i, w + MARK);
}

// Takes the mark off row i. A function of both marks would take the word to write, and do no more than `put_word`.
fn clear_mark(rows: &mut [u32], i: usize)
    requires { (1 ≤ i) × (i * 4 ≤ length rows.old) × (mark_at rows.old i ≡ 1) }
    ensures { rows.new ≡ wiped rows.old i }
{
    let w = word_of(rows, Word::Low, i);
    put_word(rows, Word::Low, i, w - MARK);
}

// Marks the rows reached from row i, and counts those that were not marked.
fn mark(rows: &mut [u32], i: usize) -> usize
    requires { Canonical rows.old i × (i * 4 ≤ length rows.old) }
    ensures { Marks rows.old rows.new i result }
{
    if i == 0 {
        return 0;
    }
    if is_marked(rows, i) {
        return 0;
    }
    let low = low_of(rows, i) / 2;
    let high = high_of(rows, i) / 2;
    let low_count = mark(rows, low);
    let high_count = mark(rows, high);
    set_mark(rows, i);
    low_count + high_count + 1
}

// Wipes the marks of the rows reached from row i.
// Not one function with `mark`: it asks for marked rows, and promises no count.
fn wipe(rows: &mut [u32], i: usize)
    requires { WipeReady rows.old i }
    ensures { Wipes rows.old rows.new i }
{
    if !is_marked(rows, i) {
        return;
    }
    let low = low_of(rows, i) / 2;
    let high = high_of(rows, i) / 2;
    wipe(rows, low);
    wipe(rows, high);
    clear_mark(rows, i);
}

// The size of the function of r.
pub fn size(store: &mut RowStore<'_>, r: usize) -> usize
    requires { r / 2 ≤ store.old.used }
    ensures same { SameSlice store.old store.new × (store.new.used ≡ store.old.used) }
    ensures sized { Sized store.old.rows.now store.new.rows.now r result }
{
    let rows = &mut *store.rows;
    let count = mark(rows, r / 2);
    wipe(rows, r / 2);
    count
}
