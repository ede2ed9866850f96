// A graph's words read, and the test that they are those of a graph.
ghost use Rattle.std.specs.Prelude.{◌*◌, ◌+◌, ◌<◌, ◌≤◌, length, true, ◌≡◌};
ghost use Rattle.run_sweep.specs.code.Asked.{InPlace, VERTICES};
ghost use Rattle.sweep_model.specs.Fit.{Downward};

use run_card_file::{number_at, number_count};
use words::{first_word, second_word};

// The most vertices of a graph here.
pub const VERTICES: usize = 64;

// Writes the numbers of a field to the front of `words`; an empty field leaves them as they are.
pub fn read_words(field: &[u8], words: &mut [u32]) {
    if field.is_empty() {
        return;
    }
    for (i, word) in words.iter_mut().take(number_count(field)).enumerate() {
        *word = number_at(field, i);
    }
}

// Whether the words are those of a graph of `count` vertices.
pub fn is_graph(pairs: &[u32], first: u32, count: u32) -> bool
    requires few { count ≤ VERTICES }
    requires long { 2 * count ≤ length pairs.now }
    requires within { first ≤ count }
    ensures { result ≡ true → Downward first count pairs.now }
{
    (0..count).all(|v| is_in_place(pairs, first, v))
}

// Whether a first vertex holds its own literal twice, another refers below itself.
fn is_in_place(pairs: &[u32], first: u32, v: u32) -> bool
    requires few { v < VERTICES }
    requires long { 2 * v + 1 < length pairs.now }
    ensures { result ≡ true → InPlace first v pairs.now }
{
    let p = first_word(pairs, v);
    let q = second_word(pairs, v);
    if v < first {
        return p == 2 * v && q == 2 * v;
    }
    p < 2 * v && q < 2 * v
}
