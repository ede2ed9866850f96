// Rows of four words in a lent slice. Row i (from 1 on) stands at (i - 1) * 4; row 0 is the constant and is not stored.
// Where a word names a row or a vertex, 0 stands for none, as the words hold it: an `Option` would be packed and unpacked at each.
ghost use Rattle.std.specs.Prelude.{◌*◌, ◌+◌, ◌<◌, ◌^◌, ◌≤◌, IsTrue, length, ◌↔◌, ◌≡◌};
ghost use Rattle.bdd.specs.code.Owners.{with_owner};
ghost use Rattle.bdd.specs.code.Rows.{MARK, RADIX, child, head_at, high_at, level_at, low_at, mark_at, next_at, owner_at, put, word_at};
ghost use Rattle.bdd.specs.code.Words.{place};

// A row's low reference, and its high one, are multiples of this.
pub const RADIX: usize = 8192;

// The mark's place below the low reference; the level stands below the mark.
pub const MARK: usize = 4096;

// The words of a row, in their order.
#[derive(Clone, Copy, Debug, PartialEq, Eq)]
pub enum Word {
    // `low * RADIX + mark * MARK + level`
    Low,
    // `high * RADIX + owner`
    High,
    // `next`
    Next,
    // The head of bucket i - 1, in row i.
    Head,
}

// A word of row i.
pub fn word_of(rows: &[u32], word: Word, i: usize) -> usize
    requires { i * 4 ≤ length rows.now }
    ensures { (result ≡ word_at rows.now (place word) i) × (result < 2 ^ 32) }
{
    if i == 0 {
        return 0;
    }
    rows[(i - 1) * 4 + word as usize] as usize
}

// Writes a word of row i.
pub fn put_word(rows: &mut [u32], word: Word, i: usize, w: usize)
    requires { (1 ≤ i) × (i * 4 ≤ length rows.old) × (w < 2 ^ 32) }
    ensures { rows.new ≡ put rows.old (place word) i w }
{
    rows[(i - 1) * 4 + word as usize] = w as u32;
}

// Row i's level, 0 for the constant.
#[tactic(auto, unfolding(crate::specs::code::Rows::level_at))]
pub fn level_of(rows: &[u32], i: usize) -> usize
    requires { i * 4 ≤ length rows.now }
    ensures { (result ≡ level_at rows.now i) × (result < MARK) }
{
    word_of(rows, Word::Low, i) % MARK
}

// Whether row i is marked.
#[tactic(auto, unfolding(crate::specs::code::Rows::mark_at))]
pub fn is_marked(rows: &[u32], i: usize) -> bool
    requires { i * 4 ≤ length rows.now }
    ensures { IsTrue result ↔ mark_at rows.now i ≡ 1 }
{
    word_of(rows, Word::Low, i) / MARK % 2 == 1
}

// Row i's reference where its input is 0.
#[tactic(auto, unfolding(crate::specs::code::Rows::low_at))]
pub fn low_of(rows: &[u32], i: usize) -> usize
    requires { i * 4 ≤ length rows.now }
    ensures { (result ≡ low_at rows.now i) × (result < 2 ^ 19) }
{
    word_of(rows, Word::Low, i) / RADIX
}

// Row i's reference where its input is 1.
#[tactic(auto, unfolding(crate::specs::code::Rows::high_at))]
pub fn high_of(rows: &[u32], i: usize) -> usize
    requires { i * 4 ≤ length rows.now }
    ensures { (result ≡ high_at rows.now i) × (result < 2 ^ 19) }
{
    word_of(rows, Word::High, i) / RADIX
}

// Row i's reference where its input has the digit b.
pub fn child_of(rows: &[u32], b: bool, i: usize) -> usize
    requires { i * 4 ≤ length rows.now }
    ensures { result ≡ child rows.now b i }
{
    if b { high_of(rows, i) } else { low_of(rows, i) }
}

// The next lower row of row i's bucket, 0 for none.
#[tactic(auto, unfolding(crate::specs::code::Rows::next_at))]
pub fn next_of(rows: &[u32], i: usize) -> usize
    requires { i * 4 ≤ length rows.now }
    ensures { (result ≡ next_at rows.now i) × (result < 2 ^ 32) }
{
    word_of(rows, Word::Next, i)
}

// The highest row of bucket b, 0 for none.
#[tactic(auto, unfolding(crate::specs::code::Rows::head_at))]
pub fn head_of(rows: &[u32], b: usize) -> usize
    requires { b * 4 + 4 ≤ length rows.now }
    ensures { (result ≡ head_at rows.now b) × (result < 2 ^ 32) }
{
    word_of(rows, Word::Head, b + 1)
}

// The vertex whose function row i has, 0 for none.
#[tactic(auto, unfolding(crate::specs::code::Rows::owner_at))]
pub fn owner_of(rows: &[u32], i: usize) -> usize
    requires { i * 4 ≤ length rows.now }
    ensures { (result ≡ owner_at rows.now i) × (result < RADIX) }
{
    word_of(rows, Word::High, i) % RADIX
}

// Row i has the owner x, and nothing else is changed.
#[tactic(auto, unfolding(crate::specs::code::Owners::with_owner))]
pub fn set_owner(rows: &mut [u32], i: usize, x: usize)
    requires { (1 ≤ i) × (i * 4 ≤ length rows.old) × (x < RADIX) }
    ensures { rows.new ≡ with_owner rows.old i x }
{
    let high = high_of(rows, i);
    put_word(rows, Word::High, i, high * RADIX + x);
}
