// Words of a slice: written from a place on, and the two words of a vertex.
#![tactic(auto)]

ghost use Rattle.std.specs.Prelude.{◌*◌, ◌+◌, ◌<◌, ◌^◌, ◌≤◌, length, ◌≡◌};
ghost use Rattle.aig.specs.Lookup.{first_word, own_words, second_word, with_row};
ghost use Rattle.text.specs.Decimal.{Stored, written};

// Copies words into a slice from a place on, and gives back the place after them.
pub fn copy(words: &[u32], to: &mut [u32], at: usize) -> usize
    requires { at + length words.now ≤ length to.old }
    ensures { Stored to.old at words.now to.new result }
{
    let end = at + words.len();
    to[at..end].copy_from_slice(words);
    end
}

// The words of the first vertices: each holds its own literal twice.
pub fn write_own(pairs: &mut [u32], count: u32)
    requires { (count < 2 ^ 31) × (2 * count ≤ length pairs.old) }
    ensures { pairs.new ≡ written pairs.old 0 (own_words 0 count) }
{
    for v in 0..count {
        set_words(pairs, v, 2 * v, 2 * v);
    }
}

// The two words of a vertex, in a slice of single words: the caller lends such slices, and no other form of them is held beside.
pub fn first_word(words: &[u32], v: u32) -> u32
    requires { 2 * v < length words.now }
    ensures { result ≡ first_word words.now v }
{
    words[2 * v as usize]
}

pub fn second_word(words: &[u32], v: u32) -> u32
    requires { 2 * v + 1 < length words.now }
    ensures { result ≡ second_word words.now v }
{
    words[2 * v as usize + 1]
}

pub fn set_words(words: &mut [u32], v: u32, p: u32, q: u32)
    requires { 2 * v + 1 < length words.old }
    ensures { words.new ≡ with_row words.old v p q }
{
    let at = 2 * v as usize;
    words[at] = p;
    words[at + 1] = q;
}
