ghost use Rattle.std.specs.Prelude.{◌≤◌, drop, get_or, length, [], ◌≡◌};
ghost use Rattle.text.specs.Split.{split_at, up_to};

// The part of `s` from `at` up to the first byte `stop`, or to the end.
pub fn until(s: &[u8], at: usize, stop: u8) -> &[u8]
    requires { at ≤ length s.now }
    ensures { result.now ≡ up_to stop (drop at s.now) }
{
    part(&s[at..], 0, stop)
}

// How many parts the separators `stop` cut `s` into: one more than there are separators.
pub fn part_count(s: &[u8], stop: u8) -> usize
    ensures { result ≡ length (split_at stop s.now) }
{
    let mut count = 1;
    for b in s {
        if *b == stop {
            count += 1;
        }
    }
    count
}

// Part `k` of `s`, counted from 0; no bytes where there are no more than `k`: each caller would make an `Option` that.
pub fn part(s: &[u8], k: usize, stop: u8) -> &[u8]
    ensures { result.now ≡ get_or (split_at stop s.now) k [] }
{
    s.split(|b| *b == stop).nth(k).unwrap_or(&[])
}
