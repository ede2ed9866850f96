// The look-up of vertices by their pairs (structural hashing), in a lent slice of two words a vertex: `places` heads, then `places` next words.
#![tactic(auto)]

ghost use Rattle.std.specs.Prelude.{◌≡◌, ◌+◌, ◌*◌, ◌<◌, ◌≤◌, length, ◌≢◌};
ghost use Rattle.aig.specs.Lookup.{Indexed, cleared, entered, first_place, first_vertex, has_pair};

// The place whose chain holds the pair's vertex.
#[tactic(auto, unfolding(aig::specs::Lookup::first_place))]
fn first_place(places: usize, p: u32, q: u32) -> usize
    requires { 1 ≤ places }
    ensures { (result ≡ first_place places p q) × (result < places) }
{
    p.wrapping_add(q) as usize % places
}

fn has_pair(pairs: &[u32], v: u32, p: u32, q: u32) -> bool
    requires { 2 * v + 1 < length pairs.now }
    ensures { result ≡ has_pair pairs.now v p q }
{
    let at = 2 * v as usize;
    pairs[at] == p && pairs[at + 1] == q
}

// Empties every place. The next words stay as they are.
pub fn clear(look: &mut [u32], places: usize)
    requires { places ≤ length look.old }
    ensures { look.new ≡ cleared look.old places }
{
    look[..places].fill(0);
}

// The first vertex below `count` whose words are p and q. The walk needs no count: the contract does.
// `pairs`, `look` and `places` are parameters and no struct: the callers hold the slices in structs of their own, beside others.
// A place's chain is linked in the words of the look-up, so the walk along it is a `while`, and 0 ends it.
pub fn find_vertex(
    pairs: &[u32],
    count: u32,
    look: &[u32],
    places: usize,
    p: u32,
    q: u32,
) -> Option<u32>
    requires index { Indexed pairs.now count look.now places }
    requires apart { p ≢ q }
    ensures { result ≡ first_vertex pairs.now p q count }
{
    let mut v = look[first_place(places, p, q)];
    while 0 < v {
        if has_pair(pairs, v, p, q) {
            return Some(v);
        }
        v = look[places + v as usize];
    }
    None
}

// Vertex v, higher than every vertex entered before it, takes the head of its pair's place.
pub fn enter(look: &mut [u32], places: usize, v: u32, p: u32, q: u32)
    requires { (v < places) × (2 * places ≤ length look.old) }
    ensures { look.new ≡ entered look.old places v p q }
{
    let place = first_place(places, p, q);
    look[places + v as usize] = look[place];
    look[place] = v;
}
