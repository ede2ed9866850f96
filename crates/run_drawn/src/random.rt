// A linear congruential generator: what is drawn from is the upper half of its state.
ghost use Rattle.std.specs.Prelude.{◌<◌};

#[derive(Drop)]
pub struct Random(u32);

impl Random {
    pub fn new(seed: u32) -> Random {
        Random(seed)
    }

    fn next(&mut self) -> u32 {
        self.0 = self.0.wrapping_mul(1664525).wrapping_add(1013904223);
        self.0 / 65536
    }

    // A number below n.
    pub fn draw(&mut self, n: usize) -> usize
        requires { 0 < n }
        ensures { result < n }
    {
        self.next() as usize % n
    }

    // The larger of two: late ones come more often.
    pub fn draw_late(&mut self, n: usize) -> usize
        requires { 0 < n }
        ensures { result < n }
    {
        let one = self.draw(n);
        let two = self.draw(n);
        one.max(two)
    }
}
