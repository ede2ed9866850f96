// The order of the inputs in a file: the input of the circuit at each place. Places and inputs are counted from 1; the constant, 0, stands at 0.
use crate::circuit::Reference;
use crate::random::Random;
use std::alloc::{AllocError, Global};

#[derive(Drop)]
pub struct Order(Vec<usize>);

impl Order {
    // Every input at its own place.
    pub fn new(alloc: Global, inputs: u32) -> Result<Order, AllocError> {
        Ok(Order((0..=inputs as usize).collect(alloc)?))
    }

    // Exchanges each input, from the last on, with a drawn one before it or with itself.
    pub fn shuffle(&mut self, random: &mut Random) {
        let places = self.0.as_mut_slice();
        for place in (2..places.len()).rev() {
            places.swap(place, 1 + random.draw(place));
        }
    }

    // The inputs, place by place.
    pub fn inputs(&self) -> &[usize] {
        self.0.get(1..).unwrap_or(&[])
    }

    fn input_at(&self, place: usize) -> usize {
        self.0.get(place).copied().unwrap_or(0)
    }

    // A reference of the circuit as it stands in the file: that of an input goes to its place.
    pub fn reference(&self, r: Reference) -> Reference {
        let vertex = r.vertex();
        match self.0.iter().position(|input| *input == vertex) {
            Some(place) => Reference::to(place).onto(r),
            None => r,
        }
    }

    // Whether there is a cycle of three: of three inputs, each at the place of the next.
    pub fn has_cycle(&self) -> bool {
        (0..self.0.len()).any(|place| self.is_in_cycle(place))
    }

    fn is_in_cycle(&self, place: usize) -> bool {
        let second = self.input_at(place);
        let third = self.input_at(second);
        second != place && self.input_at(third) == place
    }
}
