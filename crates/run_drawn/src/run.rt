// What all pairs use: the allocator, the slices lent, the drawn numbers and the counts.
use crate::memory::Memory;
use crate::random::Random;
use crate::tally::Tally;
use std::alloc::{AllocError, Global};

#[derive(Drop)]
pub struct Run {
    pub alloc: Global,
    pub memory: Memory,
    pub random: Random,
    pub tally: Tally,
}

impl Run {
    pub fn new(alloc: Global) -> Result<Run, AllocError> {
        Ok(Run {
            alloc,
            memory: Memory::new(alloc)?,
            random: Random::new(7),
            tally: Tally::default(),
        })
    }
}
