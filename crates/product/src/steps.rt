// The steps of products, counted against their limit.
ghost use Rattle.std.specs.Prelude.{◌<◌, ◌^◌, ◌≤◌, ◌≡◌};

// The limit that a product passed.
#[derive(Clone, Copy, Debug, PartialEq, Eq)]
pub enum Short {
    Rows,
    Steps,
}

// The steps taken, and the most that may be.
#[derive(Clone, Copy)]
pub struct Steps {
    pub taken: usize,
    pub most: usize,
    pub ghost within: { (taken ≤ most) × (most < 2 ^ 32) },
}

impl Steps {
    ghost use Rattle.product.specs.Steps.{Takes};

    // One step more, or short of steps.
    pub(crate) fn take(&mut self) -> Result<(), Short>
        ensures most { self.new.most ≡ self.old.most }
        ensures taken { Takes self.old self.new result }
    {
        if self.most <= self.taken {
            return Err(Short::Steps);
        }
        self.taken += 1;
        Ok(())
    }
}
