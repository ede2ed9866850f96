// The editions of a drawing file: inputs paired by place, and by name.
ghost use Rattle.std.specs.Prelude.{◌≡◌};
ghost use Rattle.netlist_model.specs.Limits.{EditionRead, number_of_edition};

#[derive(Clone, Copy, Debug, PartialEq, Eq)]
pub enum Edition {
    ByPlace,
    ByName,
}

// A number that is no edition's.
#[derive(Clone, Copy, Debug, PartialEq, Eq)]
pub struct UnknownEdition(pub u32);

impl From<Edition> for u32 {
    ghost from_gives = { λ edition number. number ≡ number_of_edition edition };

    fn from(edition: Edition) -> u32 {
        match edition {
            Edition::ByPlace => 1,
            Edition::ByName => 2,
        }
    }
}

impl TryFrom<u32> for Edition {
    type Error = UnknownEdition;

    ghost try_from_gives = { EditionRead };

    fn try_from(number: u32) -> Result<Edition, UnknownEdition> {
        match number {
            1 => Ok(Edition::ByPlace),
            2 => Ok(Edition::ByName),
            _ => Err(UnknownEdition(number)),
        }
    }
}
