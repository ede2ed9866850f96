// What became of a vertex, which its byte in the marks says.
ghost use Rattle.std.specs.Prelude.{◌≡◌};
ghost use Rattle.sweep_state.specs.code.Marks.{mark_byte};

// No product was taken; swept, or an input given its row; its product ended and is too large; named by Rows or Steps.
#[derive(Clone, Copy, Debug, PartialEq, Eq)]
pub enum Mark {
    NoProduct,
    Swept,
    TooLarge,
    Short,
}

impl From<Mark> for u8 {
    ghost from_gives = { λ mark byte. byte ≡ mark_byte mark };

    fn from(mark: Mark) -> u8 {
        match mark {
            Mark::NoProduct => 0,
            Mark::Swept => 1,
            Mark::TooLarge => 2,
            Mark::Short => 3,
        }
    }
}
