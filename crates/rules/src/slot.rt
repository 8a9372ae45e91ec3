// A place in the table of transactions.
ghost use Rattle.std.specs.Prelude.{◌≡◌, ◌<◌, ℕ};

use std::marker::Model;

// One of the 32 places of the table. A clause sees its number.
#[derive(Clone, Copy)]
pub(crate) struct Slot {
    index: usize,
}

impl Model for Slot {
    ghost Value = { ℕ };

    ghost view = { λ s. s.index };

    ghost invariant = { λ s. s.index < 32 };

    ghost inverse = { λ t. record { index = t } };
}

impl Slot {
    // The place of this number.
    pub(crate) fn at(index: usize) -> Slot
        requires { index < 32 }
        ensures { result ≡ index }
    {
        Slot { index }
    }

    // Its number, which is one of a place.
    pub(crate) fn index(self) -> usize
        ensures is { result ≡ self }
        ensures below { result < 32 }
    {
        self.index
    }
}
