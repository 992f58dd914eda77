ghost use Rattle.std.specs.Prelude.{◌≡◌, ◌≤◌};
ghost use Rattle.std.specs.Option.{SomeIff};

use std::marker::Model;

/// The number of a seat, at most 16.
#[derive(Clone, Copy, Debug, PartialEq, Eq, PartialOrd, Ord)]
pub struct Seat {
    number: u8,
}

impl Model for Seat {
    ghost use Rattle.std.specs.Prelude.{ℕ, ◌≤◌};

    ghost Value = { ℕ };

    ghost view = { λ s. s.number };

    ghost invariant = { λ s. s.number ≤ 16 };

    ghost inverse = { λ n. record { number = n } };
}

impl Seat {
    /// The seat of a number up to 16.
    pub fn new(number: u8) -> Option<Seat>
        ensures { SomeIff result (number ≤ 16) number }
    {
        if number > 16 {
            return None;
        }
        Some(Seat { number })
    }

    /// Its number.
    pub fn number(self) -> u8
        ensures value { result ≡ self }
        ensures bound { result ≤ 16 }
    {
        self.number
    }
}
