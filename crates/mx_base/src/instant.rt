ghost use Rattle.std.specs.Prelude.{◌≡◌, ◌↔◌, ◌+◌, ◌<◌, ◌^◌, IsOk, IfOk};
ghost use Rattle.std.specs.Option.{SomeIff};
ghost use Rattle.mx_base.specs.Digits.{instant_text, IsInstant};

use crate::ascii::ascii_text;
use crate::digits::read_digits;
use mx_lists::Text;
use std::alloc::{AllocError, Global};
use std::marker::Model;

/// A text that is no name of the kind asked for.
#[derive(Clone, Copy, Debug, PartialEq, Eq)]
pub struct BadName;

/// A moment of a table's timeline, written as seventeen digits; 0 where no instant is meant.
#[derive(Clone, Copy, Debug, PartialEq, Eq, PartialOrd, Ord)]
pub struct Instant {
    number: u64,
}

impl Model for Instant {
    ghost use Rattle.std.specs.Prelude.{ℕ, ◌<◌, ◌^◌};

    ghost Value = { ℕ };

    ghost view = { λ i. i.number };

    ghost invariant = { λ i. i.number < 10 ^ 17 };

    ghost inverse = { λ n. record { number = n } };
}

impl Instant {
    /// The instant of a number of at most seventeen digits.
    pub fn new(number: u64) -> Option<Instant>
        ensures { SomeIff result (number < 10 ^ 17) number }
    {
        if number > 99_999_999_999_999_999 {
            return None;
        }
        Some(Instant { number })
    }

    pub(crate) fn of_number(number: u64) -> Instant
        requires { number < 10 ^ 17 }
        ensures { result ≡ number }
    {
        Instant { number }
    }

    /// The instant after it, where it is not the greatest.
    pub fn next(self) -> Option<Instant>
        ensures { SomeIff result (self + 1 < 10 ^ 17) (self + 1) }
    {
        Instant::new(self.number + 1)
    }

    /// Its number.
    pub fn number(self) -> u64
        ensures value { result ≡ self }
        ensures bound { result < 10 ^ 17 }
    {
        self.number
    }

    /// The instant that a text is.
    pub fn parse(text: &str) -> Result<Instant, BadName>
        ensures ok { IsOk result ↔ IsInstant text.now }
        ensures value { IfOk result (λ i. text.now ≡ instant_text i) }
    {
        let bytes = text.as_bytes();
        if bytes.len() != 17 {
            return Err(BadName);
        }
        match read_digits(bytes) {
            Some(number) => Ok(Instant { number }),
            None => Err(BadName),
        }
    }

    /// Its seventeen digits.
    pub fn print(self) -> [u8; 17]
        ensures { result ≡ instant_text self }
    {
        seventeen_digits(self.number)
    }

    /// Its seventeen digits as a text.
    pub fn to_text(self, alloc: Global) -> Result<Text, AllocError>
        ensures value { IfOk result (λ text. text ≡ instant_text self) }
        ensures bound { self < 10 ^ 17 }
    {
        let digits = self.print();
        Text::from_str(alloc, ascii_text(&digits))
    }
}

// The digits are written from the last place on.
fn seventeen_digits(number: u64) -> [u8; 17]
    requires { number < 10 ^ 17 }
    ensures { result ≡ instant_text number }
{
    let mut out = [b'0'; 17];
    let mut rest = number;
    let mut place = 17usize;
    while place > 0 {
        place -= 1;
        out[place] = b'0' + (rest % 10) as u8;
        rest /= 10;
    }
    out
}
