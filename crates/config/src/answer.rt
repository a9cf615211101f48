// What calls answer, and the number of each answer.
ghost use Rattle.std.specs.Prelude.{◌≡◌, ℕ};
ghost use Rattle.config.specs.Refusal.{number_of, none_number, result_number};

use crate::refusal::{ACCEPTED, Refusal};

// An answer has a number: 0 where the call was accepted.
pub trait Numbered {
    ghost number_is: { Self → ℕ };

    fn number(&self) -> u8
        ensures { result ≡ number_is self.now };
}

impl Numbered for Refusal {
    ghost number_is = { number_of };

    fn number(&self) -> u8 {
        u8::from(*self)
    }
}

// A call that gives nothing back.
impl Numbered for () {
    ghost number_is = { none_number };

    fn number(&self) -> u8 {
        ACCEPTED
    }
}

impl<T: Numbered> Numbered for Result<T, Refusal> {
    ghost number_is = { result_number T.number_is };

    fn number(&self) -> u8 {
        match self {
            Ok(told) => told.number(),
            Err(refusal) => refusal.number(),
        }
    }
}
