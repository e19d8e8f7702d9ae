// Why a kind declines.
ghost use Rattle.std.specs.Prelude.{◌≡◌};
ghost use Rattle.lattice.specs.Faults.{number};

use thiserror::Error;

// Each has the number by which support knows it, and what to tell a person, of which no contract speaks.
#[derive(Clone, Copy, PartialEq, Eq, Debug, Error)]
pub enum KindFault {
    #[error("the kind has more than 1,024 slots")]
    Wide = 3,
    #[error("the acting replica is 8 or more")]
    Actor = 4,
    #[error("the place leads nowhere in the kind")]
    Place = 5,
    #[error("the kind has no such verb")]
    Verb = 6,
    #[error("the amount is outside the verb's range")]
    Amount = 7,
    #[error("the two-phase set bars the verb")]
    Barred = 8,
    #[error("a level would pass 4,294,967,295")]
    Overflow = 9,
}

impl KindFault {
    // A `From` for each enum of faults would say the same in more lines.
    pub fn number(self) -> u8
        ensures { result ≡ number self }
    {
        self as u8
    }
}
