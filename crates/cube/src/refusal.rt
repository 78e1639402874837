// Why a job refuses what it is given.
ghost use Rattle.std.specs.Prelude.{◌≡◌, cond, Ok, Err, Some};
ghost use Rattle.cube.specs.Refusals.{number_in, words_of};

use std::error::Error;
use std::fmt;

// What is wrong. Document 01 fixes each one's number.
#[derive(Clone, Copy, Debug, PartialEq, Eq)]
pub enum Refusal {
    // n is not from 1 to 10.
    Dimension = 1,
    // A slice has not the length that n asks for.
    Length = 2,
    // A link word marks a dimension above n.
    LinkWord = 3,
    // A node or a relative address is none of this cube.
    Address = 4,
    // The board that is asked isn't working.
    Source = 5,
    // The destination's board isn't working.
    Destination = 6,
    // No neighbour of the source leads on.
    NoRoute = 7,
    // The source's own bit is 1, and no neighbour leads on.
    NotBorneOut = 8,
    // No neighbour of a later board leads on.
    NothingToOffer = 9,
    // The bytes are no report record.
    Malformed = 10,
    // The bytes are no status record.
    LogRecord = 11,
    // A status record names a node that the cube lacks.
    LogNode = 12,
}

impl Refusal {
    // This refusal, unless a test passes.
    pub fn unless(self, passes: bool) -> Result<(), Refusal>
        ensures { result ≡ cond passes (Ok tt) (Err self) }
    {
        if passes { Ok(()) } else { Err(self) }
    }
}

impl From<Refusal> for u32 {
    ghost from_gives = { λ refusal number. number ≡ number_in refusal };

    // The number of a refusal.
    fn from(refusal: Refusal) -> u32 {
        refusal as u32
    }
}

impl fmt::Display for Refusal {
    ghost output = { λ refusal. Some (words_of refusal) };

    fn fmt<W: fmt::Write>(&self, f: &mut fmt::Formatter<W>) -> fmt::Result {
        write!(f, "refused {}", u32::from(*self))
    }
}

impl Error for Refusal {}
