// Why the wire declines.
ghost use Rattle.std.specs.Prelude.{◌≡◌, Ok};
ghost use Rattle.lattice.specs.Ops.{walked};
ghost use Rattle.wire.specs.Faults.{granted, number};

use lattice::kind::Kind;
use lattice::narrow::Narrow;
use thiserror::Error;

// Each has the number by which support knows it, and what to tell a person, of which no contract speaks.
#[derive(Clone, Copy, PartialEq, Eq, Debug, Error)]
pub enum WireFault {
    #[error("the kind has more than 1,024 slots")]
    Wide = 3,
    #[error("the buffer has no place for the datagram")]
    Room = 11,
    // Under 10 bytes, or the length field differs from the bytes given.
    #[error("the length field is not the number of bytes")]
    Length = 13,
    // Neither a delta's nor an acknowledgement's.
    #[error("the sort is unknown")]
    Sort = 14,
    #[error("what follows the header does not fit")]
    Body = 16,
}

impl WireFault {
    // A `From` for each enum of faults would say the same in more lines.
    pub fn number(self) -> u8
        ensures { result ≡ number self }
    {
        self as u8
    }
}

// Refuses a kind whose slots are too many to be walked.
pub(crate) fn check_width<K: Kind>() -> Result<Narrow<K>, WireFault>
    ensures { granted result ≡ walked K.ops (Ok tt) }
{
    Narrow::check().map_err(|_| WireFault::Wide)
}
