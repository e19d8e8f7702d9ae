// What a datagram is.
ghost use Rattle.std.specs.Prelude.{◌≡◌};
ghost use Rattle.wire.specs.Datagrams.{header_of};
ghost use Rattle.wire.specs.Sorts.{Decodes, code};

use crate::fault::WireFault;

// Who sends a datagram, to whom, and under which number.
#[derive(Clone, Copy, PartialEq, Eq, Debug)]
pub struct Header {
    pub from: u8,
    pub to: u8,
    pub number: u32,
}

// A sort has the number by which a datagram names it.
#[derive(Clone, Copy, PartialEq, Eq, Debug)]
pub enum Sort {
    Delta = 1,
    Ack = 2,
}

impl Sort {
    pub(crate) fn code(self) -> u16
        ensures { result ≡ code self }
    {
        self as u16
    }
}

impl TryFrom<u16> for Sort {
    type Error = WireFault;

    ghost try_from_gives = { Decodes };

    fn try_from(code: u16) -> Result<Sort, WireFault> {
        match code {
            1 => Ok(Sort::Delta),
            2 => Ok(Sort::Ack),
            _ => Err(WireFault::Sort),
        }
    }
}

// A datagram as read: a delta has the value that its parts join to.
#[derive(Clone, Copy)]
pub enum Datagram<K> {
    Delta(Header, K),
    Ack(Header),
}

impl<K> Datagram<K> {
    pub fn header(&self) -> Header
        ensures { result ≡ header_of self.now }
    {
        match self {
            Datagram::Delta(header, _) | Datagram::Ack(header) => *header,
        }
    }
}
