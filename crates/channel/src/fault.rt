// Why a channel declines.
ghost use Rattle.std.specs.Prelude.{◌≡◌};
ghost use Rattle.channel.specs.Faults.{number};

use thiserror::Error;

// Each has the number by which support knows it, and what to tell a person, of which no contract speaks.
#[derive(Clone, Copy, PartialEq, Eq, Debug, Error)]
pub enum ChannelFault {
    #[error("the receiver is 8 or more")]
    Receiver = 4,
    // In a take.
    #[error("the buffer is shorter than the datagram")]
    Room = 11,
    // Also for a datagram of 0 or over 10,252 bytes.
    #[error("the channel has no space for the datagram")]
    Space = 12,
    // At the making of a queue or a mailbox.
    #[error("the memory lent is under 128 or over 65,536 bytes")]
    Size = 18,
}

impl ChannelFault {
    // A `From` for each enum of faults would say the same in more lines.
    pub fn number(self) -> u8
        ensures { result ≡ number self }
    {
        self as u8
    }
}
