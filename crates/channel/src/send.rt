// Sending a finished datagram.
ghost use Rattle.std.specs.Prelude.{◌≡◌};
ghost use Rattle.wire.specs.Drafts.{checking};
ghost use Rattle.channel.specs.Meaning.{PutLeaves, put_answer};
ghost use Rattle.channel.specs.Sending.{refusal, sending, told};
ghost use Rattle.channel.specs.declared.send.SendFault.TheVariants.{Wire as from_wire, Channel as from_channel};

use crate::channel::Channel;
use crate::fault::ChannelFault;
use lattice::kind::Kind;
use lattice::refusal::{Layer, Refusal};
use thiserror::Error;
use wire::draft::Sealed;
use wire::fault::WireFault;

// Why sending declines: a fault of the layer that found it, with its words.
#[derive(Clone, Copy, PartialEq, Eq, Debug, Error)]
pub enum SendFault {
    #[error(transparent)]
    Wire(WireFault),
    #[error(transparent)]
    Channel(ChannelFault),
}

impl SendFault {
    // The layer that refused, and by which number. A `From` would be as long, and want the type written at each call.
    pub fn refusal(self) -> Refusal
        ensures { result ≡ refusal self }
    {
        match self {
            SendFault::Wire(fault) => Refusal {
                layer: Layer::Wire,
                number: fault.number(),
            },
            SendFault::Channel(fault) => Refusal {
                layer: Layer::Channel,
                number: fault.number(),
            },
        }
    }
}

// By hand, since `send`'s contract has to know which case a `?` makes.
impl From<WireFault> for SendFault {
    ghost from_gives = { λ e r. r ≡ from_wire e };

    fn from(fault: WireFault) -> SendFault {
        SendFault::Wire(fault)
    }
}

impl From<ChannelFault> for SendFault {
    ghost from_gives = { λ e r. r ≡ from_channel e };

    fn from(fault: ChannelFault) -> SendFault {
        SendFault::Channel(fault)
    }
}

// Puts the bytes of a sealed datagram for the receiver that its header names, once they are found to be a datagram of
// its header and count. The datagram is lent, so that a sending that found no space can be tried again.
pub fn send<K: Kind, C: Channel>(
    sealed: &Sealed,
    bytes: &[u8],
    channel: &mut C,
) -> Result<(), SendFault>
    ensures answer { told result ≡ sending (checking K.ops sealed.now bytes.now) (put_answer sealed.now.header.to bytes.now (C.denies channel.old sealed.now.header.to bytes.now)) }
    ensures after { PutLeaves C.puts channel.old sealed.now.header.to bytes.now channel.new result }
{
    sealed.check::<K>(bytes)?;
    channel.put(sealed.header().to, bytes)?;
    Ok(())
}
