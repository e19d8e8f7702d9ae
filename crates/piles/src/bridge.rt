// A bridge between two channels, whatever they are made of.
ghost use Rattle.piles.specs.Bridges.{NoneMadeUp, NoneNew};

use channel::channel::Channel;
use channel::fault::ChannelFault;

// Carries one datagram from a channel to another, through a buffer; answers whether one was ready. What the second channel
// refuses is gone, as on any line. Nothing is made up: all that waits afterwards waited before, on one side or the other.
pub fn bridge<C: Channel, D: Channel>(
    from: &mut C,
    to: &mut D,
    receiver: u8,
    buf: &mut [u8],
) -> Result<bool, ChannelFault>
    ensures left { NoneNew (C.waits from.old) (C.waits from.new) }
    ensures right { NoneMadeUp (D.waits to.old) (C.waits from.old) (D.waits to.new) }
{
    let Some(len) = from.take(receiver, buf)? else {
        return Ok(false);
    };
    to.put(receiver, &buf[..len])?;
    Ok(true)
}
