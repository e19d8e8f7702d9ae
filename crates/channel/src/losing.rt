// A layer that loses datagrams by a pattern.
ghost use Rattle.std.specs.Prelude.{◌≡◌};
ghost use Rattle.channel.specs.Losing.{LosingPuts, LosingTakes, losing_denies, losing_laws, losing_ready, losing_waits};

use crate::channel::{Channel, admit};
use crate::fault::ChannelFault;
use crate::pattern::{low_bit, turned};

// Each accepted put reads the pattern's lowest bit and turns the pattern right by one: bit 1 drops the datagram, bit 0
// passes it below. A put that is refused below is refused, and its bit is read again by the next.
#[derive(Drop)]
pub struct Losing<C> {
    pattern: u32,
    below: C,
}

impl<C: Channel> Losing<C> {
    // A layer over a channel. What waits is what waits below: nothing, if nothing does.
    pub fn new(pattern: u32, below: C) -> Losing<C>
        ensures made { result ≡ record { pattern = pattern; below = below } }
        ensures waiting { losing_waits C.waits result ≡ C.waits below }
    {
        Losing { pattern, below }
    }
}

impl<C: Channel> Channel for Losing<C> {
    ghost waits = { losing_waits C.waits };

    ghost ready = { losing_ready C.ready };

    ghost denies = { losing_denies C.denies };

    ghost puts = { LosingPuts C.puts };

    ghost takes = { LosingTakes C.takes };

    ghost sound = { losing_laws C.sound };

    fn put(&mut self, receiver: u8, bytes: &[u8]) -> Result<(), ChannelFault> {
        admit(receiver, bytes.len())?;
        if !low_bit(self.pattern) {
            self.below.put(receiver, bytes)?;
        }
        self.pattern = turned(self.pattern);
        Ok(())
    }

    fn take(&mut self, receiver: u8, out: &mut [u8]) -> Result<Option<usize>, ChannelFault> {
        self.below.take(receiver, out)
    }
}
