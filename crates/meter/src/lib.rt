// A channel of one's own: a layer over any channel that counts what passes through it.
#![tactic(auto)]

ghost use Rattle.std.specs.Prelude.{◌≡◌};
ghost use Rattle.meter.specs.Meter.{MeterPuts, MeterTakes, meter_denies, meter_laws, meter_ready, meter_waits};

use channel::channel::Channel;
use channel::fault::ChannelFault;

// The counts stay at their largest value once they reach it.
#[derive(Drop)]
pub struct Meter<C> {
    accepted: u32,
    taken: u32,
    below: C,
}

impl<C: Channel> Meter<C> {
    // A layer that has counted nothing. What waits is what waits below.
    pub fn new(below: C) -> Meter<C>
        ensures made { result ≡ record { accepted = 0; taken = 0; below = below } }
        ensures waiting { meter_waits C.waits result ≡ C.waits below }
    {
        Meter {
            accepted: 0,
            taken: 0,
            below,
        }
    }

    // How many puts were accepted, and how many datagrams were taken.
    pub fn counts(&self) -> (u32, u32)
        ensures { result ≡ (self.now.accepted, self.now.taken) }
    {
        (self.accepted, self.taken)
    }
}

impl<C: Channel> Channel for Meter<C> {
    ghost waits = { meter_waits C.waits };

    ghost ready = { meter_ready C.ready };

    ghost denies = { meter_denies C.denies };

    ghost puts = { MeterPuts C.puts };

    ghost takes = { MeterTakes C.takes };

    ghost sound = { meter_laws C.sound };

    fn put(&mut self, receiver: u8, bytes: &[u8]) -> Result<(), ChannelFault> {
        self.below.put(receiver, bytes)?;
        self.accepted = self.accepted.saturating_add(1);
        Ok(())
    }

    fn take(&mut self, receiver: u8, out: &mut [u8]) -> Result<Option<usize>, ChannelFault> {
        let Some(len) = self.below.take(receiver, out)? else {
            return Ok(None);
        };
        self.taken = self.taken.saturating_add(1);
        Ok(Some(len))
    }
}
