// A layer that keeps datagrams back by a pattern, and so changes their order.
ghost use Rattle.std.specs.Prelude.{◌≡◌, None};
ghost use Rattle.channel.specs.Holding.{HoldingPuts, HoldingTakes, Releases, held, holding_denies, holding_ready, holding_waits};
ghost use Rattle.channel.specs.HoldingLaws.{holding_laws};

use crate::channel::{Channel, admit, hand_over};
use crate::fault::ChannelFault;
use crate::pattern::{low_bit, turned};
use wire::write::LONGEST;

// Whose datagram a layer holds, and how long it is. No ghost field says that it fits the bytes, so that it is cut to them
// where it is used: code over a layer of such a layer, with lent memory below, would get no generated proof.
#[derive(Clone, Copy)]
struct Tag {
    receiver: u8,
    len: usize,
}

// Each accepted put reads the pattern's lowest bit and turns the pattern right by one. Bit 1 keeps the datagram back if
// none is held; every other put passes below, and then the held datagram, which stays held if it is refused there.
// The held datagram waits, its bytes at the front of `bytes`, and is ready when nothing below is ready for its receiver.
// Only its tag is an option: an option of the bytes would move 10 KB, and an `ArrayVec` would write blanks over them.
#[derive(Drop)]
pub struct Holding<C> {
    pattern: u32,
    held: Option<Tag>,
    bytes: [u8; LONGEST],
    below: C,
}

impl<C: Channel> Holding<C> {
    // A layer over a channel, holding nothing. What waits is what waits below: nothing, if nothing does.
    pub fn new(pattern: u32, below: C) -> Holding<C>
        ensures pattern { result.pattern ≡ pattern }
        ensures empty { held result ≡ None }
        ensures below { result.below ≡ below }
        ensures waiting { holding_waits C.waits result ≡ C.waits below }
    {
        Holding {
            pattern,
            held: None,
            bytes: [0; LONGEST],
            below,
        }
    }

    // Puts the held datagram below; it stays held if that is refused.
    fn release(&mut self)
        ensures pattern { self.new.pattern ≡ self.old.pattern }
        ensures after { Releases C.denies C.puts (held self.old) self.old.below (held self.new) self.new.below }
    {
        let Some(Tag { receiver, len }) = self.held else {
            return;
        };
        let bytes = &self.bytes[..len.min(LONGEST)];
        if self.below.put(receiver, bytes).is_ok() {
            self.held = None;
        }
    }
}

impl<C: Channel> Channel for Holding<C> {
    ghost waits = { holding_waits C.waits };

    ghost ready = { holding_ready C.ready };

    ghost denies = { holding_denies C.denies };

    ghost puts = { HoldingPuts C.denies C.puts };

    ghost takes = { HoldingTakes C.ready C.takes };

    ghost sound = { holding_laws C.denies C.sound };

    fn put(&mut self, receiver: u8, bytes: &[u8]) -> Result<(), ChannelFault> {
        let len = bytes.len();
        admit(receiver, len)?;
        match (&mut self.held, low_bit(self.pattern)) {
            (held @ None, true) => {
                *held = Some(Tag { receiver, len });
                self.bytes[..len].copy_from_slice(bytes);
            }
            _ => {
                self.below.put(receiver, bytes)?;
                self.release();
            }
        }
        self.pattern = turned(self.pattern);
        Ok(())
    }

    fn take(&mut self, receiver: u8, out: &mut [u8]) -> Result<Option<usize>, ChannelFault> {
        if let Some(len) = self.below.take(receiver, out)? {
            return Ok(Some(len));
        }
        match self.held {
            Some(Tag { receiver: to, len }) if to == receiver => {
                let len = hand_over(&self.bytes[..len.min(LONGEST)], out)?;
                self.held = None;
                Ok(Some(len))
            }
            _ => Ok(None),
        }
    }
}
