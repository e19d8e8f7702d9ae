// What a channel is: datagrams are put for a receiver and taken by it. It may lose, repeat and reorder them; it never
// makes one up.
ghost use Rattle.std.specs.Prelude.{◌≡◌, ℕ, List, length, Option};
ghost use Rattle.channel.specs.Faults.{numbered};
ghost use Rattle.channel.specs.Meaning.{Waiting, Laws, PutLeaves, TakeLeaves, addressed, admits, copied, copied_over, handed, put_answer, take_answer};

use crate::fault::ChannelFault;
use wire::write::LONGEST;

// How many receivers a channel knows, numbered from 0.
pub const RECEIVERS: u8 = 8;

pub trait Channel {
    // The datagrams that wait, each with its receiver.
    ghost waits: { Self → List Waiting };

    // A receiver's ready datagram, if it has one.
    ghost ready: { Self → ℕ → Option (List ℕ) };

    // The number by which the channel itself refuses a put, after the receiver and the length were found good.
    ghost denies: { Self → ℕ → List ℕ → Option ℕ };

    // What an accepted put makes of the channel, and what a taking does.
    ghost puts: { Self → ℕ → List ℕ → Self → Type 0 };

    ghost takes: { Self → ℕ → Self → Type 0 };

    // That it keeps the laws.
    ghost sound: { Laws waits ready puts takes };

    // Puts a datagram for a receiver. A refusal changes nothing.
    fn put(&mut self, receiver: u8, bytes: &[u8]) -> Result<(), ChannelFault>
        ensures answer { numbered result ≡ put_answer receiver bytes.now (denies self.old receiver bytes.now) }
        ensures after { PutLeaves puts self.old receiver bytes.now self.new result };

    // Copies the receiver's ready datagram to the front of a buffer, and answers its length. Where none is ready, and
    // where it refuses, nothing changes.
    fn take(&mut self, receiver: u8, out: &mut [u8]) -> Result<Option<usize>, ChannelFault>
        ensures answer { numbered result ≡ take_answer receiver (length out.old) (ready self.old receiver) }
        ensures after { TakeLeaves takes self.old receiver self.new result }
        ensures out { out.new ≡ copied result (ready self.old receiver) out.old };
}

// What every call refuses first.
pub fn known(receiver: u8) -> Result<(), ChannelFault>
    ensures { numbered result ≡ addressed receiver }
{
    if receiver >= RECEIVERS {
        return Err(ChannelFault::Receiver);
    }
    Ok(())
}

// What every put refuses first. What it grants, the function that stores asks for again, one in each channel: a type that
// shows it would be made and opened again in the next line.
pub fn admit(receiver: u8, len: usize) -> Result<(), ChannelFault>
    ensures { numbered result ≡ admits receiver len }
{
    known(receiver)?;
    if !(1..=LONGEST).contains(&len) {
        return Err(ChannelFault::Space);
    }
    Ok(())
}

// Copies a ready datagram to the front of a take's buffer, and answers its length.
pub fn hand_over(datagram: &[u8], out: &mut [u8]) -> Result<usize, ChannelFault>
    ensures answer { numbered result ≡ handed (length out.old) datagram.now }
    ensures out { out.new ≡ copied_over result datagram.now out.old }
{
    let len = datagram.len();
    if out.len() < len {
        return Err(ChannelFault::Room);
    }
    out[..len].copy_from_slice(datagram);
    Ok(len)
}
