// Datagrams that wait in the order of their puts, in memory that the caller lends.
ghost use Rattle.std.specs.Prelude.{◌≡◌, ◌≤◌, length, take};
ghost use Rattle.queue.specs.Packed.{cost, decode};

use crate::packed::{HEAD, close, find, store};
use channel::channel::{Channel, admit, hand_over, known};
use channel::fault::ChannelFault;
use channel::memory::{Unfit, fit};

// The datagrams stand as records, packed from the front: they take just the first `used` bytes. A record is its receiver
// (1 byte), the length of its datagram (2 bytes, the low one first), a 0, and the datagram.
// The memory is the caller's, so the count of bytes in use stands beside the slice, where a `Vec` would keep its own.
#[derive(Drop)]
pub struct Queue<'a> {
    buf: &'a mut [u8],
    used: usize,
    ghost within: { used ≤ length buf.now },
    ghost packed: { cost (decode (take used buf.now)) ≡ used },
}

impl<'a> Queue<'a> {
    ghost use Rattle.std.specs.Prelude.{◌≡◌, ◌+◌, ◌<◌, ◌≤◌, [], length, Some, None};
    ghost use Rattle.channel.specs.Faults.{numbered};
    ghost use Rattle.channel.specs.Meaning.{PutLeaves, TakeLeaves, copied, denied, fetched};
    ghost use Rattle.queue.specs.Packed.{First};
    ghost use Rattle.queue.specs.Queue.{Made, QueuePuts, QueueTakes, queue_denies, queue_ready, queued, size, used_bytes};

    // An empty queue in 128 to 65,536 bytes; other memory is given back as it was.
    pub fn new(memory: &'a mut [u8]) -> Result<Queue<'a>, Unfit<'a>>
        ensures { Made memory.old result }
    {
        Ok(Queue::empty(fit(memory)?))
    }

    // A queue with no record.
    #[tactic(auto, using(crate::proofs::Packing::decode_nil, crate::proofs::Packing::cost_nil))]
    fn empty(buf: &'a mut [u8]) -> Queue<'a>
        ensures empty { queued result ≡ [] }
        ensures size { size result ≡ length buf.old }
    {
        Queue { buf, used: 0 }
    }

    // The first record for a receiver: its place, and its datagram.
    #[tactic(auto, using(crate::proofs::Queued::none_ready, crate::proofs::Queued::first_is, crate::proofs::Queued::reached_room))]
    fn ready(&self, receiver: u8) -> Option<(usize, &[u8])>
        ensures { elim result [ None ↦ queue_ready self.now receiver ≡ None | Some r ↦ First (used_bytes self.now) receiver r.0 r.1.now ] }
    {
        let records = &self.buf[..self.used];
        let (at, len) = find(records, receiver)?;
        let from = at + HEAD;
        Some((at, &records[from..from + len]))
    }

    // Stores a datagram behind the last record, unless the free bytes are too few.
    #[tactic(auto, using(crate::proofs::Queued::stored_decodes, crate::proofs::Queued::stored_cost))]
    fn append(&mut self, receiver: u8, bytes: &[u8]) -> Result<(), ChannelFault>
        requires known { receiver < 8 }
        requires some { 1 ≤ length bytes.now }
        requires short { length bytes.now ≤ 10252 }
        ensures answer { numbered result ≡ denied (queue_denies self.old receiver bytes.now) }
        ensures after { PutLeaves QueuePuts self.old receiver bytes.now self.new result }
    {
        let len = HEAD + bytes.len();
        if self.buf.len() - self.used < len {
            return Err(ChannelFault::Space);
        }
        store(&mut self.buf[self.used..], receiver, bytes);
        self.used += len;
        Ok(())
    }

    // Copies the first datagram for a receiver to the front of a buffer, and removes its record.
    #[tactic(auto, using(crate::proofs::Queued::closed, crate::proofs::Queued::closed_cost))]
    fn fetch(&mut self, receiver: u8, out: &mut [u8]) -> Result<Option<usize>, ChannelFault>
        ensures answer { numbered result ≡ fetched (length out.old) (queue_ready self.old receiver) }
        ensures after { TakeLeaves QueueTakes self.old receiver self.new result }
        ensures out { out.new ≡ copied result (queue_ready self.old receiver) out.old }
    {
        let Some((at, datagram)) = self.ready(receiver) else {
            return Ok(None);
        };
        let len = hand_over(datagram, out)?;
        close(&mut self.buf[..self.used], at, HEAD + len);
        self.used -= HEAD + len;
        Ok(Some(len))
    }
}

impl<'a> Channel for Queue<'a> {
    ghost use Rattle.queue.specs.Laws.{queue_laws};
    ghost use Rattle.queue.specs.Queue.{QueuePuts, QueueTakes, queue_denies, queue_ready, queued};

    ghost waits = { queued };

    ghost ready = { queue_ready };

    ghost denies = { queue_denies };

    ghost puts = { QueuePuts };

    ghost takes = { QueueTakes };

    ghost sound = { queue_laws };

    fn put(&mut self, receiver: u8, bytes: &[u8]) -> Result<(), ChannelFault> {
        admit(receiver, bytes.len())?;
        self.append(receiver, bytes)
    }

    fn take(&mut self, receiver: u8, out: &mut [u8]) -> Result<Option<usize>, ChannelFault> {
        known(receiver)?;
        self.fetch(receiver, out)
    }
}
