// Eight cells, one a receiver, in the caller's buffer.
ghost use Rattle.std.specs.Prelude.{◌≡◌, ◌+◌, ◌*◌, ◌<◌, ◌≤◌, [], length, Some, None, nat_le};
ghost use Rattle.mailbox.specs.Cells.{cell, content, contents, region};
ghost use Rattle.mailbox.specs.Mailbox.{BoxPuts, BoxTakes, Made, Replaces, box_denies, box_ready, boxed, cells};
ghost use Rattle.mailbox.specs.Laws.{box_laws};

use channel::channel::{Channel, RECEIVERS, admit, hand_over, known};
use channel::fault::ChannelFault;
use channel::memory::{Unfit, fit};
use std::ops::Range;

// The buffer is cut in eight equal cells. A cell has the length of its receiver's datagram (2 bytes, the low one first;
// 0: no datagram) and then the datagram.
#[derive(Drop)]
pub struct Mailbox<'a> {
    buf: &'a mut [u8],
}

// Makes every cell empty.
#[tactic(auto, using(crate::proofs::Regions::all_cleared))]
fn clear(buf: &mut [u8])
    ensures { cells (contents buf.new) 8 ≡ [] }
{
    buf.fill(0);
}

// The datagram in a cell of these bytes.
#[tactic(auto, unfolding(crate::specs::Cells::content))]
fn datagram_in(bytes: &[u8]) -> Option<&[u8]>
    ensures { elim result [ None ↦ content bytes.now ≡ None | Some d ↦ content bytes.now ≡ Some d.now ] }
{
    let [low, high, rest @ ..] = bytes else {
        return None;
    };
    let len = u16::from_le_bytes([*low, *high]) as usize;
    rest.get(..len).filter(|datagram| !datagram.is_empty())
}

// Writes a datagram into a cell that has room for it.
#[tactic(auto, using(crate::proofs::Contents::stored))]
fn store(cell: &mut [u8], bytes: &[u8])
    requires some { 1 ≤ length bytes.now }
    requires short { length bytes.now ≤ 10252 }
    requires room { length bytes.now + 2 ≤ length cell.old }
    ensures { content cell.new ≡ Some bytes.now }
{
    let (head, rest) = cell.split_at_mut(2);
    head.copy_from_slice(&(bytes.len() as u16).to_le_bytes());
    rest[..bytes.len()].copy_from_slice(bytes);
}

impl<'a> Mailbox<'a> {
    // An empty mailbox in 128 to 65,536 bytes; other memory is given back as it was. The memory is cleared: what the
    // caller left in it would be taken for datagrams.
    pub fn new(memory: &'a mut [u8]) -> Result<Mailbox<'a>, Unfit<'a>>
        ensures { Made memory.old result }
    {
        let buf = fit(memory)?;
        clear(buf);
        Ok(Mailbox { buf })
    }

    // How many bytes each cell has.
    fn cell_size(&self) -> usize
        ensures { result ≡ cell self.now.buf.now }
    {
        self.buf.len() / RECEIVERS as usize
    }

    // The bytes of a receiver's cell: where they begin and end.
    fn place(&self, receiver: u8) -> Range<usize>
        requires { receiver < 8 }
        ensures start { result.start ≡ receiver * cell self.now.buf.now }
        ensures end { result.end ≡ receiver * cell self.now.buf.now + cell self.now.buf.now }
    {
        let size = self.cell_size();
        let at = receiver as usize * size;
        at..at + size
    }

    // A receiver's cell.
    #[tactic(auto, unfolding(crate::specs::Cells::region))]
    fn cell(&self, receiver: u8) -> &[u8]
        requires { receiver < 8 }
        ensures { result.now ≡ region self.now.buf.now receiver }
    {
        &self.buf[self.place(receiver)]
    }

    // Replaces the datagram in a receiver's cell, which has room for it.
    #[tactic(auto, using(crate::proofs::Regions::replaced))]
    fn replace(&mut self, receiver: u8, bytes: &[u8])
        requires receiver { receiver < 8 }
        requires some { 1 ≤ length bytes.now }
        requires short { length bytes.now ≤ 10252 }
        requires room { length bytes.now + 2 ≤ cell self.old.buf.now }
        ensures { BoxPuts self.old receiver bytes.now self.new }
    {
        let place = self.place(receiver);
        store(&mut self.buf[place], bytes);
    }
}

impl<'a> Channel for Mailbox<'a> {
    ghost waits = { boxed };

    ghost ready = { box_ready };

    ghost denies = { box_denies };

    ghost puts = { BoxPuts };

    ghost takes = { BoxTakes };

    ghost sound = { box_laws };

    fn put(&mut self, receiver: u8, bytes: &[u8]) -> Result<(), ChannelFault> {
        admit(receiver, bytes.len())?;
        if bytes.len() + 2 > self.cell_size() {
            return Err(ChannelFault::Space);
        }
        self.replace(receiver, bytes);
        Ok(())
    }

    // The datagram stays in its cell.
    fn take(&mut self, receiver: u8, out: &mut [u8]) -> Result<Option<usize>, ChannelFault> {
        known(receiver)?;
        let Some(datagram) = datagram_in(self.cell(receiver)) else {
            return Ok(None);
        };
        let len = hand_over(datagram, out)?;
        Ok(Some(len))
    }
}
