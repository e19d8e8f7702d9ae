// A put and a take as the tests write them down: a datagram is told by its length and the byte that fills it.
use channel::channel::Channel;
use channel::fault::ChannelFault;
use mailbox::mailbox::Mailbox;
use queue::queue::Queue;
use std::test::Fail;

// One byte more than the longest datagram has.
const ROOM: usize = 10_253;

// What a buffer holds before a take.
const UNTOUCHED: u8 = 0xee;

#[derive(Clone, Copy, PartialEq, Eq, Debug)]
pub enum Answer {
    Accepted,
    Nothing,
    // Each byte's value, and the length.
    Taken(u8, usize),
    Refused(u8),
    // A take that wrote other bytes than the datagram's.
    Spoilt,
}

// A call with the answer that the definitions give: data, and no closure, so that calls can be written down as a table.
#[derive(Clone, Copy)]
pub enum Step {
    // The receiver, each byte's value, and the length.
    Put(u8, u8, usize, Answer),
    // The receiver, and the length of the buffer.
    Take(u8, usize, Answer),
}

// Makes the calls in order, and compares their answers.
pub fn run<C: Channel>(channel: &mut C, steps: &[Step]) -> Result<(), Fail> {
    for step in steps {
        let (got, wanted) = match *step {
            Step::Put(to, fill, len, wanted) => (put(channel, to, fill, len), wanted),
            Step::Take(to, room, wanted) => (take(channel, to, room), wanted),
        };
        if got != wanted {
            return Err(Fail::new(format_args!("{got:?} where {wanted:?} is right")));
        }
    }
    Ok(())
}

fn put<C: Channel>(channel: &mut C, to: u8, fill: u8, len: usize) -> Answer {
    let bytes = [fill; ROOM];
    let datagram = bytes.get(..len).unwrap_or(&bytes);
    match channel.put(to, datagram) {
        Ok(()) => Answer::Accepted,
        Err(fault) => Answer::Refused(fault.number()),
    }
}

// Takes into the first `room` bytes of a buffer.
fn take<C: Channel>(channel: &mut C, to: u8, room: usize) -> Answer {
    let mut out = [UNTOUCHED; ROOM];
    let answer = channel.take(to, &mut out[..room.min(ROOM)]);
    match (answer, written(&out)) {
        (Ok(Some(told)), Some((fill, len))) if told == len => Answer::Taken(fill, len),
        (Ok(None), Some((_, 0))) => Answer::Nothing,
        (Err(fault), Some((_, 0))) => Answer::Refused(fault.number()),
        _ => Answer::Spoilt,
    }
}

// The byte that was written and how often, if it fills the front and nothing beyond was touched.
fn written(out: &[u8]) -> Option<(u8, usize)> {
    let fill = *out.first()?;
    let len = out
        .iter()
        .position(|byte| *byte == UNTOUCHED)
        .unwrap_or(out.len());
    let (front, rest) = out.split_at(len);
    let clean = front.iter().all(|byte| *byte == fill)
        && rest.iter().all(|byte| *byte == UNTOUCHED);
    clean.then_some((fill, len))
}

// A queue, and a mailbox. A failing test can show a fault, but not memory that is given back.
// They are two, as one helper that takes what `new` answers would make each of their many calls longer.
pub fn queue(memory: &mut [u8]) -> Result<Queue<'_>, ChannelFault> {
    Ok(Queue::new(memory)?)
}

pub fn mailbox(memory: &mut [u8]) -> Result<Mailbox<'_>, ChannelFault> {
    Ok(Mailbox::new(memory)?)
}

// The numbers by which a making in 127, 128, 65,536 and 65,537 bytes is refused.
pub(crate) fn refusals_by_size<F: Fn(&mut [u8]) -> Option<u8>>(make: F) -> [Option<u8>; 4]
    requires { F.IsAlwaysCallable make }
{
    [
        make(&mut [0u8; 127]),
        make(&mut [0u8; 128]),
        make(&mut [0u8; 65_536]),
        make(&mut [0u8; 65_537]),
    ]
}

// The number by which a making was refused, if it was. One line for each type of faults: the crates share no code of tests.
pub fn refusal<T: Drop>(answer: Result<T, ChannelFault>) -> Option<u8> {
    answer.err().map(|fault| fault.number())
}
