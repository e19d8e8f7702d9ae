// Piles of layers, used by code that knows nothing but the trait.
use crate::bridge::bridge;
use crate::calls::{Answer, Step, mailbox, queue, run};
use channel::channel::Channel;
use channel::fault::ChannelFault;
use channel::holding::Holding;
use channel::losing::Losing;
use meter::Meter;
use queue::queue::Queue;
use std::test::Fail;

// Losing over holding over a queue.
fn rough(
    losing: u32,
    holding: u32,
    buf: &mut [u8],
) -> Result<Losing<Holding<Queue<'_>>>, ChannelFault> {
    Ok(Losing::new(losing, Holding::new(holding, queue(buf)?)))
}

// Puts datagrams filled with 1 to 6 for receiver 5.
fn put_six<C: Channel>(channel: &mut C) -> Result<(), Fail> {
    for fill in 1..7u8 {
        run(channel, &[Step::Put(5, fill, 9, Answer::Accepted)])?;
    }
    Ok(())
}

fn takes<C: Channel>(channel: &mut C, fills: &[u8]) -> Result<(), Fail> {
    for &fill in fills {
        run(channel, &[Step::Take(5, 128, Answer::Taken(fill, 9))])?;
    }
    run(channel, &[Step::Take(5, 128, Answer::Nothing)])
}

// The third is lost; of the five that reach the holding layer its bits keep back the first and the third.
#[test]
fn losing_over_holding_over_a_queue() -> Result<(), Fail> {
    let mut buf = [0u8; 128];
    let mut pile = rough(0b100, 0b101, &mut buf)?;
    put_six(&mut pile)?;
    takes(&mut pile, &[2, 1, 5, 4, 6])
}

// The other way up: of six puts the first and the third are kept back; the losing layer drops the third that reaches it.
#[test]
fn holding_over_losing_over_a_queue() -> Result<(), Fail> {
    let mut buf = [0u8; 128];
    let mut pile = Holding::new(0b101, Losing::new(0b100, queue(&mut buf)?));
    put_six(&mut pile)?;
    takes(&mut pile, &[2, 1, 3, 5, 6])
}

// A mailbox below: only the last that was put is there, again and again.
#[test]
fn layers_over_a_mailbox() -> Result<(), Fail> {
    let mut buf = [0u8; 128];
    let mut pile = Losing::new(0b100000, Holding::new(0b1, mailbox(&mut buf)?));
    put_six(&mut pile)?;
    for _ in 0..3 {
        run(&mut pile, &[Step::Take(5, 128, Answer::Taken(5, 9))])?;
    }
    run(&mut pile, &[Step::Take(4, 128, Answer::Nothing)])
}

// A refusal deep in the pile is the pile's, and changes nothing in it.
#[test]
fn a_refusal_passes_up_through_the_pile(rt: HostRuntime) -> Result<(), Fail> {
    let mut buf = [0u8; 128];
    let mut pile = Meter::new(rough(0, 0, &mut buf)?);
    run(
        &mut pile,
        &[
            Step::Put(1, 1, 124, Answer::Accepted),
            Step::Put(1, 2, 1, Answer::Refused(12)),
            Step::Put(8, 2, 1, Answer::Refused(4)),
            Step::Take(1, 123, Answer::Refused(11)),
            Step::Take(8, 124, Answer::Refused(4)),
            Step::Take(0, 124, Answer::Nothing),
        ],
    )?;
    assert_eq!(rt; pile.counts(), (1, 0));
    run(&mut pile, &[Step::Take(1, 124, Answer::Taken(1, 124))])?;
    assert_eq!(rt; pile.counts(), (1, 1));
    Ok(())
}

fn carry<C: Channel, D: Channel>(from: &mut C, to: &mut D) -> Result<bool, ChannelFault> {
    let mut buf = [0u8; 64];
    bridge(from, to, 5, &mut buf)
}

// From a rough pile to a mailbox, until nothing is ready.
#[test]
fn a_bridge_between_two_channels(rt: HostRuntime) -> Result<(), Fail> {
    let mut near = [0u8; 128];
    let mut far = [0u8; 128];
    let mut from = Meter::new(rough(0b100, 0b101, &mut near)?);
    let mut to = mailbox(&mut far)?;
    put_six(&mut from)?;
    for fill in [2u8, 1, 5, 4, 6] {
        assert!(rt; carry(&mut from, &mut to)?);
        run(&mut to, &[Step::Take(5, 128, Answer::Taken(fill, 9))])?;
    }
    assert!(rt; !carry(&mut from, &mut to)?);
    assert_eq!(rt; from.counts(), (6, 5));
    run(&mut to, &[Step::Take(5, 128, Answer::Taken(6, 9))])
}
