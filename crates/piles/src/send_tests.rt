// Sending: what is checked before anything is put, and who refuses.
use crate::calls::{Answer, Step, queue, run};
use channel::channel::Channel;
use channel::losing::Losing;
use channel::send::{SendFault, send};
use kinds::counter::Counter;
use lattice::part::Part;
use lattice::refusal::{Layer, Refusal};
use std::test::Fail;
use wire::datagram::Header;
use wire::draft::{Draft, Sealed};
use wire::write::write_ack;

fn header(to: u8, number: u32) -> Header {
    Header {
        from: 0,
        to,
        number,
    }
}

// Who refused, if anyone did.
fn refusal(answer: Result<(), SendFault>) -> Option<Refusal> {
    answer.err().map(|fault| fault.refusal())
}

fn by(layer: Layer, number: u8) -> Option<Refusal> {
    Some(Refusal { layer, number })
}

#[test]
fn a_sealed_delta_is_put_for_its_receiver(rt: HostRuntime) -> Result<(), Fail> {
    let mut memory = [0u8; 128];
    let mut line = queue(&mut memory)?;
    let mut buf = [0u8; 22];
    let mut draft = Draft::begin::<Counter>(header(3, 1), &mut buf)?;
    draft.add::<Counter>(&mut buf, Part { slot: 0, level: 5 })?;
    let sealed = draft.seal();
    assert_eq!(rt; refusal(send::<Counter, _>(&sealed, &buf, &mut line)), None);
    let mut out = [0u8; 64];
    assert_eq!(rt; line.take(3, &mut out)?, Some(22));
    assert!(rt; out[0..22] == buf[0..22]);
    assert_eq!(rt; line.take(3, &mut out)?, None);
    Ok(())
}

// Other bytes than the sealed datagram's do not go out under its name.
#[test]
fn other_bytes_are_refused_by_the_wire(rt: HostRuntime) -> Result<(), Fail> {
    let mut memory = [0u8; 128];
    let mut line = queue(&mut memory)?;
    let sealed = Sealed::ack(header(3, 1));
    let mut buf = [0u8; 10];
    write_ack(header(3, 2), &mut buf)?;
    assert_eq!(rt;
        refusal(send::<Counter, _>(&sealed, &buf, &mut line)),
        by(Layer::Wire, 16)
    );
    write_ack(header(2, 1), &mut buf)?;
    assert_eq!(rt;
        refusal(send::<Counter, _>(&sealed, &buf, &mut line)),
        by(Layer::Wire, 16)
    );
    write_ack(header(3, 1), &mut buf)?;
    assert_eq!(rt;
        refusal(send::<Counter, _>(&sealed, &buf[0..9], &mut line)),
        by(Layer::Wire, 13)
    );
    buf[2] = 9;
    assert_eq!(rt;
        refusal(send::<Counter, _>(&sealed, &buf, &mut line)),
        by(Layer::Wire, 14)
    );
    for to in 0..8u8 {
        run(&mut line, &[Step::Take(to, 128, Answer::Nothing)])?;
    }
    Ok(())
}

// A draft of one part is not the sealed datagram of none.
#[test]
fn another_count_is_refused_by_the_wire(rt: HostRuntime) -> Result<(), Fail> {
    let mut memory = [0u8; 128];
    let mut line = queue(&mut memory)?;
    let mut empty = [0u8; 12];
    let sealed = Draft::begin::<Counter>(header(3, 1), &mut empty)?.seal();
    let mut buf = [0u8; 22];
    let mut draft = Draft::begin::<Counter>(header(3, 1), &mut buf)?;
    draft.add::<Counter>(&mut buf, Part { slot: 0, level: 5 })?;
    assert_eq!(rt;
        refusal(send::<Counter, _>(&sealed, &buf, &mut line)),
        by(Layer::Wire, 16)
    );
    assert_eq!(rt;
        refusal(send::<Counter, _>(&sealed, &empty, &mut line)),
        None
    );
    Ok(())
}

// The channel is asked last; a sending that found no space is tried again.
#[test]
fn the_channel_refuses_last(rt: HostRuntime) -> Result<(), Fail> {
    let mut memory = [0u8; 128];
    let mut line = Losing::new(0, queue(&mut memory)?);
    let mut buf = [0u8; 10];
    let sealed = Sealed::ack(header(9, 1));
    write_ack(header(9, 2), &mut buf)?;
    assert_eq!(rt;
        refusal(send::<Counter, _>(&sealed, &buf, &mut line)),
        by(Layer::Wire, 16)
    );
    write_ack(header(9, 1), &mut buf)?;
    assert_eq!(rt;
        refusal(send::<Counter, _>(&sealed, &buf, &mut line)),
        by(Layer::Channel, 4)
    );
    let sealed = Sealed::ack(header(1, 1));
    write_ack(header(1, 1), &mut buf)?;
    run(&mut line, &[Step::Put(2, 7, 124, Answer::Accepted)])?;
    assert_eq!(rt;
        refusal(send::<Counter, _>(&sealed, &buf, &mut line)),
        by(Layer::Channel, 12)
    );
    run(&mut line, &[Step::Take(2, 128, Answer::Taken(7, 124))])?;
    assert_eq!(rt; refusal(send::<Counter, _>(&sealed, &buf, &mut line)), None);
    Ok(())
}
