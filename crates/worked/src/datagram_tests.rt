// Datagrams and drafts on the code: the worked bytes, and each refusal of the wire.
use kinds::counter::Counter;
use kinds::four::Four;
use kinds::pair::Pair;
use kinds::set::Set;
use lattice::kind::Kind;
use lattice::part::Part;
use lattice::walks::equal;
use std::test::Fail;
use wire::datagram::{Datagram, Header};
use wire::draft::{Draft, Sealed};
use wire::fault::WireFault;
use wire::read::read;
use wire::write::{write_ack, write_delta};

const HEADER: Header = Header {
    from: 0,
    to: 1,
    number: 1,
};

fn five() -> Counter {
    let mut value = Counter::bottom();
    value.join_part(Part { slot: 0, level: 5 });
    value
}

// The number by which a call was refused, if it was. One line for each type of faults: the crates share no code of tests.
fn refusal<T: Drop>(answer: Result<T, WireFault>) -> Option<u8> {
    answer.err().map(|fault| fault.number())
}

#[test]
fn a_delta_is_written_as_worked(rt: HostRuntime) -> Result<(), Fail> {
    let mut buf = [7; 24];
    assert_eq!(rt; write_delta(HEADER, &five(), &mut buf)?, 22);
    assert!(rt;
        buf == [
            0x16, 0, 1, 0, 0, 1, 1, 0, 0, 0, 1, 0, 0, 0, 5, 0, 0, 0, 0, 0, 0, 0, 7, 7,
        ]
    );
    let Datagram::Delta(header, value) = read::<Counter>(&buf[0..22])? else {
        return Err(Fail::new("an acknowledgement"));
    };
    assert!(rt; header == HEADER && equal(&value, &five()));
    Ok(())
}

#[test]
fn an_acknowledgement_is_written_as_worked(rt: HostRuntime) -> Result<(), Fail> {
    let mut buf = [7; 12];
    let header = Header {
        from: 1,
        to: 0,
        number: 1,
    };
    assert_eq!(rt; write_ack(header, &mut buf)?, 10);
    assert!(rt; buf == [0x0a, 0, 2, 0, 1, 0, 1, 0, 0, 0, 7, 7]);
    let mut short = [7; 9];
    assert_eq!(rt; refusal(write_ack(header, &mut short)), Some(11));
    assert!(rt; short == [7; 9]);
    Ok(())
}

#[test]
fn a_short_buffer_is_left_alone(rt: HostRuntime) -> Result<(), Fail> {
    let mut buf = [7; 21];
    assert_eq!(rt; refusal(write_delta(HEADER, &five(), &mut buf)), Some(11));
    assert!(rt; buf == [7; 21]);
    assert_eq!(rt; write_delta(HEADER, &Counter::bottom(), &mut buf)?, 12);
    Ok(())
}

#[test]
fn wide_kinds_have_no_datagrams(rt: HostRuntime) {
    let mut buf = [0; 32];
    let wide = Pair::<Four<Set>, Counter>::bottom();
    assert_eq!(rt; refusal(write_delta(HEADER, &wide, &mut buf)), Some(3));
    assert_eq!(rt;
        refusal(Draft::begin::<Pair<Four<Set>, Counter>>(HEADER, &mut buf)),
        Some(3)
    );
    assert_eq!(rt; refusal(read::<Pair<Four<Set>, Counter>>(&buf)), Some(3));
}

#[test]
fn a_draft_takes_what_rises(rt: HostRuntime) -> Result<(), Fail> {
    let mut buf = [0; 32];
    let mut draft = Draft::begin::<Counter>(HEADER, &mut buf)?;
    draft.add::<Counter>(&mut buf, Part { slot: 2, level: 9 })?;
    assert_eq!(rt;
        refusal(draft.add::<Counter>(&mut buf, Part { slot: 2, level: 9 })),
        Some(16)
    );
    assert_eq!(rt;
        refusal(draft.add::<Counter>(&mut buf, Part { slot: 8, level: 1 })),
        Some(16)
    );
    assert_eq!(rt;
        refusal(draft.add::<Counter>(&mut buf, Part { slot: 3, level: 0 })),
        Some(16)
    );
    draft.add::<Counter>(&mut buf, Part { slot: 7, level: 1 })?;
    assert_eq!(rt;
        refusal(draft.add::<Counter>(&mut buf, Part { slot: 7, level: 1 })),
        Some(11)
    );
    let sealed = draft.seal();
    assert_eq!(rt; sealed.len(), 32);
    sealed.check::<Counter>(&buf)?;
    Ok(())
}

#[test]
fn a_draft_knows_its_buffer(rt: HostRuntime) -> Result<(), Fail> {
    let mut buf = [0; 32];
    assert_eq!(rt;
        refusal(Draft::begin::<Counter>(HEADER, &mut [0; 11])),
        Some(11)
    );
    let mut draft = Draft::begin::<Counter>(HEADER, &mut buf)?;
    buf[4] = 3;
    assert_eq!(rt;
        refusal(draft.add::<Counter>(&mut buf, Part { slot: 0, level: 1 })),
        Some(16)
    );
    buf[4] = 0;
    draft.add::<Counter>(&mut buf, Part { slot: 0, level: 1 })?;
    Ok(())
}

#[test]
fn a_sealed_datagram_knows_its_bytes(rt: HostRuntime) -> Result<(), Fail> {
    let mut buf = [0; 22];
    let mut draft = Draft::begin::<Counter>(HEADER, &mut buf)?;
    draft.add::<Counter>(&mut buf, Part { slot: 0, level: 5 })?;
    let sealed = draft.seal();
    sealed.check::<Counter>(&buf)?;
    assert_eq!(rt;
        refusal(Sealed::ack(HEADER).check::<Counter>(&buf)),
        Some(16)
    );
    buf[6] = 2;
    assert_eq!(rt; refusal(sealed.check::<Counter>(&buf)), Some(16));
    buf[0] = 21;
    assert_eq!(rt; refusal(sealed.check::<Counter>(&buf)), Some(13));
    Ok(())
}
