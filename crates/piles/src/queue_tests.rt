// The queue, call by call.
use crate::calls::{Answer, Step, queue, refusal, refusals_by_size, run};
use std::test::Fail;

#[test]
fn making_asks_for_128_to_65536_bytes(rt: HostRuntime) {
    assert_eq!(rt;
        refusals_by_size(|memory| refusal(queue(memory))),
        [Some(18), None, None, Some(18)]
    );
}

// What the lent memory held before is never taken for a datagram.
#[test]
fn a_new_queue_is_empty() -> Result<(), Fail> {
    let mut buf = [1u8; 128];
    let mut line = queue(&mut buf)?;
    for to in 0..8u8 {
        run(&mut line, &[Step::Take(to, 128, Answer::Nothing)])?;
    }
    Ok(())
}

#[test]
fn each_receiver_gets_its_own_in_order() -> Result<(), Fail> {
    let mut buf = [0u8; 128];
    let mut line = queue(&mut buf)?;
    run(
        &mut line,
        &[
            Step::Put(1, 7, 3, Answer::Accepted),
            Step::Put(2, 8, 2, Answer::Accepted),
            Step::Put(1, 9, 4, Answer::Accepted),
            Step::Put(7, 5, 1, Answer::Accepted),
            Step::Take(0, 128, Answer::Nothing),
            Step::Take(2, 128, Answer::Taken(8, 2)),
            Step::Take(1, 128, Answer::Taken(7, 3)),
            Step::Take(2, 128, Answer::Nothing),
            Step::Take(1, 128, Answer::Taken(9, 4)),
            Step::Take(1, 128, Answer::Nothing),
            Step::Take(7, 128, Answer::Taken(5, 1)),
        ],
    )
}

// Each datagram takes its length and 4 bytes: two of 60 fill 128.
#[test]
fn a_full_queue_refuses_and_stays_as_it_was() -> Result<(), Fail> {
    let mut buf = [0u8; 128];
    let mut line = queue(&mut buf)?;
    run(
        &mut line,
        &[
            Step::Put(0, 1, 125, Answer::Refused(12)),
            Step::Put(0, 1, 60, Answer::Accepted),
            Step::Put(1, 2, 61, Answer::Refused(12)),
            Step::Put(1, 2, 60, Answer::Accepted),
            Step::Put(2, 3, 1, Answer::Refused(12)),
            Step::Take(2, 128, Answer::Nothing),
            Step::Take(0, 128, Answer::Taken(1, 60)),
            Step::Put(2, 3, 60, Answer::Accepted),
            Step::Put(2, 4, 1, Answer::Refused(12)),
            Step::Take(1, 128, Answer::Taken(2, 60)),
            Step::Take(2, 128, Answer::Taken(3, 60)),
            Step::Put(0, 6, 124, Answer::Accepted),
            Step::Take(0, 128, Answer::Taken(6, 124)),
        ],
    )
}

// Far more goes through than the buffer holds at a time, and gaps close wherever they open.
#[test]
fn freed_bytes_are_used_again() -> Result<(), Fail> {
    let mut buf = [0u8; 128];
    let mut line = queue(&mut buf)?;
    run(
        &mut line,
        &[
            Step::Put(0, 200, 20, Answer::Accepted),
            Step::Put(3, 0, 30, Answer::Accepted),
        ],
    )?;
    for round in 1..100u8 {
        run(
            &mut line,
            &[
                Step::Put(3, round, 40, Answer::Accepted),
                Step::Put(4, round, 50, Answer::Refused(12)),
            ],
        )?;
        let len = if round == 1 { 30 } else { 40 };
        run(
            &mut line,
            &[Step::Take(3, 128, Answer::Taken(round - 1, len))],
        )?;
    }
    run(
        &mut line,
        &[
            Step::Take(0, 128, Answer::Taken(200, 20)),
            Step::Take(3, 128, Answer::Taken(99, 40)),
            Step::Take(3, 128, Answer::Nothing),
        ],
    )
}

#[test]
fn the_longest_datagram_goes_through() -> Result<(), Fail> {
    let mut buf = [0u8; 65_536];
    let mut line = queue(&mut buf)?;
    run(&mut line, &[Step::Put(6, 1, 10_253, Answer::Refused(12))])?;
    for fill in 0..6u8 {
        run(&mut line, &[Step::Put(6, fill, 10_252, Answer::Accepted)])?;
    }
    run(
        &mut line,
        &[
            Step::Put(6, 9, 10_252, Answer::Refused(12)),
            Step::Take(6, 10_251, Answer::Refused(11)),
        ],
    )?;
    for fill in 0..6u8 {
        run(
            &mut line,
            &[Step::Take(6, 10_252, Answer::Taken(fill, 10_252))],
        )?;
    }
    Ok(())
}

// The receiver's refusal is told before the length's, and a refused take leaves the datagram ready.
#[test]
fn refusals_come_in_their_order() -> Result<(), Fail> {
    let mut buf = [0u8; 128];
    let mut line = queue(&mut buf)?;
    run(
        &mut line,
        &[
            Step::Put(8, 1, 0, Answer::Refused(4)),
            Step::Put(255, 1, 3, Answer::Refused(4)),
            Step::Put(7, 1, 0, Answer::Refused(12)),
            Step::Take(8, 128, Answer::Refused(4)),
            Step::Put(7, 1, 10, Answer::Accepted),
            Step::Take(255, 128, Answer::Refused(4)),
            Step::Take(7, 9, Answer::Refused(11)),
            Step::Take(7, 0, Answer::Refused(11)),
            Step::Take(7, 10, Answer::Taken(1, 10)),
            Step::Take(7, 0, Answer::Nothing),
        ],
    )
}
