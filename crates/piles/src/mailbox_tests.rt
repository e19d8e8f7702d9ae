// The mailbox, call by call.
use crate::calls::{Answer, Step, mailbox, refusal, refusals_by_size, run};
use std::test::Fail;

#[test]
fn making_asks_for_128_to_65536_bytes(rt: HostRuntime) {
    assert_eq!(rt;
        refusals_by_size(|memory| refusal(mailbox(memory))),
        [Some(18), None, None, Some(18)]
    );
}

#[test]
fn a_new_mailbox_is_empty() -> Result<(), Fail> {
    let mut buf = [1u8; 128];
    let mut cells = mailbox(&mut buf)?;
    for to in 0..8u8 {
        run(&mut cells, &[Step::Take(to, 128, Answer::Nothing)])?;
    }
    Ok(())
}

#[test]
fn a_put_replaces_and_a_take_leaves() -> Result<(), Fail> {
    let mut buf = [0u8; 128];
    let mut cells = mailbox(&mut buf)?;
    run(
        &mut cells,
        &[
            Step::Put(3, 7, 14, Answer::Accepted),
            Step::Take(3, 128, Answer::Taken(7, 14)),
            Step::Take(3, 128, Answer::Taken(7, 14)),
            Step::Put(3, 8, 2, Answer::Accepted),
            Step::Put(3, 9, 5, Answer::Accepted),
            Step::Take(3, 128, Answer::Taken(9, 5)),
            Step::Take(2, 128, Answer::Nothing),
            Step::Take(4, 128, Answer::Nothing),
        ],
    )
}

// A full cell touches neither neighbour.
#[test]
fn cells_do_not_meet() -> Result<(), Fail> {
    let mut buf = [0u8; 128];
    let mut cells = mailbox(&mut buf)?;
    for to in 0..8u8 {
        run(&mut cells, &[Step::Put(to, 10 + to, 14, Answer::Accepted)])?;
    }
    run(
        &mut cells,
        &[
            Step::Put(3, 99, 14, Answer::Accepted),
            Step::Put(5, 77, 1, Answer::Accepted),
        ],
    )?;
    for to in 0..8u8 {
        let answer = match to {
            3 => Answer::Taken(99, 14),
            5 => Answer::Taken(77, 1),
            _ => Answer::Taken(10 + to, 14),
        };
        run(&mut cells, &[Step::Take(to, 128, answer)])?;
    }
    Ok(())
}

// 128 and 135 bytes make cells of 16, for datagrams of up to 14; 65,536 bytes make cells of 8,192.
#[test]
fn a_cell_is_an_eighth_rounded_down() -> Result<(), Fail> {
    let mut odd = [0u8; 135];
    let mut cells = mailbox(&mut odd)?;
    run(
        &mut cells,
        &[
            Step::Put(7, 1, 15, Answer::Refused(12)),
            Step::Take(7, 128, Answer::Nothing),
            Step::Put(7, 1, 14, Answer::Accepted),
            Step::Put(7, 2, 15, Answer::Refused(12)),
            Step::Take(7, 128, Answer::Taken(1, 14)),
        ],
    )?;
    let mut even = [0u8; 136];
    let mut cells = mailbox(&mut even)?;
    run(&mut cells, &[Step::Put(7, 1, 15, Answer::Accepted)])?;
    let mut most = [0u8; 65_536];
    let mut cells = mailbox(&mut most)?;
    run(
        &mut cells,
        &[
            Step::Put(0, 3, 8_191, Answer::Refused(12)),
            Step::Put(0, 3, 8_190, Answer::Accepted),
            Step::Take(0, 8_190, Answer::Taken(3, 8_190)),
        ],
    )
}

#[test]
fn refusals_come_in_their_order() -> Result<(), Fail> {
    let mut buf = [0u8; 128];
    let mut cells = mailbox(&mut buf)?;
    run(
        &mut cells,
        &[
            Step::Put(8, 1, 0, Answer::Refused(4)),
            Step::Put(0, 1, 0, Answer::Refused(12)),
            Step::Put(0, 1, 10_253, Answer::Refused(12)),
            Step::Take(8, 128, Answer::Refused(4)),
            Step::Put(0, 1, 10, Answer::Accepted),
            Step::Take(0, 9, Answer::Refused(11)),
            Step::Take(0, 10, Answer::Taken(1, 10)),
        ],
    )
}
