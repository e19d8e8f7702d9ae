// The layers, each over a queue, call by call: patterns of no bit, of all bits, and mixed.
use crate::calls::{Answer, Step, queue, run};
use channel::holding::Holding;
use channel::losing::Losing;
use std::test::Fail;

#[test]
fn losing_by_no_bit_passes_all() -> Result<(), Fail> {
    let mut buf = [0u8; 128];
    let mut layer = Losing::new(0, queue(&mut buf)?);
    for fill in 0..70u8 {
        run(
            &mut layer,
            &[
                Step::Put(2, fill, 9, Answer::Accepted),
                Step::Take(2, 128, Answer::Taken(fill, 9)),
            ],
        )?;
    }
    Ok(())
}

// What is dropped is accepted, also where nothing below would have space for it; refusals of every put come first.
#[test]
fn losing_by_all_bits_drops_all() -> Result<(), Fail> {
    let mut buf = [0u8; 128];
    let mut layer = Losing::new(u32::MAX, queue(&mut buf)?);
    for fill in 0..70u8 {
        run(
            &mut layer,
            &[
                Step::Put(2, fill, 9_000, Answer::Accepted),
                Step::Take(2, 128, Answer::Nothing),
            ],
        )?;
    }
    run(
        &mut layer,
        &[
            Step::Put(8, 1, 0, Answer::Refused(4)),
            Step::Put(2, 1, 0, Answer::Refused(12)),
            Step::Put(2, 1, 10_253, Answer::Refused(12)),
            Step::Take(8, 128, Answer::Refused(4)),
        ],
    )
}

// The lowest bit first, and after 32 puts the pattern begins again.
#[test]
fn losing_reads_its_pattern_from_the_lowest_bit() -> Result<(), Fail> {
    let mut buf = [0u8; 128];
    let mut layer = Losing::new(0b0110, queue(&mut buf)?);
    for fill in 0..100u8 {
        let answer = match fill % 32 {
            1 | 2 => Answer::Nothing,
            _ => Answer::Taken(fill, 1),
        };
        run(
            &mut layer,
            &[
                Step::Put(2, fill, 1, Answer::Accepted),
                Step::Take(2, 128, answer),
            ],
        )?;
    }
    Ok(())
}

// A put that is refused below, or before, leaves the pattern: the next put reads the same bit.
#[test]
fn losing_turns_only_when_it_accepts() -> Result<(), Fail> {
    let mut buf = [0u8; 128];
    let mut layer = Losing::new(0b10, queue(&mut buf)?);
    run(
        &mut layer,
        &[
            Step::Put(2, 1, 200, Answer::Refused(12)),
            Step::Put(9, 1, 1, Answer::Refused(4)),
            Step::Put(2, 1, 100, Answer::Accepted),
            Step::Put(2, 2, 100, Answer::Accepted),
            Step::Put(2, 3, 100, Answer::Refused(12)),
            Step::Take(2, 99, Answer::Refused(11)),
            Step::Take(2, 100, Answer::Taken(1, 100)),
            Step::Take(2, 100, Answer::Nothing),
            Step::Put(2, 3, 100, Answer::Accepted),
            Step::Take(2, 100, Answer::Taken(3, 100)),
        ],
    )
}

#[test]
fn holding_by_no_bit_passes_all() -> Result<(), Fail> {
    let mut buf = [0u8; 128];
    let mut layer = Holding::new(0, queue(&mut buf)?);
    for fill in 0..40u8 {
        run(
            &mut layer,
            &[
                Step::Put(2, fill, 9, Answer::Accepted),
                Step::Take(2, 128, Answer::Taken(fill, 9)),
            ],
        )?;
    }
    Ok(())
}

// By all bits every first of two is held back, and comes after the second.
#[test]
fn holding_by_all_bits_swaps_pairs() -> Result<(), Fail> {
    let mut buf = [0u8; 128];
    let mut layer = Holding::new(u32::MAX, queue(&mut buf)?);
    for round in 0..40u8 {
        run(
            &mut layer,
            &[
                Step::Put(2, round, 9, Answer::Accepted),
                Step::Put(2, round + 100, 5, Answer::Accepted),
                Step::Take(2, 128, Answer::Taken(round + 100, 5)),
                Step::Take(2, 128, Answer::Taken(round, 9)),
                Step::Take(2, 128, Answer::Nothing),
            ],
        )?;
    }
    Ok(())
}

// Bits 1 0 0 1: the first and the fourth are held back, the first until the second passes.
#[test]
fn holding_by_a_mixed_pattern() -> Result<(), Fail> {
    let mut buf = [0u8; 128];
    let mut layer = Holding::new(0b1001, queue(&mut buf)?);
    for fill in 1..6u8 {
        run(&mut layer, &[Step::Put(2, fill, 3, Answer::Accepted)])?;
    }
    run(
        &mut layer,
        &[
            Step::Take(2, 128, Answer::Taken(2, 3)),
            Step::Take(2, 128, Answer::Taken(1, 3)),
            Step::Take(2, 128, Answer::Taken(3, 3)),
            Step::Take(2, 128, Answer::Taken(5, 3)),
            Step::Take(2, 128, Answer::Taken(4, 3)),
            Step::Take(2, 128, Answer::Nothing),
        ],
    )
}

// The held datagram is ready for its own receiver alone, once nothing below is ready for it; taking it empties the layer.
#[test]
fn the_held_datagram_is_taken_last() -> Result<(), Fail> {
    let mut buf = [0u8; 128];
    let mut layer = Holding::new(0b010, queue(&mut buf)?);
    run(
        &mut layer,
        &[
            Step::Put(2, 1, 3, Answer::Accepted),
            Step::Put(2, 2, 4, Answer::Accepted),
            Step::Take(1, 128, Answer::Nothing),
            Step::Take(2, 2, Answer::Refused(11)),
            Step::Take(2, 128, Answer::Taken(1, 3)),
            Step::Take(2, 3, Answer::Refused(11)),
            Step::Take(3, 128, Answer::Nothing),
            Step::Take(2, 128, Answer::Taken(2, 4)),
            Step::Take(2, 128, Answer::Nothing),
            Step::Put(2, 3, 5, Answer::Accepted),
            Step::Take(2, 128, Answer::Taken(3, 5)),
            Step::Take(2, 128, Answer::Nothing),
        ],
    )
}

// Keeping back asks for no space below; what is released and refused there stays held.
#[test]
fn a_held_datagram_that_finds_no_space_stays_held() -> Result<(), Fail> {
    let mut buf = [0u8; 128];
    let mut layer = Holding::new(0b0001, queue(&mut buf)?);
    run(
        &mut layer,
        &[
            Step::Put(2, 1, 10_252, Answer::Accepted),
            Step::Put(2, 2, 125, Answer::Refused(12)),
            Step::Put(2, 2, 60, Answer::Accepted),
            Step::Put(3, 3, 60, Answer::Accepted),
            Step::Put(3, 4, 1, Answer::Refused(12)),
            Step::Take(2, 128, Answer::Taken(2, 60)),
            Step::Take(2, 128, Answer::Refused(11)),
            Step::Take(2, 10_252, Answer::Taken(1, 10_252)),
            Step::Take(3, 128, Answer::Taken(3, 60)),
        ],
    )
}

// A refused put turns no pattern and releases nothing.
#[test]
fn holding_turns_only_when_it_accepts() -> Result<(), Fail> {
    let mut buf = [0u8; 128];
    let mut layer = Holding::new(0b1, queue(&mut buf)?);
    run(
        &mut layer,
        &[
            Step::Put(8, 1, 9, Answer::Refused(4)),
            Step::Put(2, 1, 0, Answer::Refused(12)),
            Step::Put(2, 1, 9, Answer::Accepted),
            Step::Put(2, 2, 125, Answer::Refused(12)),
            Step::Put(2, 3, 8, Answer::Accepted),
            Step::Take(2, 128, Answer::Taken(3, 8)),
            Step::Take(2, 128, Answer::Taken(1, 9)),
            Step::Take(8, 128, Answer::Refused(4)),
        ],
    )
}
