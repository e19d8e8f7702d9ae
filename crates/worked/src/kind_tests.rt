// Each worked value, and each refusal with its place in the order, on the code.
use kinds::counter::Counter;
use kinds::four::Four;
use kinds::pair::Pair;
use kinds::set::Set;
use kinds::two_phase::TwoPhase;
use lattice::fault::KindFault;
use lattice::kind::Kind;
use lattice::part::{Act, Part};
use lattice::walks::{count_parts, difference, equal};
use std::test::Fail;

// The value of the parts given, as slot and level.
fn value<K: Kind>(parts: &[(u16, u64)]) -> K {
    let mut value = K::bottom();
    for &(slot, level) in parts {
        value.join_part(Part { slot, level });
    }
    value
}

fn act(place: u16, verb: u8, amount: u32) -> Act {
    Act {
        place,
        verb,
        amount,
    }
}

// The number by which an act of replica `actor` is refused, if it is.
fn refusal<K: Kind>(held: &K, actor: u8, place: u16, verb: u8, amount: u32) -> Option<u8> {
    let effect = held.effect(actor, act(place, verb, amount));
    effect.err().map(|fault| fault.number())
}

// Replica 1 counts five more, and the copy of replica 0 learns of it.
fn count(here: &mut Counter, there: &mut Counter) -> Result<(), KindFault> {
    let added = here.effect(1, act(0, 1, 5))?;
    here.join(&added);
    let lacked = difference(here, there)?;
    there.join(&lacked);
    Ok(())
}

#[test]
fn a_count_reaches_the_other_copy(rt: HostRuntime) -> Result<(), Fail> {
    let mut here = value::<Counter>(&[(0, 2), (1, 1)]);
    let mut there = value::<Counter>(&[(0, 4)]);
    count(&mut here, &mut there)?;
    assert!(rt; equal(&there, &value::<Counter>(&[(0, 4), (1, 6)])));
    Ok(())
}

#[test]
fn counters_differ_by_the_larger_levels(rt: HostRuntime) -> Result<(), Fail> {
    let mine = value::<Counter>(&[(0, 5), (1, 3)]);
    let lacked = difference(&mine, &value::<Counter>(&[(0, 5), (1, 2)]))?;
    assert!(rt; equal(&lacked, &value::<Counter>(&[(1, 3)])));
    let none = difference(&value::<Counter>(&[(0, 4)]), &value::<Counter>(&[(0, 5)]))?;
    assert!(rt; equal(&none, &Counter::bottom()));
    assert_eq!(rt; mine.total(), 8);
    Ok(())
}

#[test]
fn pair_sends_odd_places_right(rt: HostRuntime) -> Result<(), Fail> {
    let held = Pair::<Counter, Set>::bottom();
    let effect = held.effect(0, act(1, 1, 4))?;
    assert!(rt; equal(&effect, &value::<Pair<Counter, Set>>(&[(12, 1)])));
    let effect = held.effect(7, act(0, 1, 4))?;
    assert!(rt; equal(&effect, &value::<Pair<Counter, Set>>(&[(7, 4)])));
    Ok(())
}

#[test]
fn removed_stays_absent(rt: HostRuntime) {
    let mut held = value::<TwoPhase>(&[(256 + 9, 1)]);
    held.join(&value::<TwoPhase>(&[(9, 1)]));
    assert!(rt; !held.contains(9));
    assert!(rt; value::<TwoPhase>(&[(9, 1)]).contains(9));
    assert!(rt; !value::<TwoPhase>(&[(256 + 9, 1)]).contains(9));
}

#[test]
fn four_ends_at_slot_1023(rt: HostRuntime) -> Result<(), Fail> {
    let effect = Four::<Set>::bottom().effect(0, act(3, 1, 255))?;
    assert!(rt; equal(&effect, &value::<Four<Set>>(&[(1023, 1)])));
    let set = effect.get(3).ok_or("key 3")?;
    assert!(rt; set.contains(255));
    assert_eq!(rt; set.count(), 1);
    assert!(rt; effect.get(4).is_none());
    Ok(())
}

#[test]
fn counter_takes_the_last_count(rt: HostRuntime) -> Result<(), Fail> {
    let mut held = value::<Counter>(&[(0, 4_294_967_294)]);
    let effect = held.effect(0, act(0, 1, 1))?;
    held.join(&effect);
    assert!(rt; equal(&held, &value::<Counter>(&[(0, 4_294_967_295)])));
    assert_eq!(rt; refusal(&held, 0, 0, 1, 1), Some(9));
    assert_eq!(rt; refusal(&held, 1, 0, 1, 1), None);
    Ok(())
}

#[test]
fn lowest_refusal_comes_first(rt: HostRuntime) {
    let full = value::<Counter>(&[(0, 4_294_967_295)]);
    assert_eq!(rt; refusal(&full, 8, 1, 2, 0), Some(4));
    assert_eq!(rt; refusal(&full, 0, 1, 2, 0), Some(5));
    assert_eq!(rt; refusal(&full, 0, 0, 2, 0), Some(6));
    assert_eq!(rt; refusal(&full, 0, 0, 1, 0), Some(7));
    assert_eq!(rt; refusal(&full, 0, 0, 1, 1), Some(9));
    let set = Set::bottom();
    assert_eq!(rt; refusal(&set, 8, 1, 2, 256), Some(4));
    assert_eq!(rt; refusal(&set, 0, 1, 2, 256), Some(5));
    assert_eq!(rt; refusal(&set, 0, 0, 2, 256), Some(6));
    assert_eq!(rt; refusal(&set, 0, 0, 1, 256), Some(7));
}

#[test]
fn two_phase_set_bars_and_allows(rt: HostRuntime) -> Result<(), Fail> {
    let mut held = value::<TwoPhase>(&[(1, 1), (256 + 2, 1)]);
    assert_eq!(rt; refusal(&held, 8, 1, 3, 256), Some(4));
    assert_eq!(rt; refusal(&held, 0, 1, 3, 256), Some(5));
    assert_eq!(rt; refusal(&held, 0, 0, 3, 256), Some(6));
    assert_eq!(rt; refusal(&held, 0, 0, 2, 256), Some(7));
    assert_eq!(rt; refusal(&held, 0, 0, 1, 2), Some(8));
    assert_eq!(rt; refusal(&held, 0, 0, 2, 3), Some(8));
    assert_eq!(rt; refusal(&held, 0, 0, 1, 3), None);
    let gone = held.effect(0, act(0, 2, 1))?;
    held.join(&gone);
    assert!(rt; !held.contains(1));
    assert_eq!(rt; refusal(&held, 0, 0, 2, 1), Some(8));
    Ok(())
}

// Two levels deep, a place names its way down: key 1 of four pairs, then the right side.
#[test]
fn places_lead_down_and_no_further(rt: HostRuntime) -> Result<(), Fail> {
    let held = Four::<Pair<Counter, Counter>>::bottom();
    let effect = held.effect(2, act(1 + 4 * 1, 1, 6))?;
    assert!(rt;
        equal(
            &effect,
            &value::<Four<Pair<Counter, Counter>>>(&[(16 + 8 + 2, 6)]),
        )
    );
    assert_eq!(rt; refusal(&held, 2, 1 + 4 * 2, 1, 6), Some(5));
    assert_eq!(rt; refusal(&held, 8, 1 + 4 * 2, 1, 6), Some(4));
    Ok(())
}

#[test]
fn wide_kinds_are_not_walked(rt: HostRuntime) -> Result<(), Fail> {
    let widest = Four::<Set>::bottom();
    assert_eq!(rt; count_parts(&widest)?, 0);
    let wide = value::<Pair<Four<Set>, Counter>>(&[(1023, 1), (1024, 7)]);
    assert_eq!(rt; wide.level(1024), 7);
    assert!(rt; matches!(count_parts(&wide), Err(fault) if fault.number() == 3));
    assert!(rt; matches!(difference(&wide, &wide), Err(fault) if fault.number() == 3));
    Ok(())
}

#[test]
fn unfit_parts_are_left_out(rt: HostRuntime) -> Result<(), Fail> {
    let mut set = value::<Set>(&[(3, 1)]);
    assert!(rt;
        !set.join_part(Part {
            slot: 256,
            level: 1,
        })
    );
    assert!(rt; !set.join_part(Part { slot: 4, level: 2 }));
    assert!(rt; !set.join_part(Part { slot: 4, level: 0 }));
    assert!(rt; equal(&set, &value::<Set>(&[(3, 1)])));
    assert!(rt; !set.covers(Part { slot: 3, level: 0 }));
    assert!(rt; set.covers(Part { slot: 3, level: 1 }));
    assert_eq!(rt; count_parts(&set)?, 1);
    Ok(())
}
