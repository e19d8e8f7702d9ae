// Refusals that several kinds share.
ghost use Rattle.std.specs.Prelude.{◌≡◌, ◌==◌, cond, not, Ok, Err};
ghost use Rattle.lattice.specs.Faults.{numbered};
ghost use Rattle.kinds.specs.Leaf.{leaf, member};

use lattice::fault::KindFault;
use lattice::part::Act;

// Refuses an actor of 8 or more, then a place other than 0: for a kind that has no places of its own.
pub(crate) fn check_leaf(actor: u8, place: u16) -> Result<(), KindFault>
    ensures { numbered result ≡ leaf actor place (Ok tt) }
{
    if actor >= 8 {
        return Err(KindFault::Actor);
    }
    if place != 0 {
        return Err(KindFault::Place);
    }
    Ok(())
}

// Refuses the same, then a verb other than 1: for a kind whose one verb adds.
pub(crate) fn check_adds(actor: u8, act: Act) -> Result<(), KindFault>
    ensures { numbered result ≡ leaf actor act.place (cond (not (act.verb == 1)) (Err 6) (Ok tt)) }
{
    check_leaf(actor, act.place)?;
    if act.verb != 1 {
        return Err(KindFault::Verb);
    }
    Ok(())
}

// The member that an amount names.
pub(crate) fn named_member(amount: u32) -> Result<u8, KindFault>
    ensures { numbered result ≡ member amount (Ok amount) }
{
    u8::try_from(amount).map_err(|_| KindFault::Amount)
}
