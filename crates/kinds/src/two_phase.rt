// A set whose members can be removed, once: a pair of sets, added and removed.
ghost use Rattle.std.specs.Prelude.{◌≡◌};
ghost use Rattle.kinds.specs.TwoPhases.{change_of, present, two_phase_effect, two_phase_ops};

use crate::leaf::{check_leaf, named_member};
use crate::pair::Pair;
use crate::ruled::{Rule, Ruled};
use crate::set::Set;
use lattice::fault::KindFault;
use lattice::kind::Kind;
use lattice::part::Act;

// What an act does to a member; the verb says which.
#[derive(Clone, Copy)]
enum Change {
    Add,
    Remove,
}

impl TryFrom<u8> for Change {
    type Error = KindFault;

    ghost try_from_gives = { λ verb result. result ≡ change_of verb };

    fn try_from(verb: u8) -> Result<Self, KindFault> {
        match verb {
            1 => Ok(Change::Add),
            2 => Ok(Change::Remove),
            _ => Err(KindFault::Verb),
        }
    }
}

// Members are added and removed; a removed one never comes back.
#[derive(Clone, Copy, PartialEq, Eq, Debug)]
pub struct AddRemove;

// The members added stand on the left, those removed on the right.
pub type TwoPhase = Ruled<Pair<Set, Set>, AddRemove>;

impl TwoPhase {
    // Whether a member was added and not removed. Clause `kind` ties the type to the definition of the two-phase set.
    pub fn contains(&self, member: u8) -> bool
        ensures answer { result ≡ present self.now member }
        ensures kind { ⟦<TwoPhase as Kind>⟧.ops ≡ two_phase_ops }
    {
        self.held.left.contains(member) && !self.held.right.contains(member)
    }
}

impl Rule<Pair<Set, Set>> for AddRemove {
    ghost effect = { two_phase_effect };

    fn effect(value: &TwoPhase, actor: u8, act: Act) -> Result<TwoPhase, KindFault> {
        check_leaf(actor, act.place)?;
        let change = Change::try_from(act.verb)?;
        let member = named_member(act.amount)?;
        match change {
            Change::Add if value.held.right.contains(member) => Err(KindFault::Barred),
            Change::Add => Ok(Ruled::from(Pair::on_left(Set::single(member)))),
            Change::Remove if !value.contains(member) => Err(KindFault::Barred),
            Change::Remove => Ok(Ruled::from(Pair::on_right(Set::single(member)))),
        }
    }
}
