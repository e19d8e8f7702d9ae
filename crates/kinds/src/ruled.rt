// A kind under acts of one's own: the slots, the order, the join and the laws are those of the kind held, the acts a rule's.
ghost use Rattle.std.specs.Prelude.{◌≡◌, ℕ, Result};
ghost use Rattle.lattice.specs.Faults.{numbered};
ghost use Rattle.lattice.specs.declared.part.Act.{Act};
ghost use Rattle.kinds.specs.declared.ruled.Ruled.{Ruled};
ghost use Rattle.kinds.specs.Ruled.{ruled, ruled_lattice, ruled_laws, ruled_ops};

use lattice::fault::KindFault;
use lattice::kind::Kind;
use lattice::part::{Act, Part};
use std::marker::PhantomData;

#[derive(Clone, Copy, PartialEq, Eq, Debug)]
pub struct Ruled<K, R> {
    pub held: K,
    rule: PhantomData<R>,
}

// How acts are done on the values of a kind.
pub trait Rule<K>: Copy {
    // What the rule is; the method is this function.
    ghost effect: { Ruled K Self → ℕ → Act → Result (Ruled K Self) ℕ };

    // What the act of replica `actor` adds to the value held, or why it is refused.
    fn effect(value: &Ruled<K, Self>, actor: u8, act: Act) -> Result<Ruled<K, Self>, KindFault>
        ensures { numbered result ≡ effect value.now actor act };
}

impl<K: Kind, R> From<K> for Ruled<K, R> {
    ghost from_gives = { λ held result. result ≡ ruled held };

    fn from(held: K) -> Self {
        let rule = PhantomData;
        Ruled { held, rule }
    }
}

// `inline` asks the compiler to put these calls into their callers: each only hands on, and would copy what it answers.
impl<K: Kind, R: Rule<K>> Kind for Ruled<K, R> {
    ghost ops = { ruled_ops K.ops R.effect };

    ghost ordered = { ruled_lattice K.ops R.effect K.ordered };

    ghost lawful = { λ u. ruled_laws K.ops R.effect (K.lawful u) };

    fn width() -> u32 {
        K::width()
    }

    fn bottom() -> Self {
        Ruled::from(K::bottom())
    }

    #[inline]
    fn level(&self, slot: u16) -> u64 {
        self.held.level(slot)
    }

    #[inline]
    fn admits(part: Part) -> bool {
        K::admits(part)
    }

    fn under(&self, other: &Self) -> bool {
        self.held.under(&other.held)
    }

    #[inline]
    fn covers(&self, part: Part) -> bool {
        self.held.covers(part)
    }

    #[inline]
    fn join(&mut self, other: &Self) {
        self.held.join(&other.held);
    }

    #[inline(always)]
    fn join_part(&mut self, part: Part) -> bool {
        self.held.join_part(part)
    }

    #[inline]
    fn effect(&self, actor: u8, act: Act) -> Result<Self, KindFault> {
        R::effect(self, actor, act)
    }
}
