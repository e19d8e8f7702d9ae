// Two values of any two kinds, side by side: the left kind's slots, then the right kind's.
ghost use Rattle.std.specs.Prelude.{◌≡◌, ◌+◌, ◌<◌, MatchOption};
ghost use Rattle.kinds.specs.Pairs.{on_left, on_right, pair_ops};
ghost use Rattle.kinds.specs.Couples.{pair_lattice, pair_laws};
ghost use Rattle.std.proofs.Common.{arith};

use lattice::fault::KindFault;
use lattice::kind::Kind;
use lattice::part::{Act, Part};

#[derive(Clone, Copy, PartialEq, Eq, Debug)]
pub struct Pair<A, B> {
    pub left: A,
    pub right: B,
}

// The slot as the right side numbers it, or none where it is the left side's.
// The methods match on it one by one, since the sides are of two kinds and have no call in common.
#[inline]
fn right_slot<A: Kind>(slot: u16) -> Option<u16>
    ensures { MatchOption result (slot < A.ops.width) (λ s. slot ≡ A.ops.width + s) }
{
    let width = u16::try_from(A::width()).ok()?;
    slot.checked_sub(width)
}

impl<A: Kind, B: Kind> Pair<A, B> {
    // The left side given, with bottom on the right.
    #[inline]
    pub(crate) fn on_left(left: A) -> Self
        ensures { result ≡ on_left A.ops B.ops left }
    {
        let right = B::bottom();
        Pair { left, right }
    }

    // The right side given, with bottom on the left.
    #[inline]
    pub(crate) fn on_right(right: B) -> Self
        ensures { result ≡ on_right A.ops B.ops right }
    {
        let left = A::bottom();
        Pair { left, right }
    }
}

// `inline` asks the compiler to put these calls into their callers: each only hands on, and would copy what it answers.
impl<A: Kind, B: Kind> Kind for Pair<A, B> {
    ghost ops = { pair_ops A.ops B.ops };

    ghost ordered = { pair_lattice A.ops B.ops A.ordered B.ordered };

    ghost lawful = { λ u. pair_laws A.ops B.ops (A.lawful (omega arith)) (B.lawful (omega arith)) };

    fn width() -> u32 {
        A::width().saturating_add(B::width())
    }

    fn bottom() -> Self {
        Pair {
            left: A::bottom(),
            right: B::bottom(),
        }
    }

    #[inline]
    fn level(&self, slot: u16) -> u64 {
        match right_slot::<A>(slot) {
            None => self.left.level(slot),
            Some(slot) => self.right.level(slot),
        }
    }

    #[inline]
    fn admits(part: Part) -> bool {
        match right_slot::<A>(part.slot) {
            None => A::admits(part),
            Some(slot) => B::admits(Part { slot, ..part }),
        }
    }

    fn under(&self, other: &Self) -> bool {
        self.left.under(&other.left) && self.right.under(&other.right)
    }

    #[inline]
    fn covers(&self, part: Part) -> bool {
        match right_slot::<A>(part.slot) {
            None => self.left.covers(part),
            Some(slot) => self.right.covers(Part { slot, ..part }),
        }
    }

    #[inline]
    fn join(&mut self, other: &Self) {
        self.left.join(&other.left);
        self.right.join(&other.right);
    }

    #[inline(always)]
    fn join_part(&mut self, part: Part) -> bool {
        match right_slot::<A>(part.slot) {
            None => self.left.join_part(part),
            Some(slot) => self.right.join_part(Part { slot, ..part }),
        }
    }

    #[inline]
    fn effect(&self, actor: u8, act: Act) -> Result<Self, KindFault> {
        let inner = Act {
            place: act.place / 2,
            ..act
        };
        if act.place % 2 == 0 {
            Ok(Self::on_left(self.left.effect(actor, inner)?))
        } else {
            Ok(Self::on_right(self.right.effect(actor, inner)?))
        }
    }
}
