// The counter as a kind: replica i counts at slot i, and the larger count wins.
ghost use Rattle.std.specs.Prelude.{◌≡◌, ◌<◌, ◌≤◌};
ghost use Rattle.lattice.specs.Simple.{simple_part};
ghost use Rattle.kinds.specs.Counters.{counter_ops, counter_shape, total};
ghost use Rattle.kinds.specs.Levels.{sum_below};
ghost use Rattle.kinds.specs.Counts.{counter_laws};

use super::Counter;
use crate::leaf::check_adds;
use lattice::fault::KindFault;
use lattice::kind::Kind;
use lattice::part::{Act, Part};

impl Counter {
    // What all replicas have counted.
    pub fn total(&self) -> u64
        ensures { result ≡ total self.now }
    {
        self.total_below(8)
    }

    // The sum of the first slots. Apart from `total`, so that its written proof stands here and `total` is one call.
    fn total_below(&self, slots: usize) -> u64
        requires { slots ≤ 8 }
        ensures { result ≡ sum_below (counter_shape.level self.now) slots }
    {
        self.levels[..slots].iter().map(|&n| u64::from(n)).sum()
    }

    fn single(slot: u8, level: u32) -> Counter
        requires { slot < 8 }
        ensures { result ≡ simple_part counter_shape slot level }
    {
        let mut levels = [0; 8];
        levels[usize::from(slot)] = level;
        Counter { levels }
    }
}

impl Kind for Counter {
    ghost ops = { counter_ops };

    ghost ordered = { counter_laws.lattice };

    ghost lawful = { λ _. counter_laws };

    fn width() -> u32 {
        8
    }

    fn bottom() -> Self {
        Counter { levels: [0; 8] }
    }

    fn level(&self, slot: u16) -> u64 {
        self.levels
            .get(usize::from(slot))
            .map_or(0, |&n| u64::from(n))
    }

    fn admits(part: Part) -> bool {
        part.slot < 8 && (1..=u64::from(u32::MAX)).contains(&part.level)
    }

    fn under(&self, other: &Self) -> bool {
        self.levels
            .iter()
            .zip(&other.levels)
            .all(|(mine, theirs)| mine <= theirs)
    }

    fn covers(&self, part: Part) -> bool {
        Self::admits(part) && part.level <= self.level(part.slot)
    }

    fn join(&mut self, other: &Self) {
        // By slot: a proof knows nothing of what is written under `iter_mut().zip(..)`.
        for (slot, mine) in self.levels.iter_mut().enumerate() {
            *mine = (*mine).max(other.levels[slot]);
        }
    }

    fn join_part(&mut self, part: Part) -> bool {
        if !Self::admits(part) {
            return false;
        }
        let slot = usize::from(part.slot);
        self.levels[slot] = self.levels[slot].max(part.level as u32);
        true
    }

    fn effect(&self, actor: u8, act: Act) -> Result<Self, KindFault> {
        check_adds(actor, act)?;
        if act.amount == 0 {
            return Err(KindFault::Amount);
        }
        let level = self.levels[usize::from(actor)]
            .checked_add(act.amount)
            .ok_or(KindFault::Overflow)?;
        Ok(Counter::single(actor, level))
    }
}
