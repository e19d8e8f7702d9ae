// The set as a kind: a slot of level 1 for each member, joined by union.
ghost use Rattle.std.specs.Prelude.{◌≡◌, ◌*◌, ◌≤◌};
ghost use Rattle.kinds.specs.Levels.{sum_below};
ghost use Rattle.kinds.specs.Sets.{count, has, set_ops, set_shape};
ghost use Rattle.lattice.specs.Simple.{simple_part};
ghost use Rattle.kinds.specs.Members.{set_laws};

use super::Set;
use crate::leaf::{check_adds, named_member};
use lattice::fault::KindFault;
use lattice::kind::Kind;
use lattice::part::{Act, Part};

impl Set {
    // The set of one member.
    pub(crate) fn single(member: u8) -> Set
        ensures { result ≡ simple_part set_shape member 1 }
    {
        let member = usize::from(member);
        let mut words = [0; 4];
        words[member / 64] = 1 << (member % 64);
        Set { words }
    }

    pub fn contains(&self, member: u8) -> bool
        ensures { result ≡ has self.now member }
    {
        self.level(u16::from(member)) == 1
    }

    // How many members there are.
    pub fn count(&self) -> u32
        ensures { result ≡ count self.now }
    {
        self.count_in(4)
    }

    // The members in the first words. Apart from `count`, so that its written proof stands here and `count` is one call.
    fn count_in(&self, words: usize) -> u32
        requires { words ≤ 4 }
        ensures { result ≡ sum_below (set_shape.level self.now) (64 * words) }
    {
        self.words[..words]
            .iter()
            .map(|word| word.count_ones())
            .sum()
    }
}

impl Kind for Set {
    ghost ops = { set_ops };

    ghost ordered = { set_laws.lattice };

    ghost lawful = { λ _. set_laws };

    fn width() -> u32 {
        256
    }

    fn bottom() -> Self {
        Set { words: [0; 4] }
    }

    fn level(&self, slot: u16) -> u64 {
        let slot = usize::from(slot);
        self.words
            .get(slot / 64)
            .map_or(0, |word| (word >> (slot % 64)) & 1)
    }

    fn admits(part: Part) -> bool {
        part.slot < 256 && part.level == 1
    }

    fn under(&self, other: &Self) -> bool {
        self.words
            .iter()
            .zip(&other.words)
            .all(|(&mine, &theirs)| mine | theirs == theirs)
    }

    // As the counter's: a trait that holds both kinds' slots and caps would be longer than the lines it shares.
    fn covers(&self, part: Part) -> bool {
        Self::admits(part) && part.level <= self.level(part.slot)
    }

    fn join(&mut self, other: &Self) {
        // By index: a proof knows nothing of what is written under `iter_mut().zip(..)`.
        for (i, mine) in self.words.iter_mut().enumerate() {
            *mine |= other.words[i];
        }
    }

    fn join_part(&mut self, part: Part) -> bool {
        if !Self::admits(part) {
            return false;
        }
        self.join(&Set::single(part.slot as u8));
        true
    }

    fn effect(&self, actor: u8, act: Act) -> Result<Self, KindFault> {
        check_adds(actor, act)?;
        Ok(Set::single(named_member(act.amount)?))
    }
}
