// Four values of any one kind, by key: key k has the slots from k times the kind's width.
ghost use Rattle.std.specs.Prelude.{◌≡◌, if◌then◌else◌, Some, None, nat_lt};
ghost use Rattle.std.specs.Option.{option_map};
ghost use Rattle.kinds.specs.Fours.{Keyed, at_key, four_effect, four_ops, on_key};

use crate::pair::Pair;
use crate::ruled::{Rule, Ruled};
use lattice::fault::KindFault;
use lattice::kind::Kind;
use lattice::part::Act;

// A place names a key, and the place within it.
#[derive(Clone, Copy, PartialEq, Eq, Debug)]
pub struct ByKey;

type Keys<K> = Pair<Pair<K, K>, Pair<K, K>>;

pub type Four<K> = Ruled<Keys<K>, ByKey>;

impl<K: Kind> Four<K> {
    // The value at a key, of which there are four. Clause `kind` ties the type to the definition of the four.
    pub fn get(&self, key: u8) -> Option<&K>
        ensures answer { option_map (λ x. x.now) result ≡ (if nat_lt key 4 then Some (at_key K.ops self.now key) else None) }
        ensures slots { Keyed K.ops self.now key }
        ensures kind { ⟦<Four<K> as Kind>⟧.ops ≡ four_ops K.ops }
    {
        (key < 4).then(|| self.at_key(u16::from(key)))
    }

    fn at_key(&self, key: u16) -> &K
        ensures { result.now ≡ at_key K.ops self.now key }
    {
        match key {
            0 => &self.held.left.left,
            1 => &self.held.left.right,
            2 => &self.held.right.left,
            _ => &self.held.right.right,
        }
    }

    // The value at one key, with bottom at the others. Matched as in `at_key`: there a value is lent, here one is written.
    fn on_key(key: u16, value: K) -> Self
        ensures { result ≡ on_key K.ops key value }
    {
        let mut keys = Keys::<K>::bottom();
        match key {
            0 => keys.left.left = value,
            1 => keys.left.right = value,
            2 => keys.right.left = value,
            _ => keys.right.right = value,
        }
        Self::from(keys)
    }
}

impl<K: Kind> Rule<Keys<K>> for ByKey {
    ghost effect = { four_effect K.ops };

    fn effect(four: &Four<K>, actor: u8, act: Act) -> Result<Four<K>, KindFault> {
        let key = act.place % 4;
        let place = act.place / 4;
        let value = four.at_key(key).effect(actor, Act { place, ..act })?;
        Ok(Four::on_key(key, value))
    }
}
