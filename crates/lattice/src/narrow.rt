// Kinds whose slots may be walked.
ghost use Rattle.std.specs.Prelude.{◌≡◌, ◌≤◌, length, Ok};
ghost use Rattle.lattice.specs.Faults.{granted};
ghost use Rattle.lattice.specs.Ops.{parts, walked};
ghost use Rattle.lattice.specs.Walks.{to_come};

use crate::fault::KindFault;
use crate::iter::Parts;
use crate::kind::Kind;
use std::marker::PhantomData;

// More slots than this are never walked: one walk, and with it every call above, stays short.
pub(crate) const MOST_SLOTS: u16 = 1024;

// Shows that a kind has no more slots than may be walked: who is handed one need not ask.
#[derive(Drop)]
pub struct Narrow<K: Kind> {
    kind: PhantomData<K>,
    ghost fits: { K.ops.width ≤ 1024 },
}

impl<K: Kind> Narrow<K> {
    // Refuses a kind whose slots are too many. The answer depends on the kind alone.
    pub fn check() -> Result<Narrow<K>, KindFault>
        ensures { granted result ≡ walked K.ops (Ok tt) }
    {
        if K::width() > u32::from(MOST_SLOTS) {
            return Err(KindFault::Wide);
        }
        Ok(Narrow { kind: PhantomData })
    }

    // The parts of a value, in the order of their slots.
    pub fn parts<'a>(&self, value: &'a K) -> Parts<'a, K>
        ensures { to_come K.ops result ≡ parts K.ops value.now }
    {
        Parts::first(value, K::width() as u16)
    }

    // How many parts a value has.
    pub fn count(&self, value: &K) -> u16
        ensures { result ≡ length (parts K.ops value.now) }
    {
        parts_of(self, value)
    }
}

// Goes over the slots by itself: under `Parts` this walk takes up to twice the time.
fn parts_of<K: Kind>(_narrow: &Narrow<K>, value: &K) -> u16
    ensures { result ≡ length (parts K.ops value.now) }
{
    let mut count = 0;
    for slot in 0..K::width() as u16 {
        if value.level(slot) > 0 {
            count += 1;
        }
    }
    count
}
