// The parts of a value, one after the other.
ghost use Rattle.std.specs.Prelude.{◌≡◌};
ghost use Rattle.std.specs.Iterator.{YieldsFirst, item_count};
ghost use Rattle.lattice.specs.Walks.{parts_from, to_come};

use crate::kind::Kind;
use crate::part::Part;
use std::ops::Range;

// Goes over the parts of a value in the order of their slots.
#[derive(Drop)]
pub struct Parts<'a, K> {
    value: &'a K,
    slots: Range<u16>,
}

impl<'a, K: Kind> Parts<'a, K> {
    // The parts at the first slots, whatever the kind's width is.
    pub(crate) fn first(value: &'a K, slots: u16) -> Parts<'a, K>
        ensures { to_come K.ops result ≡ parts_from K.ops value.now 0 slots }
    {
        Parts {
            value,
            slots: 0..slots,
        }
    }
}

impl<K: Kind> Iterator for Parts<'_, K> {
    type Item = Part;

    ghost next_gives = { YieldsFirst (to_come K.ops) };

    ghost remaining = { item_count (to_come K.ops) };

    // Without this hint and those in `wire` a draft's `add` took a twelfth more.
    #[inline(always)]
    fn next(&mut self) -> Option<Part> {
        while let Some(slot) = self.slots.next() {
            let level = self.value.level(slot);
            if level > 0 {
                return Some(Part { slot, level });
            }
        }
        None
    }
}
