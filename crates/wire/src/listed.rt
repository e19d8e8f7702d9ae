// The parts that a delta lists, one after the other.
ghost use Rattle.std.specs.Iterator.{YieldsFirst, item_count};
ghost use Rattle.wire.specs.Listed.{to_come};

use crate::bytes::{u16_at, u64_at};
use lattice::part::Part;

// The bytes of a part.
pub(crate) const PART: usize = 10;

// The bytes of the parts still to come; fewer than a part's are none.
#[derive(Drop)]
pub(crate) struct Listed<'a>(pub(crate) &'a [u8]);

impl Iterator for Listed<'_> {
    type Item = Part;

    ghost next_gives = { YieldsFirst to_come };

    ghost remaining = { item_count to_come };

    #[inline(always)]
    fn next(&mut self) -> Option<Part> {
        let bytes = self.0;
        if bytes.len() < PART {
            return None;
        }
        self.0 = &bytes[PART..];
        Some(Part {
            slot: u16_at(bytes, 0),
            level: u64_at(bytes, 2),
        })
    }
}
