// A value as a person reads it.
use crate::iter::Parts;
use crate::kind::Kind;
use crate::narrow::MOST_SLOTS;
use std::fmt;

// Shows the parts of a value below slot 1,024 as slot:level, in rising order. No contract speaks of the text.
#[derive(Drop)]
pub struct Shown<'a, K>(pub &'a K);

impl<K: Kind> fmt::Display for Shown<'_, K> {
    fn fmt<W: fmt::Write>(&self, f: &mut fmt::Formatter<W>) -> fmt::Result {
        f.write_str("{")?;
        let mut first = true;
        // No value has a part past its kind's width.
        let slots = K::width().min(u32::from(MOST_SLOTS)) as u16;
        for part in Parts::first(self.0, slots) {
            if !first {
                f.write_str(" ")?;
            }
            write!(f, "{}:{}", part.slot, part.level)?;
            first = false;
        }
        f.write_str("}")
    }
}
