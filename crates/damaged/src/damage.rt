// The ways of damaging a datagram.
ghost use Rattle.std.specs.Prelude.{◌≡◌, length};

use crate::trials::Trials;
use lattice::kind::Kind;

// A delta's head, before its parts; and a part, of which the slot is the first two bytes.
const HEAD: usize = 12;

const PART: usize = 10;

impl<'a, K: Kind> Trials<'a, K> {
    // Reads the datagram as it stands, which is group a, and then damaged in every way, groups b to g.
    pub fn run(&mut self) -> anyhow::Result<()> {
        self.show(self.good)?;
        self.begin('b');
        self.change_bytes(|byte| byte ^ 0x01)?;
        self.change_bytes(|byte| byte ^ 0x80)?;
        self.change_bytes(|_| 0xff)?;
        self.begin('c');
        self.cut()?;
        self.begin('d');
        self.cut_to_fit()?;
        self.begin('e');
        self.lengthen(&[0])?;
        self.lengthen(&[0; 10])?;
        self.begin('f');
        self.reorder()?;
        self.begin('g');
        self.overstep()
    }

    // Each byte in turn is changed.
    fn change_bytes<F: Fn(u8) -> u8>(&mut self, change: F) -> anyhow::Result<()>
        requires { F.IsAlwaysCallable change }
    {
        for i in 0..self.good.len() {
            self.show_with(self.good, |bytes| {
                if let Some(byte) = bytes.get_mut(i) {
                    *byte = change(*byte);
                }
            })?;
        }
        Ok(())
    }

    // Each proper prefix, as it stands.
    fn cut(&mut self) -> anyhow::Result<()> {
        // A local, which no call of `show` can change.
        let good = self.good;
        for len in 0..good.len() {
            self.show(&good[..len])?;
        }
        Ok(())
    }

    // Each proper prefix that has a length field, which is set to the prefix's own length.
    fn cut_to_fit(&mut self) -> anyhow::Result<()> {
        let good = self.good;
        for len in 2..good.len() {
            self.show_with(&good[..len], set_length)?;
        }
        Ok(())
    }

    // Bytes are appended: with the length field as it stood, and with that of the new length.
    fn lengthen(&mut self, more: &[u8]) -> anyhow::Result<()> {
        let bytes = [self.good, more].concat(self.rt.alloc())?;
        self.show(&bytes)?;
        self.show_with(&bytes, set_length)
    }

    // Of a delta with two parts or more, the first two are swapped; and then the second has the slot of the first.
    fn reorder(&mut self) -> anyhow::Result<()> {
        let Some((head, first, second, rest)) = two_parts(self.good) else {
            return Ok(());
        };
        let heap = self.rt.alloc();
        self.show(&[head, second, first, rest].concat(heap)?)?;
        self.show(&[head, first, &first[..2], &second[2..], rest].concat(heap)?)?;
        Ok(())
    }

    // The other sort; and, where there are parts, the last at the first slot that the kind lacks, and the first at levels
    // past those of a counter and of a set, and at none.
    fn overstep(&mut self) -> anyhow::Result<()> {
        self.show_with(self.good, |bytes| {
            if let Some(sort) = bytes.get_mut(2) {
                *sort ^= 3;
            }
        })?;
        if self.good.len() < HEAD + PART {
            return Ok(());
        }
        let [low, high, ..] = K::width().to_le_bytes();
        self.show_with(self.good, |bytes| {
            if let Some(part) = bytes.last_chunk_mut::<PART>() {
                part[..2].copy_from_slice(&[low, high]);
            }
        })?;
        for level in [1u64 << 32, 2, 0] {
            self.show_with(self.good, |bytes| {
                if let Some(field) = bytes.get_mut(HEAD + 2..HEAD + PART) {
                    field.copy_from_slice(&level.to_le_bytes());
                }
            })?;
        }
        Ok(())
    }
}

// The head, the first two parts and the rest of a delta that has so many.
fn two_parts(delta: &[u8]) -> Option<(&[u8], &[u8; PART], &[u8; PART], &[u8])> {
    let (head, parts) = delta.split_at_checked(HEAD)?;
    let (first, parts) = parts.split_first_chunk()?;
    let (second, rest) = parts.split_first_chunk()?;
    Some((head, first, second, rest))
}

// Sets the length field, the first two bytes, to the number of bytes. Of fewer bytes than two it changes none.
fn set_length(bytes: &mut [u8])
    ensures { length bytes.new ≡ length bytes.old }
{
    let [low, high, ..] = bytes.len().to_le_bytes();
    if let Some(field) = bytes.first_chunk_mut() {
        *field = [low, high];
    }
}
