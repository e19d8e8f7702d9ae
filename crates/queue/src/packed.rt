// Records of datagrams, packed one after the other in a slice of bytes.
ghost use Rattle.std.specs.Prelude.{◌≡◌, ◌+◌, ◌-◌, ◌≤◌, ◌++◌, length, take, drop, MatchOption};
ghost use Rattle.channel.specs.Meaning.{waiting};
ghost use Rattle.queue.specs.Packed.{Found, encode, lead};

use channel::channel::RECEIVERS;
use wire::write::LONGEST;

// The bytes of a record before its datagram: the receiver, the length in two bytes, the low one first, and a 0.
pub(crate) const HEAD: usize = 4;

// The length of the datagram whose record stands at the front, if one does.
#[tactic(auto, unfolding(crate::specs::Packed::lead))]
fn length_in(bytes: &[u8]) -> Option<usize>
    ensures lead { result ≡ lead bytes.now }
    ensures fits { MatchOption result (Unit {0}) (λ n. 4 + n ≤ length bytes.now) }
{
    let [to, low, high, zero, rest @ ..] = bytes else {
        return None;
    };
    let len = u16::from_le_bytes([*low, *high]) as usize;
    let fits = (1..=LONGEST).contains(&len) && len <= rest.len();
    (*to < RECEIVERS && *zero == 0 && fits).then_some(len)
}

// The first record for a receiver: its place, and its datagram's length. Each record says where the next begins, so that no
// iterator of the library goes over them: the walk is a loop, and yields what it found by `break`.
#[tactic(auto, using(crate::proofs::Walks::walk_start, crate::proofs::Walks::walk_next, crate::proofs::Walks::walk_found))]
pub(crate) fn find(buf: &[u8], receiver: u8) -> Option<(usize, usize)>
    ensures { Found buf.now receiver result }
{
    let mut at = 0;
    'walk: loop {
        let len = length_in(&buf[at..])?;
        if buf[at] == receiver {
            break 'walk Some((at, len));
        }
        at += HEAD + len;
    }
}

// Writes a record at the front.
#[tactic(auto, unfolding(crate::specs::Packed::encode))]
pub(crate) fn store(buf: &mut [u8], receiver: u8, bytes: &[u8])
    requires room { 4 + length bytes.now ≤ length buf.old }
    requires short { length bytes.now ≤ 10252 }
    ensures { buf.new ≡ encode (waiting receiver bytes.now) ++ drop (4 + length bytes.now) buf.old }
{
    let [low, high] = (bytes.len() as u16).to_le_bytes();
    let (head, rest) = buf.split_at_mut(HEAD);
    head.copy_from_slice(&[receiver, low, high, 0]);
    rest[..bytes.len()].copy_from_slice(bytes);
}

// Closes a gap: what follows it moves down.
#[tactic(auto, using(crate::proofs::Walks::moved))]
pub(crate) fn close(buf: &mut [u8], at: usize, gap: usize)
    requires inside { at + gap ≤ length buf.old }
    ensures { take (length buf.old - gap) buf.new ≡ take at buf.old ++ drop (at + gap) buf.old }
{
    buf.copy_within(at + gap.., at);
}
