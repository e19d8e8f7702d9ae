// Numbers as little-endian bytes at a place. Each function asks for room that its callers have seen to: a reader with a
// place of its own would ask for the same at every step.
ghost use Rattle.std.specs.Prelude.{◌≡◌, ◌+◌, ◌*◌, ◌<◌, ◌≤◌, drop, length, take};
ghost use Rattle.wire.specs.Bytes.{over, field, le};
ghost use Rattle.wire.specs.Datagrams.{head, part_bytes};
ghost use Rattle.wire.specs.Sorts.{code};

use crate::datagram::{Header, Sort};
use lattice::part::Part;

// The N bytes at a place.
#[inline(always)]
fn bytes_at<const N: usize>(b: &[u8], at: usize) -> [u8; N]
    requires { at + N ≤ length b.now }
    ensures { result ≡ take N (drop at b.now) }
{
    let mut bytes = [0; N];
    bytes.copy_from_slice(&b[at..at + N]);
    bytes
}

// One function for each width, since the `from_le_bytes` of `std` is of no trait.
pub(crate) fn u16_at(b: &[u8], at: usize) -> u16
    requires { at + 2 ≤ length b.now }
    ensures { result ≡ field b.now at 2 }
{
    u16::from_le_bytes(bytes_at(b, at))
}

pub(crate) fn u32_at(b: &[u8], at: usize) -> u32
    requires { at + 4 ≤ length b.now }
    ensures { result ≡ field b.now at 4 }
{
    u32::from_le_bytes(bytes_at(b, at))
}

pub(crate) fn u64_at(b: &[u8], at: usize) -> u64
    requires { at + 8 ≤ length b.now }
    ensures { result ≡ field b.now at 8 }
{
    u64::from_le_bytes(bytes_at(b, at))
}

// Writes bytes at a place.
pub(crate) fn put(buf: &mut [u8], at: usize, bytes: &[u8])
    requires { at + length bytes.now ≤ length buf.old }
    ensures { buf.new ≡ over buf.old at bytes.now }
{
    let end = at + bytes.len();
    buf[at..end].copy_from_slice(bytes);
}

// The bytes of a header; and that its number fits, which callers' proofs ask for.
pub(crate) fn head_bytes(len: u16, sort: Sort, header: Header) -> [u8; 10]
    ensures bytes { result ≡ head len (code sort) header }
    ensures fits { header.number < 4294967296 }
{
    let a = len.to_le_bytes();
    let b = sort.code().to_le_bytes();
    let n = header.number.to_le_bytes();
    [
        a[0],
        a[1],
        b[0],
        b[1],
        header.from,
        header.to,
        n[0],
        n[1],
        n[2],
        n[3],
    ]
}

// Writes a part at a place: its two numbers one by one, since the ten bytes put together first would be copied once more.
pub(crate) fn put_part(buf: &mut [u8], at: usize, part: Part)
    requires { at + 10 ≤ length buf.old }
    ensures { buf.new ≡ over buf.old at (part_bytes part.slot part.level) }
{
    put(buf, at, &part.slot.to_le_bytes());
    put(buf, at + 2, &part.level.to_le_bytes());
}

// Writes the header and the count of a delta to the front of a buffer.
pub(crate) fn put_head(buf: &mut [u8], header: Header, count: u16)
    requires room { 12 ≤ length buf.old }
    requires short { 12 + 10 * count < 65536 }
    ensures buffer { buf.new ≡ over (over buf.old 0 (head (12 + 10 * count) 1 header)) 10 (le 2 count) }
    ensures fits { header.number < 4294967296 }
{
    put(buf, 0, &head_bytes(12 + 10 * count, Sort::Delta, header));
    put(buf, 10, &count.to_le_bytes());
}
