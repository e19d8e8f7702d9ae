// Reading, in two stages: the header first, since who sends and who is meant is tested before the rest is read.
ghost use Rattle.std.specs.Prelude.{◌≡◌, ◌+◌, ◌*◌, ◌≤◌, length, IfOk, if◌then◌else◌, Some, None};
ghost use Rattle.lattice.specs.Ops.{parts, joined, walked};
ghost use Rattle.wire.specs.Datagrams.{header_in, opening, ranged, same, content, body, reading, written};
ghost use Rattle.wire.specs.Faults.{numbered};
ghost use Rattle.wire.specs.Listed.{all_listed};

use crate::bytes::{u16_at, u32_at};
use crate::datagram::{Datagram, Header, Sort};
use crate::fault::{WireFault, check_width};
use crate::listed::{Listed, PART};
use lattice::kind::Kind;
use lattice::narrow::Narrow;

// What the bytes read as.
#[tactic(auto, using(crate::proofs::Whole::both_stages, crate::proofs::Whole::made_once))]
pub fn read<K: Kind>(bytes: &[u8]) -> Result<Datagram<K>, WireFault>
    ensures answer { numbered result ≡ reading K.ops bytes.now }
    ensures once { IfOk result (λ d. written K.ops d ≡ bytes.now) }
{
    let (sort, header) = read_header::<K>(bytes)?;
    read_body(sort, header, bytes)
}

// The first stage: the sort and the header.
pub fn read_header<K: Kind>(bytes: &[u8]) -> Result<(Sort, Header), WireFault>
    ensures { numbered result ≡ walked K.ops (opening bytes.now) }
{
    check_width::<K>()?;
    if bytes.len() < 10 {
        return Err(WireFault::Length);
    }
    if u16_at(bytes, 0) as usize != bytes.len() {
        return Err(WireFault::Length);
    }
    let sort = Sort::try_from(u16_at(bytes, 2))?;
    Ok((sort, header_in(bytes)))
}

// The second stage: the whole datagram, of the sort and with the header that the first gave.
pub fn read_body<K: Kind>(
    sort: Sort,
    header: Header,
    bytes: &[u8],
) -> Result<Datagram<K>, WireFault>
    ensures { numbered result ≡ walked K.ops (body K.ops bytes.now sort header) }
{
    let narrow = check_width::<K>()?;
    match sort {
        Sort::Delta => Ok(Datagram::Delta(header, read_content(&narrow, bytes)?)),
        Sort::Ack => {
            if bytes.len() != 10 {
                return Err(WireFault::Body);
            }
            Ok(Datagram::Ack(header))
        }
    }
}

// The value of a delta. One pass over the parts joins them, and one over the slots sees that the join has just these parts.
fn read_content<K: Kind>(narrow: &Narrow<K>, bytes: &[u8]) -> Result<K, WireFault>
    ensures { numbered result ≡ content K.ops bytes.now }
{
    if bytes.len() < 12 {
        return Err(WireFault::Body);
    }
    let count = u16_at(bytes, 10);
    if bytes.len() != 12 + PART * count as usize {
        return Err(WireFault::Body);
    }
    let list = &bytes[12..];
    let value = join_listed(narrow, list).ok_or(WireFault::Body)?;
    if !lists(narrow, &value, list) {
        return Err(WireFault::Body);
    }
    Ok(value)
}

// The header of at least 10 bytes.
fn header_in(bytes: &[u8]) -> Header
    requires { 10 ≤ length bytes.now }
    ensures { result ≡ header_in bytes.now }
{
    Header {
        from: bytes[4],
        to: bytes[5],
        number: u32_at(bytes, 6),
    }
}

// The join of the parts listed, if their slots rise and each is admitted. That the kind is narrow bounds the slots.
fn join_listed<K: Kind>(_narrow: &Narrow<K>, list: &[u8]) -> Option<K>
    ensures { result ≡ (if ranged K.ops 0 (all_listed list.now) then Some (joined K.ops (all_listed list.now)) else None) }
{
    let mut value = K::bottom();
    let mut least = 0;
    for part in Listed(list) {
        if part.slot < least {
            return None;
        }
        if !value.join_part(part) {
            return None;
        }
        least = part.slot + 1;
    }
    Some(value)
}

// Whether the parts of a value are those listed. Goes over the slots by itself: under `Parts` this walk takes half as much
// time again.
fn lists<K: Kind>(_narrow: &Narrow<K>, value: &K, list: &[u8]) -> bool
    ensures { result ≡ same (parts K.ops value.now) (all_listed list.now) }
{
    let mut listed = Listed(list);
    for slot in 0..K::width() as u16 {
        let level = value.level(slot);
        if level > 0 {
            let Some(part) = listed.next() else {
                return false;
            };
            if part.slot != slot {
                return false;
            }
            if part.level != level {
                return false;
            }
        }
    }
    listed.next().is_none()
}
