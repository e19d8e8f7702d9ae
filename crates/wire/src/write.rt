// Writing, into a buffer that the caller lends.
ghost use Rattle.std.specs.Prelude.{◌≡◌, ◌≤◌, length, take, is_ok, IfOk, if◌then◌else◌, Ok, Err, nat_lt};
ghost use Rattle.lattice.specs.Ops.{parts, walked};
ghost use Rattle.wire.specs.Bytes.{over, placed};
ghost use Rattle.wire.specs.Datagrams.{ack_bytes, delta_bytes, delta_length, list_bytes, reading, writing};
ghost use Rattle.wire.specs.declared.datagram.Datagram.TheVariants.{Delta};
ghost use Rattle.wire.specs.Faults.{numbered};

use crate::bytes::{head_bytes, put, put_head, put_part};
use crate::datagram::{Header, Sort};
use crate::fault::{WireFault, check_width};
use crate::listed::PART;
use lattice::kind::Kind;
use lattice::narrow::Narrow;
use lattice::part::Part;

// The bytes of the longest datagram: 1,024 parts.
pub const LONGEST: usize = 10_252;

// Writes an acknowledgement to the front of a buffer, and answers its length.
pub fn write_ack(header: Header, buf: &mut [u8]) -> Result<usize, WireFault>
    ensures answer { numbered result ≡ (if nat_lt (length buf.old) 10 then Err 11 else Ok 10) }
    ensures buffer { buf.new ≡ (if is_ok result then placed (ack_bytes header) buf.old else buf.old) }
{
    if buf.len() < 10 {
        return Err(WireFault::Room);
    }
    put(buf, 0, &head_bytes(10, Sort::Ack, header));
    Ok(10)
}

// Writes a value as a delta to the front of a buffer, and answers its length: in one pass over its parts, and one more that
// counts them where there is less room than for the longest datagram.
pub fn write_delta<K: Kind>(header: Header, value: &K, buf: &mut [u8]) -> Result<usize, WireFault>
    ensures answer { numbered result ≡ writing K.ops value.now (length buf.old) }
    ensures buffer { buf.new ≡ (if is_ok result then placed (delta_bytes header (parts K.ops value.now)) buf.old else buf.old) }
    ensures back { IfOk result (λ n. reading K.ops (take n buf.new) ≡ Ok (Delta header value.now)) }
{
    let narrow = check_width::<K>()?;
    check_room(&narrow, value, buf.len())?;
    Ok(put_delta(&narrow, header, value, buf))
}

// Refuses room that is too little for the value's delta. Room for the longest datagram needs no count.
fn check_room<K: Kind>(narrow: &Narrow<K>, value: &K, room: usize) -> Result<(), WireFault>
    ensures { numbered result ≡ (if nat_lt room (delta_length K.ops value.now) then Err 11 else Ok tt) }
{
    if room >= LONGEST {
        return Ok(());
    }
    if room < 12 + PART * narrow.count(value) as usize {
        return Err(WireFault::Room);
    }
    Ok(())
}

fn put_delta<K: Kind>(narrow: &Narrow<K>, header: Header, value: &K, buf: &mut [u8]) -> usize
    requires { delta_length K.ops value.now ≤ length buf.old }
    ensures answer { result ≡ delta_length K.ops value.now }
    ensures buffer { buf.new ≡ placed (delta_bytes header (parts K.ops value.now)) buf.old }
    ensures back { reading K.ops (take result buf.new) ≡ Ok (Delta header value.now) }
{
    let count = write_parts(narrow, value, buf);
    put_head(buf, header, count);
    12 + PART * count as usize
}

// Writes the parts of a value from byte 12 on, and answers how many there are.
// Goes over the slots by itself: under `Parts` this walk takes up to half as much time again.
fn write_parts<K: Kind>(_narrow: &Narrow<K>, value: &K, buf: &mut [u8]) -> u16
    requires { delta_length K.ops value.now ≤ length buf.old }
    ensures count { result ≡ length (parts K.ops value.now) }
    ensures few { result ≤ 1024 }
    ensures buffer { buf.new ≡ over buf.old 12 (list_bytes (parts K.ops value.now)) }
{
    let mut count: u16 = 0;
    for slot in 0..K::width() as u16 {
        let level = value.level(slot);
        if level > 0 {
            put_part(buf, 12 + PART * count as usize, Part { slot, level });
            count += 1;
        }
    }
    count
}
