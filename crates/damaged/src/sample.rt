// Whole datagrams, as the library writes them.
use anyhow::ensure;
use lattice::kind::Kind;
use lattice::part::Part;
use std::alloc::Global;
use wire::datagram::Header;
use wire::fault::WireFault;
use wire::write::{write_ack, write_delta};

// Room for a delta of five parts.
const ROOM: usize = 62;

pub fn ack(heap: Global, header: Header) -> anyhow::Result<Vec<u8>> {
    written(heap, |buf| write_ack(header, buf))
}

pub fn delta<K: Kind>(
    heap: Global,
    header: Header,
    parts: &[(u16, u64)],
) -> anyhow::Result<Vec<u8>> {
    let value = value_of::<K>(parts)?;
    written(heap, |buf| write_delta(header, &value, buf))
}

// The front of a buffer that `write` wrote.
fn written<F: FnOnce(&mut [u8]) -> Result<usize, WireFault>>(
    heap: Global,
    write: F,
) -> anyhow::Result<Vec<u8>>
    requires { F.IsAlwaysCallable write }
{
    let mut bytes = vec![in heap; 0u8; ROOM]?;
    let len = write(&mut bytes)?;
    bytes.truncate(len);
    Ok(bytes)
}

fn value_of<K: Kind>(parts: &[(u16, u64)]) -> anyhow::Result<K> {
    let mut value = K::bottom();
    for &(slot, level) in parts {
        ensure!(
            value.join_part(Part { slot, level }),
            "a part is not admitted"
        );
    }
    Ok(value)
}
