// A datagram put together by hand, as a support engineer would to mend one site.
use crate::carry::OUT;
use crate::hex::Hex;
use crate::site::{Site, Stock};
use lattice::kind::Kind;
use lattice::part::Part;
use wire::datagram::{Datagram, Header};
use wire::draft::Draft;
use wire::read::read;

// Adds articles 50 and 51 to a site by a draft; a part that does not rise is refused on the way.
pub fn mend(rt: &HostRuntime, site: &mut Site) -> anyhow::Result<()> {
    let mut buf = [0u8; 32];
    let mut draft = Draft::begin::<Stock>(Header { number: 2, ..OUT }, &mut buf)?;
    draft.add::<Stock>(&mut buf, Part { slot: 58, level: 1 })?;
    if let Err(fault) = draft.add::<Stock>(&mut buf, Part { slot: 58, level: 1 }) {
        let number = fault.number();
        println!(rt; "   A second part at slot 58 is refused by {number}: {fault}.")?;
    }
    draft.add::<Stock>(&mut buf, Part { slot: 59, level: 1 })?;
    let sealed = draft.seal();
    sealed.check::<Stock>(&buf)?;
    let len = sealed.len();
    println!(rt; "   The sealed datagram has {len} bytes: {}", Hex(&buf))?;
    if let Datagram::Delta(_, value) = read::<Stock>(&buf)? {
        site.stock.join(&value);
    }
    Ok(())
}
