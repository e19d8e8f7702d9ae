// How what one replica lacks goes over as bytes.
ghost use Rattle.std.specs.Prelude.{◌≡◌, IfOk, Ok, OnErr, OnOk};
ghost use Rattle.wire.specs.Datagrams.{reading};
ghost use Rattle.wire.specs.declared.datagram.Datagram.TheVariants.{Delta};

use lattice::kind::Kind;
use lattice::walks::difference;
use wire::datagram::{Datagram, Header};
use wire::read::read;
use wire::write::write_delta;

// The first datagram from replica 0 to replica 1, and the first back.
pub const OUT: Header = Header {
    from: 0,
    to: 1,
    number: 1,
};

pub const BACK: Header = Header {
    from: 1,
    to: 0,
    number: 1,
};

// What went over: the value, and the bytes that it took.
#[derive(Clone, Copy)]
pub struct Carried<'a, K> {
    pub value: K,
    pub bytes: &'a [u8],
}

// Brings `there` up to `here` by one datagram through `buf`: afterwards it holds the join of both. A refusal leaves it alone.
#[tactic(auto, using(crate::proofs::Carries::arrives_delta, crate::proofs::Carries::arrives_ack))]
pub fn carry<'a, K: Kind>(
    header: Header,
    here: &K,
    there: &mut K,
    buf: &'a mut [u8],
) -> anyhow::Result<Carried<'a, K>>
    ensures joined { OnOk result (there.new ≡ K.ops.join here.now there.old) }
    ensures kept { OnErr result (there.new ≡ there.old) }
    ensures reads { IfOk result (λ c. reading K.ops c.bytes.now ≡ Ok (Delta header c.value)) }
{
    let value = difference(here, there)?;
    let len = write_delta(header, &value, buf)?;
    let bytes = &buf[..len];
    if let Datagram::Delta(_, received) = read::<K>(bytes)? {
        there.join(&received);
    }
    Ok(Carried { value, bytes })
}

// Brings two replicas level, each by what it lacks of the other; the two datagrams stay in the two buffers.
pub fn bring_level<'a, K: Kind>(
    mine: &mut K,
    theirs: &mut K,
    out: &'a mut [u8],
    back: &'a mut [u8],
) -> anyhow::Result<(Carried<'a, K>, Carried<'a, K>)>
    ensures equal { OnOk result (mine.new ≡ theirs.new) }
    ensures joined { OnOk result (mine.new ≡ K.ops.join mine.old theirs.old) }
{
    let sent = carry(OUT, mine, theirs, out)?;
    let heard = carry(BACK, theirs, mine, back)?;
    Ok((sent, heard))
}
