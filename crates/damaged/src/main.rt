// Tries the reading of datagrams on damaged ones: bytes changed, cut off, appended and put out of order. Each trial
// prints a line, and tools/damaged.py works out from the format alone what the lines must be.
#![tactic(auto)]

mod damage;
mod sample;
mod trials;

use kinds::counter::Counter;
use kinds::four::Four;
use kinds::pair::Pair;
use kinds::set::Set;
use kinds::two_phase::TwoPhase;
use lattice::kind::Kind;
use sample::{ack, delta};
use trials::Trials;
use wire::datagram::Header;

fn main(rt: HostRuntime) -> anyhow::Result<()> {
    try_all(&rt)
}

fn try_all(rt: &HostRuntime) -> anyhow::Result<()> {
    let good = ack(rt.alloc(), header(1, 0, 1))?;
    Trials::<Counter>::new(rt, 1, &good).run()?;
    try_delta::<Counter>(rt, 2, header(0, 1, 1), &[(0, 5)])?;
    let most = u32::MAX;
    try_delta::<Counter>(
        rt,
        3,
        header(3, 2, most),
        &[(0, 1), (3, u64::from(most)), (7, 77)],
    )?;
    try_delta::<Pair<Counter, Set>>(rt, 4, header(0, 1, 258), &[(2, 9), (8, 1), (263, 1)])?;
    try_delta::<Four<Set>>(rt, 5, header(6, 7, 65536), &[(0, 1), (511, 1), (1023, 1)])?;
    try_delta::<TwoPhase>(rt, 6, header(1, 0, 9), &[(9, 1), (265, 1)])?;
    try_delta::<Counter>(rt, 7, header(0, 1, 2), &[])
}

fn header(from: u8, to: u8, number: u32) -> Header {
    Header { from, to, number }
}

// Damages the delta with these parts, slot and level, in every way.
fn try_delta<K: Kind>(
    rt: &HostRuntime,
    datagram: u8,
    header: Header,
    parts: &[(u16, u64)],
) -> anyhow::Result<()> {
    let good = delta::<K>(rt.alloc(), header, parts)?;
    Trials::<K>::new(rt, datagram, &good).run()
}
