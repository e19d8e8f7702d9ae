// One real task from beginning to end: two stores keep one stock record, are out of touch for a while, and meet again.
#![tactic(auto)]

mod by_hand;
mod carry;
mod hex;
mod site;

use by_hand::mend;
use carry::bring_level;
use hex::Hex;
use lattice::kind::Kind;
use lattice::show::Shown;
use lattice::walks::{count_parts, equal};
use site::{Site, Stock};
use wire::read::read;
use wire::write::LONGEST;

fn main(rt: HostRuntime) -> anyhow::Result<()> {
    tour(&rt)
}

fn tour(rt: &HostRuntime) -> anyhow::Result<()> {
    println!(rt;
        "Two stores keep one stock record: crates received (a counter) and articles shelved (a set)."
    )?;
    println!(rt;
        "A record is shown by its parts, slot:level. Slot 0 has North's crates, slot 1 South's,"
    )?;
    println!(rt; "and slot 8 + a stands for article a.")?;
    let mut north = Site::new("North", 0);
    let mut south = Site::new("South", 1);
    println!(rt; "\n1. North opens first.")?;
    north.receive(rt, 12)?;
    for article in 1..7 {
        north.shelve(rt, article)?;
    }
    meet(rt, &mut north, &mut south)?;
    println!(rt; "\n2. The line is down, and each store goes on by itself.")?;
    apart(rt, &mut north, &mut south)?;
    println!(rt; "\n3. The line is up again.")?;
    meet(rt, &mut north, &mut south)?;
    println!(rt;
        "\n4. An engineer puts a datagram together by hand, for articles 50 and 51 at South."
    )?;
    mend(rt, &mut south)?;
    meet(rt, &mut north, &mut south)
}

fn apart(rt: &HostRuntime, north: &mut Site, south: &mut Site) -> anyhow::Result<()> {
    north.receive(rt, 5)?;
    north.shelve(rt, 40)?;
    south.receive(rt, 3)?;
    south.shelve(rt, 4)?;
    south.shelve(rt, 41)?;
    south.shelve(rt, 300)?;
    Ok(())
}

// Brings two sites level: each works out what the other lacks, and only that goes over.
fn meet(rt: &HostRuntime, north: &mut Site, south: &mut Site) -> anyhow::Result<()> {
    let mut out = [0u8; LONGEST];
    let mut back = [0u8; LONGEST];
    let from_north = count_parts(&north.stock)?;
    let from_south = count_parts(&south.stock)?;
    let (sent, heard) = bring_level(&mut north.stock, &mut south.stock, &mut out, &mut back)?;
    lacked(rt, south.name, north.name, &sent.value, from_north)?;
    went(rt, sent.bytes)?;
    lacked(rt, north.name, south.name, &heard.value, from_south)?;
    went(rt, heard.bytes)?;
    north.show(rt)?;
    south.show(rt)?;
    let word = if equal(&north.stock, &south.stock) {
        "equal"
    } else {
        "apart"
    };
    println!(rt; "   The two records are {word}.")?;
    Ok(())
}

fn lacked<K: Kind>(
    rt: &HostRuntime,
    to: &str,
    from: &str,
    lacking: &K,
    whole: u16,
) -> anyhow::Result<()> {
    let sent = count_parts(lacking)?;
    println!(rt;
        "   {to} lacks {sent} of {from}'s {whole} parts: {}",
        Shown(lacking)
    )?;
    Ok(())
}

// Shows a datagram, and what comes of a copy of it that was damaged on the way.
fn went(rt: &HostRuntime, bytes: &[u8]) -> anyhow::Result<()> {
    let len = bytes.len().min(LONGEST);
    println!(rt; "      {len} bytes: {}", Hex(&bytes[..len]))?;
    let mut room = [0u8; LONGEST];
    let copy = &mut room[..len];
    copy.copy_from_slice(&bytes[..len]);
    if let Some(byte) = copy.get_mut(2) {
        *byte ^= 4;
    }
    if let Err(fault) = read::<Stock>(copy) {
        let number = fault.number();
        println!(rt; "      a copy with one bit turned: refused by {number}, {fault}")?;
    }
    Ok(())
}
