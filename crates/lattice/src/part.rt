// The two small records that a kind's calls take.

// A slot and the level there.
#[derive(Clone, Copy, PartialEq, Eq, Debug)]
pub struct Part {
    pub slot: u16,
    pub level: u64,
}

// What a replica is asked to do: a verb with its amount, and the place in a composed value where it is done.
// A verb is a number, since each kind has verbs of its own, which only that kind can name.
#[derive(Clone, Copy, PartialEq, Eq, Debug)]
pub struct Act {
    pub place: u16,
    pub verb: u8,
    pub amount: u32,
}
