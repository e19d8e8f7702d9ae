// What the calls of a group answer where they do not refuse.

// Whether what was recorded was new.
#[derive(Clone, Copy, PartialEq, Eq, Debug)]
pub enum Outcome {
    Grown,
    Same,
}

// What a ship did. An `Option` would not say why nothing went.
#[derive(Clone, Copy, PartialEq, Eq, Debug)]
pub enum Shipped {
    // The receiver is known to have everything.
    Even,
    // A datagram of so many bytes was put, with the clock as its number.
    Sent { len: usize, clock: u32 },
}

// What a deliver did.
#[derive(Clone, Copy, PartialEq, Eq, Debug)]
pub enum Delivered {
    // Nothing was ready.
    Nothing,
    // A delta was recorded; `acked` tells whether the acknowledgement was accepted by the channel.
    Joined {
        outcome: Outcome,
        clock: u32,
        acked: bool,
    },
    // An acknowledgement was heard.
    Heard {
        from: u8,
        number: u32,
    },
}
