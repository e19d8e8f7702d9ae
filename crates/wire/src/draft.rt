// Datagrams that are put together part by part.
ghost use Rattle.std.specs.Prelude.{◌≡◌};

use crate::datagram::{Header, Sort};

pub mod calls;

// A delta to which parts are added. Its buffer, which is the caller's, is lent at each call, and opens with the delta so far.
#[derive(Drop)]
pub struct Draft {
    header: Header,
    count: u16,
}

// A finished datagram, which alone can be sent. A draft becomes one by `seal`, which takes the draft. It tells plain numbers,
// as its contracts read it: sort, header and count, of which an acknowledgement's is 0.
#[derive(Drop)]
pub struct Sealed {
    sort: Sort,
    header: Header,
    count: u16,
}

impl Sealed {
    // Who sends it to whom, and under which number.
    pub fn header(&self) -> Header
        ensures { result ≡ self.now.header }
    {
        self.header
    }
}
