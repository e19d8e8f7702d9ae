// The calls on drafts and sealed datagrams.
ghost use Rattle.std.specs.Prelude.{◌≡◌, ◌+◌, ◌*◌, ◌≤◌, nat_lt, [], length, IfSome, is_ok, if◌then◌else◌, Ok, Err};
ghost use Rattle.lattice.specs.Ops.{parts, walked};
ghost use Rattle.wire.specs.Bytes.{placed};
ghost use Rattle.wire.specs.Datagrams.{delta_bytes, parts_in, reading};
ghost use Rattle.wire.specs.declared.datagram.Sort.TheVariants.{Delta, Ack};
ghost use Rattle.wire.specs.Drafts.{adding, checking, follows_on, longer, longer_bytes, of_delta, sealed_length, so_far, takes};
ghost use Rattle.wire.specs.Faults.{numbered};

use crate::bytes::{put_head, put_part};
use crate::datagram::{Datagram, Header, Sort};
use crate::draft::{Draft, Sealed};
use crate::fault::{WireFault, check_width};
use crate::listed::PART;
use crate::read::read;
use lattice::kind::Kind;
use lattice::narrow::Narrow;
use lattice::part::Part;

impl Draft {
    // A draft without parts.
    pub fn begin<K: Kind>(header: Header, buf: &mut [u8]) -> Result<Draft, WireFault>
        ensures answer { numbered result ≡ walked K.ops (if nat_lt (length buf.old) 12 then Err 11 else Ok (record { header = header; count = 0 })) }
        ensures buffer { buf.new ≡ (if is_ok result then placed (delta_bytes header []) buf.old else buf.old) }
    {
        check_width::<K>()?;
        if buf.len() < 12 {
            return Err(WireFault::Room);
        }
        put_empty(header, buf);
        Ok(Draft { header, count: 0 })
    }

    // Adds a part, which costs a reading of the parts so far and one walk over the slots.
    pub fn add<K: Kind>(&mut self, buf: &mut [u8], part: Part) -> Result<(), WireFault>
        ensures answer { numbered result ≡ adding K.ops self.old buf.old part.slot part.level }
        ensures draft { self.new ≡ (if is_ok result then longer self.old else self.old) }
        ensures buffer { buf.new ≡ (if is_ok result then placed (longer_bytes self.old buf.old part.slot part.level) buf.old else buf.old) }
    {
        let narrow = check_width::<K>()?;
        if buf.len() < 22 + PART * self.count as usize {
            return Err(WireFault::Room);
        }
        self.grow(&narrow, buf, part)
    }

    // The finished datagram.
    pub fn seal(self) -> Sealed
        ensures { result ≡ record { sort = Delta; header = self.header; count = self.count } }
    {
        Sealed {
            sort: Sort::Delta,
            header: self.header,
            count: self.count,
        }
    }

    // Adds a part where there is room, if it may follow the parts so far.
    fn grow<K: Kind>(
        &mut self,
        narrow: &Narrow<K>,
        buf: &mut [u8],
        part: Part,
    ) -> Result<(), WireFault>
        requires { 22 + 10 * self.old.count ≤ length buf.old }
        ensures answer { numbered result ≡ (if takes K.ops (so_far K.ops self.old buf.old) part.slot part.level then Ok tt else Err 16) }
        ensures draft { self.new ≡ (if is_ok result then longer self.old else self.old) }
        ensures buffer { buf.new ≡ (if is_ok result then placed (longer_bytes self.old buf.old part.slot part.level) buf.old else buf.old) }
    {
        let count = self.count;
        let header = self.header;
        let end = 12 + PART * count as usize;
        let value = delta_of::<K>(header, &buf[0..end]).ok_or(WireFault::Body)?;
        if !may_follow(narrow, &value, part) {
            return Err(WireFault::Body);
        }
        let more = count + 1;
        put_part(buf, end, part);
        put_head(buf, header, more);
        self.count = more;
        Ok(())
    }
}

impl Sealed {
    // An acknowledgement is finished as it is.
    pub fn ack(header: Header) -> Sealed
        ensures { result ≡ record { sort = Ack; header = header; count = 0 } }
    {
        Sealed {
            sort: Sort::Ack,
            header,
            count: 0,
        }
    }

    // How many bytes the datagram has.
    pub fn len(&self) -> usize
        ensures { result ≡ sealed_length self.now }
    {
        match self.sort {
            Sort::Delta => 12 + PART * self.count as usize,
            Sort::Ack => 10,
        }
    }

    // Whether bytes are a datagram of this header and count; what sending does before it puts them.
    pub fn check<K: Kind>(&self, bytes: &[u8]) -> Result<(), WireFault>
        ensures { numbered result ≡ checking K.ops self.now bytes.now }
    {
        let header = read::<K>(bytes)?.header();
        if header != self.header || bytes.len() != self.len() {
            return Err(WireFault::Body);
        }
        Ok(())
    }
}

fn put_empty(header: Header, buf: &mut [u8])
    requires { 12 ≤ length buf.old }
    ensures { buf.new ≡ placed (delta_bytes header []) buf.old }
{
    put_head(buf, header, 0);
}

// The value of a delta with the header given.
fn delta_of<K: Kind>(header: Header, bytes: &[u8]) -> Option<K>
    ensures value { result ≡ of_delta K.ops header (reading K.ops bytes.now) }
    ensures written { IfSome result (λ v. (delta_bytes header (parts K.ops v) ≡ bytes.now) × (parts K.ops v ≡ parts_in bytes.now)) }
{
    match read::<K>(bytes) {
        Ok(Datagram::Delta(own, value)) if own == header => Some(value),
        _ => None,
    }
}

// Whether a part may come after the parts of a value: it rises, and is neither under nor above any of them.
fn may_follow<K: Kind>(narrow: &Narrow<K>, value: &K, part: Part) -> bool
    ensures { result ≡ follows_on K.ops (parts K.ops value.now) part.slot part.level }
{
    let mut alone = K::bottom();
    if !alone.join_part(part) {
        return false;
    }
    if value.covers(part) {
        return false;
    }
    narrow
        .parts(value)
        .all(|other| other.slot < part.slot && !alone.covers(other))
}
