// The lines that are printed, one for each trial.
use lattice::kind::Kind;
use lattice::show::Shown;
use std::io;
use std::marker::PhantomData;
use wire::datagram::Datagram;
use wire::read::read;

// The trials of one datagram, which undamaged is `good` and is read as of kind `K`: in which group they are, and how many
// there were in that group.
#[derive(Drop)]
pub struct Trials<'a, K> {
    pub rt: &'a HostRuntime,
    pub good: &'a [u8],
    datagram: u8,
    group: char,
    index: u32,
    kind: PhantomData<K>,
}

impl<'a, K: Kind> Trials<'a, K> {
    // Begins with group a.
    pub fn new(rt: &'a HostRuntime, datagram: u8, good: &'a [u8]) -> Trials<'a, K> {
        Trials {
            rt,
            good,
            datagram,
            group: 'a',
            index: 0,
            kind: PhantomData,
        }
    }

    // Goes on to another group, which counts from 0 again.
    pub fn begin(&mut self, group: char) {
        self.group = group;
        self.index = 0;
    }

    // Prints what the bytes read as.
    pub fn show(&mut self, bytes: &[u8]) -> io::Result<()> {
        print!(self.rt; "{} {} {} ", self.datagram, self.group, self.index)?;
        self.index = self.index.saturating_add(1);
        match read::<K>(bytes) {
            Ok(Datagram::Delta(header, value)) => println!(self.rt;
                "delta {} {} {} {}",
                header.from,
                header.to,
                header.number,
                Shown(&value)
            ),
            Ok(Datagram::Ack(header)) => {
                println!(self.rt; "ack {} {} {}", header.from, header.to, header.number)
            }
            Err(fault) => println!(self.rt; "refused {}", fault.number()),
        }
    }

    // Prints what a copy of the bytes with this damage reads as.
    pub(crate) fn show_with<F: FnOnce(&mut [u8])>(
        &mut self,
        bytes: &[u8],
        damage: F,
    ) -> anyhow::Result<()>
        requires { F.IsAlwaysCallable damage }
    {
        let mut copy = Vec::from_slice(self.rt.alloc(), bytes)?;
        damage(&mut copy);
        self.show(&copy)?;
        Ok(())
    }
}
