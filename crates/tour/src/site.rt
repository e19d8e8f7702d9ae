// A store with its copy of the stock record.
use kinds::counter::Counter;
use kinds::pair::Pair;
use kinds::set::Set;
use lattice::kind::Kind;
use lattice::part::Act;
use lattice::show::Shown;
use std::io;

pub type Stock = Pair<Counter, Set>;

#[derive(Drop)]
pub struct Site {
    pub name: &'static str,
    pub replica: u8,
    pub stock: Stock,
}

impl Site {
    pub fn new(name: &'static str, replica: u8) -> Site {
        Site {
            name,
            replica,
            stock: Stock::bottom(),
        }
    }

    // Crates are counted on the left of the pair, at place 0.
    pub fn receive(&mut self, rt: &HostRuntime, crates: u32) -> io::Result<()> {
        print!(rt; "   {} receives {crates} crates", self.name)?;
        self.add(rt, 0, crates)
    }

    // Articles are shelved on the right, at place 1.
    pub fn shelve(&mut self, rt: &HostRuntime, article: u32) -> io::Result<()> {
        print!(rt; "   {} shelves article {article}", self.name)?;
        self.add(rt, 1, article)
    }

    // Acts by verb 1, which adds at both places.
    fn add(&mut self, rt: &HostRuntime, place: u16, amount: u32) -> io::Result<()> {
        let act = Act {
            place,
            verb: 1,
            amount,
        };
        match self.stock.effect(self.replica, act) {
            Err(fault) => {
                let number = fault.number();
                println!(rt; ": refused by {number}, {fault}")
            }
            Ok(effect) => {
                let known = effect.under(&self.stock);
                self.stock.join(&effect);
                if known {
                    println!(rt; ": nothing new")
                } else {
                    println!(rt; ": adds {}", Shown(&effect))
                }
            }
        }
    }

    pub fn show(&self, rt: &HostRuntime) -> io::Result<()> {
        println!(rt;
            "   {} holds {} crates and {} articles: {}",
            self.name,
            self.stock.left.total(),
            self.stock.right.count(),
            Shown(&self.stock)
        )
    }
}
