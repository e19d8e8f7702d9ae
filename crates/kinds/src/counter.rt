// A count for each of eight replicas.
ghost use Rattle.kinds.specs.Levels.{Bounded};

pub mod as_kind;

#[derive(Clone, Copy, PartialEq, Eq, Debug)]
pub struct Counter {
    levels: [u32; 8],
    ghost ok: { Bounded 8 4294967295 levels },
}
