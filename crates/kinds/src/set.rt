// A set of numbers from 0 to 255.
ghost use Rattle.kinds.specs.Levels.{Bounded};

pub mod as_kind;

// Member m is bit m of the four words, so a set has 32 bytes and is joined word by word.
#[derive(Clone, Copy, PartialEq, Eq, Debug)]
pub struct Set {
    words: [u64; 4],
    ghost ok: { Bounded 4 18446744073709551615 words },
}
