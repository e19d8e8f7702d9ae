// The patterns of the layers: plain numbers, as a caller gives them and contracts read them.
ghost use Rattle.std.specs.Prelude.{◌≡◌};
ghost use Rattle.channel.specs.Patterns.{low_bit, rotated};

// The bit that a put reads.
pub(crate) fn low_bit(pattern: u32) -> bool
    ensures { result ≡ low_bit pattern }
{
    pattern % 2 == 1
}

// The pattern after an accepted put.
#[tactic(auto, using(crate::proofs::Turns::turns))]
pub(crate) fn turned(pattern: u32) -> u32
    ensures { result ≡ rotated pattern }
{
    pattern.rotate_right(1)
}
