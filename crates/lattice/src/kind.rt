// A kind of replicated value.
ghost use Rattle.std.specs.Prelude.{◌≡◌, min};
ghost use Rattle.lattice.specs.Faults.{numbered};
ghost use Rattle.lattice.specs.Laws.{Laws, Lattice, Usable};
ghost use Rattle.lattice.specs.Ops.{Ops, covered, with_part};

use crate::fault::KindFault;
use crate::part::{Act, Part};

// The implementing type is the value itself, so a value is copied by `=` and lives wherever its owner puts it.
// No method asks anything of its caller: each answers for every argument.
pub trait Kind: Copy {
    // What the kind is; every method below is this record's operation of the same name.
    ghost ops: { Ops Self };

    // The number of slots, or the largest u32 where there are more.
    fn width() -> u32
        ensures { result ≡ min ops.width 4294967295 };

    // The value with no part. A kind need not derive a default.
    fn bottom() -> Self
        ensures { result ≡ ops.bottom };

    // The level at a slot, 0 for none: no kind that keeps the laws admits a level of 0.
    fn level(&self, slot: u16) -> u64
        ensures { result ≡ ops.level self.now slot };

    // Whether the slot may have the level.
    fn admits(part: Part) -> bool
        ensures { result ≡ ops.admits part.slot part.level };

    fn under(&self, other: &Self) -> bool
        ensures { result ≡ ops.under self.now other.now };

    // Whether the part lies under the value; a part that is not admitted lies under none.
    fn covers(&self, part: Part) -> bool
        ensures { result ≡ covered ops self.now part };

    fn join(&mut self, other: &Self)
        ensures { self.new ≡ ops.join self.old other.now };

    // Joins the part and answers true; a part that is not admitted changes nothing and answers false, as at a set's `insert`.
    fn join_part(&mut self, part: Part) -> bool
        ensures answer { result ≡ ops.admits part.slot part.level }
        ensures after { self.new ≡ with_part ops self.old part };

    // What the act of replica `actor` adds to the value held, or why it is refused. An act's place changes on its way down, and
    // its actor does not.
    fn effect(&self, actor: u8, act: Act) -> Result<Self, KindFault>
        ensures { numbered result ≡ ops.effect self.now actor act };

    // Its order has joins and a bottom; and it keeps all laws of kinds if it has at most 1,024 slots.
    ghost ordered: { Lattice ops };

    ghost lawful: { Usable ops → Laws ops };
}
