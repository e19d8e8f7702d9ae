// What is done with values of any kind, from the laws of kinds alone.
ghost use Rattle.std.specs.Prelude.{◌≡◌, ◌↔◌, IsTrue, length, IfOk, Ok};
ghost use Rattle.lattice.specs.Faults.{numbered};
ghost use Rattle.lattice.specs.Laws.{Usable};
ghost use Rattle.lattice.specs.Least.{Least, DifferenceLeast};
ghost use Rattle.lattice.specs.Ops.{difference, parts, walked};

use crate::fault::KindFault;
use crate::kind::Kind;
use crate::narrow::Narrow;
use crate::part::Part;

// Refuses a kind whose slots are too many to be walked, for who wants that answer alone.
pub fn walkable<K: Kind>() -> Result<(), KindFault>
    ensures { numbered result ≡ walked K.ops (Ok tt) }
{
    Narrow::<K>::check()?;
    Ok(())
}

// Whether two values are equal, which they are when each lies under the other: a kind need not derive `==`.
pub fn equal<K: Kind>(a: &K, b: &K) -> bool
    ensures { IsTrue result ↔ (a.now ≡ b.now) }
{
    a.under(b) && b.under(a)
}

// How many parts a value has.
pub fn count_parts<K: Kind>(value: &K) -> Result<u16, KindFault>
    ensures { numbered result ≡ walked K.ops (Ok (length (parts K.ops value.now))) }
{
    Ok(Narrow::check()?.count(value))
}

// The difference of a from b: the join of the parts of a that are not under b. It is the least value that joined with
// b gives the join of a and b, so it is all that a holder of b lacks of a, and no more.
pub fn difference<K: Kind>(a: &K, b: &K) -> Result<K, KindFault>
    ensures answer { numbered result ≡ walked K.ops (Ok (difference K.ops a.now b.now)) }
    ensures least { IfOk result (Least K.ops a.now b.now) }
{
    let narrow = Narrow::check()?;
    Ok(lacking(&narrow, a, b))
}

// Goes over the slots by itself: under `Parts` this walk takes twice the time at a kind of few slots.
fn lacking<K: Kind>(_narrow: &Narrow<K>, a: &K, b: &K) -> K
    ensures answer { result ≡ difference K.ops a.now b.now }
    ensures least { Least K.ops a.now b.now result }
{
    let mut out = K::bottom();
    for slot in 0..K::width() as u16 {
        let level = a.level(slot);
        if level > 0 {
            let part = Part { slot, level };
            if !b.covers(part) {
                out.join_part(part);
            }
        }
    }
    out
}

// For every kind: the difference of any two values is least in this sense.
pub fn difference_stands<K: Kind>()
    ensures { Usable K.ops → DifferenceLeast K.ops }
{}
