// What a replica keeps in its ring.

// A delta, and the replica that it came from.
#[derive(Clone, Copy)]
pub struct Kept<K> {
    pub delta: K,
    pub origin: u8,
}
