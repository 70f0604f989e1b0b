// An entry as a table keeps it.

/// A key, its hash, and what stands under it.
#[derive(Drop)]
pub struct Slot<K, V> {
    pub key: K,
    pub hash: u32,
    pub value: V,
}
