// What comes back where there is no memory for an entry.

/// A key and a value that found no room.
#[derive(Drop)]
pub struct NoRoom<K, V> {
    pub key: K,
    pub value: V,
}
