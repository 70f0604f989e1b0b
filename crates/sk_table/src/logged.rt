// What was counted before an edit.

/// A key, and what was counted under it.
#[derive(Drop)]
pub struct Logged<K> {
    pub key: K,
    pub count: u32,
}
