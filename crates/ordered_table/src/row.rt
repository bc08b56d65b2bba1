// A key and its entry.
#[derive(Clone, Copy)]
pub struct Row<K, E> {
    pub key: K,
    pub entry: E,
}
