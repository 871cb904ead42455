// The item of a leaf, with the path of its box.

/// What a leaf gave (its item), and the path of its box.
#[derive(Drop)]
pub struct Part<I> {
    pub path: u64,
    pub item: I,
}
