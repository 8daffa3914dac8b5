// Groups of items that stand one after the other.

// Where each group begins, and after the last one where it ends.
#[derive(Drop)]
pub struct Groups<T> {
    pub(crate) items: Vec<T>,
    pub(crate) starts: Vec<usize>,
}
