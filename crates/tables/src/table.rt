// A table of rows with a limit, whose memory is reserved when it is made.
// The limit of a table is the memory that it was given.
// It has no model: contracts of a draft could then not say that a refused row leaves all of it as it was.

#[derive(Drop)]
pub(crate) struct Table<T> {
    pub(crate) rows: Vec<T>,
}
