use line::{MemberRow, ReadsRow};

// One reference of a statement.
#[derive(Debug, Clone, Copy, PartialEq, Eq)]
pub enum Reference {
    Reads(ReadsRow),
    Member(MemberRow),
}
