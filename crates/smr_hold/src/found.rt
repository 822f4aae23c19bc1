//! In a file of its own: names of one file may not differ only in the case of their letters, as `Look` and `look` do.

/// What a look at a cell found: its last record.
#[derive(Clone, Copy, Debug, PartialEq, Eq)]
pub struct Look {
    pub value: u64,
    /// From 1 on.
    pub version: u64,
    pub slot: u32,
}
