//! Where an axis stands.

/// Where the axis stands after the reading of a line.
#[derive(Clone, Copy)]
pub struct Standing {
    pub line: usize,
    pub bare: i64,
    pub offset: i64,
}
