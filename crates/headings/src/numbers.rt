//! The numbers of a heading as they are asked for, in range or not.

/// The numbers of a screw table's heading.
#[derive(Clone, Copy)]
pub struct ScrewNumbers {
    pub entries: i64,
    pub source: i64,
    pub target: i64,
    pub span: i64,
}

/// The numbers of a plane's heading.
#[derive(Clone, Copy)]
pub struct PlaneNumbers {
    pub rows: i64,
    pub columns: i64,
    pub row_motor: i64,
    pub column_motor: i64,
    pub target: i64,
    pub row_span: i64,
    pub column_span: i64,
}
