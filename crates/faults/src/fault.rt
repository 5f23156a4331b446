//! Why a call was refused, and where.

/// Why a call was refused. The variants have the numbers 1 to 12, in this order.
#[derive(Clone, Copy, PartialEq, Eq, Debug)]
pub enum Refusal {
    WrongForm = 1,
    OutOfRange,
    NoSuchAxis,
    WrongLength,
    ReadingTooWide,
    TooManyEntries,
    Incomplete,
    JumpTooLarge,
    PositionLimit,
    AxisClosed,
    AxisNotClosed,
    StackFull,
}

/// Which part refused it.
#[derive(Clone, Copy, PartialEq, Eq, Debug)]
pub enum Part {
    Text,
    Sheet,
    Source,
    Machine,
}

/// A refusal with its part, and with a line and an axis where it has them.
#[derive(Clone, Copy, PartialEq, Eq, Debug)]
pub struct Fault {
    pub refusal: Refusal,
    pub part: Part,
    pub line: Option<usize>,
    pub axis: Option<usize>,
}
