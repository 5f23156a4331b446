//! What a heading says of a table: how many entries it has, and which axes.
ghost use Rattle.std.specs.Prelude.{◌≡◌, ◌-◌, ◌≤◌};
ghost use Rattle.headings.specs.Heads.{head_of, capacity, row_axis, column_axis, target_axis};

use crate::heading::{Heading, MotorNumber};

impl MotorNumber {
    /// The motor's axis.
    pub fn axis(self) -> usize
        ensures { result ≡ self.number - 1 }
    {
        usize::from(self.number) - 1
    }
}

impl Heading {
    /// How many entries the table has.
    pub fn entries(&self) -> usize
        ensures value { result ≡ capacity (head_of self.now) }
        ensures bound { result ≤ 288 }
    {
        match self {
            Heading::Screw(screw) => usize::from(screw.entries),
            Heading::Plane(plane) => {
                (usize::from(plane.rows) + 1) * (usize::from(plane.columns) + 1) - 1
            }
        }
    }

    /// The axis that a screw is read by, or a plane's rows.
    pub fn row_axis(&self) -> usize
        ensures { result ≡ row_axis (head_of self.now) }
    {
        match self {
            Heading::Screw(screw) => screw.source.axis(),
            Heading::Plane(plane) => plane.row_motor.axis(),
        }
    }

    /// The axis that a screw is read by, or a plane's columns.
    pub fn column_axis(&self) -> usize
        ensures { result ≡ column_axis (head_of self.now) }
    {
        match self {
            Heading::Screw(screw) => screw.source.axis(),
            Heading::Plane(plane) => plane.column_motor.axis(),
        }
    }

    /// The axis that is corrected.
    pub fn target_axis(&self) -> usize
        ensures { result ≡ target_axis (head_of self.now) }
    {
        match self {
            Heading::Screw(screw) => screw.target.axis(),
            Heading::Plane(plane) => plane.target.axis(),
        }
    }
}
