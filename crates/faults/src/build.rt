//! Faults, made from their parts, and a refusal's number.
ghost use Rattle.std.specs.Prelude.{◌≡◌};
ghost use Rattle.faults.specs.Faults.{number, fault_of, on_axis, at_line, text_fault};

use crate::fault::{Fault, Part, Refusal};

impl Refusal {
    /// The number by which a refusal is known outside.
    pub fn number(self) -> u8
        ensures { result ≡ number self }
    {
        self as u8
    }
}

impl Fault {
    /// A fault that names neither a line nor an axis.
    pub fn of(part: Part, refusal: Refusal) -> Fault
        ensures { result ≡ fault_of part refusal }
    {
        Fault {
            refusal,
            part,
            line: None,
            axis: None,
        }
    }

    /// A fault of reading a text, at a line.
    pub fn in_text(refusal: Refusal, line: usize) -> Fault
        ensures { result ≡ text_fault refusal line }
    {
        Fault::of(Part::Text, refusal).at_line(line)
    }

    /// The same fault, at an axis.
    pub fn on_axis(self, axis: usize) -> Fault
        ensures { result ≡ on_axis axis self }
    {
        Fault {
            axis: Some(axis),
            ..self
        }
    }

    /// The same fault, at a line.
    pub fn at_line(self, line: usize) -> Fault
        ensures { result ≡ at_line line self }
    {
        Fault {
            line: Some(line),
            ..self
        }
    }
}
