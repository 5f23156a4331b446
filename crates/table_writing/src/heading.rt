//! A heading line, written.
ghost use Rattle.std.specs.Prelude.{◌≡◌, ◌++◌};
ghost use Rattle.filled.specs.Items.{items};
ghost use Rattle.headings.specs.Heads.{screw_of, plane_of, head_of};
ghost use Rattle.table_writing.specs.Pages.{clip};
ghost use Rattle.table_writing.specs.TableTexts.{heading_line};

use crate::page::{Page, put_field};
use headings::heading::{Heading, Plane, Screw};

/// The heading line of a screw table, without its end.
fn put_screw(page: &mut Page, screw: Screw)
    ensures { items page.new ≡ clip (items page.old ++ heading_line (screw_of screw)) }
{
    put_field(page, b"DEFINE COMP ", screw.entries);
    put_field(page, b",#", screw.source.number);
    put_field(page, b",#", screw.target.number);
    put_field(page, b",", screw.span);
}

/// The heading line of a plane, without its end.
fn put_plane(page: &mut Page, plane: Plane)
    ensures { items page.new ≡ clip (items page.old ++ heading_line (plane_of plane)) }
{
    put_field(page, b"DEFINE COMP ", plane.rows);
    put_field(page, b".", plane.columns);
    put_field(page, b",#", plane.row_motor.number);
    put_field(page, b",#", plane.column_motor.number);
    put_field(page, b",#", plane.target.number);
    put_field(page, b",", plane.row_span);
    put_field(page, b",", plane.column_span);
}

/// A heading line, without its end.
pub(crate) fn put_heading(page: &mut Page, heading: Heading)
    ensures { items page.new ≡ clip (items page.old ++ heading_line (head_of heading)) }
{
    match heading {
        Heading::Screw(screw) => put_screw(page, screw),
        Heading::Plane(plane) => put_plane(page, plane),
    }
}
