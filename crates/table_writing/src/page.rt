//! The page that a text is put together on.
ghost use Rattle.std.specs.Prelude.{◌≡◌, [], ◌∷◌, ◌++◌};
ghost use Rattle.filled.specs.Items.{items};
ghost use Rattle.table_writing.specs.Pages.{clip};

use filled::filled::Filled;
use itoa::{Buffer, Integer};

// Not a vector of fixed room: a push there answers whether there was any, and a page always has.
/// A page of 2304 bytes, written from its front. Nothing of a table's text is let go.
pub(crate) type Page = Filled<u8, 2304>;

/// A number after what is there. Every number of a table's text is written here.
pub(crate) fn put_number<N: Integer>(page: &mut Page, number: N)
    ensures { items page.new ≡ clip (items page.old ++ N.text number) }
{
    let mut digits = Buffer::new();
    page.extend(digits.format(number).as_bytes());
}

/// A lead and a number after it.
#[tactic(auto, using(crate::proofs::Pages::then))]
pub(crate) fn put_field<N: Integer>(page: &mut Page, lead: &[u8], number: N)
    ensures { items page.new ≡ clip (items page.old ++ (lead.now ++ N.text number)) }
{
    page.extend(lead);
    put_number(page, number);
}

/// A number and a line's end after it.
#[tactic(auto, using(crate::proofs::Pages::then))]
pub(crate) fn put_line<N: Integer>(page: &mut Page, number: N)
    ensures { items page.new ≡ clip (items page.old ++ (N.text number ++ 10 ∷ [])) }
{
    put_number(page, number);
    page.push(b'\n');
}
