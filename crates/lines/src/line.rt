//! The lines of a text.
ghost use Rattle.std.specs.Prelude.{◌≡◌, ◌<◌, ◌==◌, ◌↔◌, [], ◌∷◌, length, IsTrue, MatchOption, position};
ghost use Rattle.lines.specs.Lines.{CLOSE, cut};

/// Whether a line, without its end, is the one that ends a table.
pub fn is_close(line: &[u8]) -> bool
    ensures { IsTrue result ↔ (line.now ≡ CLOSE) }
{
    line == b"CLOSE".as_slice()
}

/// Where the first line of a text ends.
fn line_end(text: &[u8]) -> Option<usize>
    ensures { result ≡ position (λ c. c == 10) text.now }
{
    text.iter().position(|c| *c == b'\n')
}

/// The first line of a text, without its end, and what follows it.
#[tactic(auto, using(crate::proofs::Cuts::cut_nowhere, crate::proofs::Cuts::cut_there))]
pub fn split_line(text: &[u8]) -> Option<(&[u8], &[u8])>
    ensures { MatchOption result
        (cut text.now ≡ record { lines = []; left = text.now })
        (λ x. (cut text.now
        ≡ record { lines = x.0.now ∷ (cut x.1.now).lines; left = (cut x.1.now).left })
        × (length x.1.now < length text.now)) }
{
    let end = line_end(text)?;
    Some((&text[..end], &text[end + 1..]))
}
