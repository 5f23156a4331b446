//! What the program `tables` writes for an input.
ghost use Rattle.std.specs.Prelude.{◌≡◌, length, IfOk, MatchResult, OnOk};
ghost use Rattle.faults.specs.FaultTexts.{fault_line};
ghost use Rattle.text_law.specs.Copies.{checked};
ghost use Rattle.text_law.specs.TextLaw.{TextLaw};

use crate::copy::copy_text;
use faults::fault::Fault;
use sheets::sheet::Sheet;
use std::alloc::{AllocError, Global};

/// Copies a text through a sheet into an output of its length, which then is the text.
fn copy_whole(sheet: &mut Sheet, text: &[u8], out: &mut Vec<u8>) -> Result<(), Fault>
    requires { length out.old.items ≡ length text.now }
    ensures copies { MatchResult result
        (λ _. out.new.items ≡ checked text.now)
        (λ f. fault_line f ≡ checked text.now) }
    ensures law { TextLaw }
{
    copy_text(sheet, text, out)?;
    Ok(())
}

/// A table's text, written again from the sheet that it was read into, or the line of the text's fault.
pub fn check_table(heap: Global, input: &[u8]) -> Result<Vec<u8>, AllocError>
    ensures writes { IfOk result (λ out. out.items ≡ checked input.now) }
    ensures law { OnOk result TextLaw }
{
    let mut sheet = Sheet::new();
    let mut out = vec![in heap; 0; input.len()]?;
    match copy_whole(&mut sheet, input, &mut out) {
        Ok(()) => Ok(out),
        Err(fault) => {
            // The line takes the memory of the text that was not copied.
            out.clear();
            let mut line = String::from_utf8(out).unwrap();
            writeln!(line, "{fault}")?;
            Ok(line.into_bytes())
        }
    }
}
