//! A sheet, written into rows of several lengths.
use faults::fault::{Fault, Part, Refusal};
use sheets::sheet::Sheet;
use table_text::table::read_text;
use table_writing::write::write_text;

const TEXT: &[u8] = b"DEFINE COMP 1.1,#1,#2,#3,1,262144\n4\n-8\n32767\nCLOSE\n";

/// A row that is too short stays whole; a longer one keeps what is behind the text.
#[test]
fn writes_what_it_read(rt: HostRuntime) {
    let mut sheet = Sheet::new();
    let mut row = [7u8; 60];
    assert_eq!(rt;
        write_text(&sheet, &mut row),
        Err(Fault::of(Part::Sheet, Refusal::Incomplete))
    );
    assert_eq!(rt; read_text(&mut sheet, TEXT), Ok(()));
    assert_eq!(rt;
        write_text(&sheet, &mut row[0..50]),
        Err(Fault::of(Part::Sheet, Refusal::WrongLength))
    );
    assert_eq!(rt; row, [7u8; 60]);
    assert_eq!(rt; write_text(&sheet, &mut row), Ok(51));
    assert_eq!(rt; &row[0..51], TEXT);
    assert_eq!(rt; &row[51..60], &[7u8; 9][..]);
}
