//! A sheet and backlash on a bank of scales, row by row.
use backlash::backlash::Backlash;
use banks::bank::Bank;
use gauges::gauge::Gauge;
use sheets::sheet::Sheet;
use source::source::Source;
use stacks::pair::sheet_and_backlash;
use table_text::table::read_text;

/// The backlash is taken up by at most its rate after a reversal, and a refused row changes nothing.
#[test]
fn takes_up_backlash(rt: HostRuntime) {
    let mut sheet = Sheet::new();
    assert_eq!(rt;
        read_text(&mut sheet, b"DEFINE COMP 4,#1,#1,10\n8\n-8\n4\n0\nCLOSE\n"),
        Ok(())
    );
    let mut bank = Bank::new(Gauge::Scale);
    assert_eq!(rt; bank.set_up(&[0], 100), Ok(()));
    let backlash = Backlash {
        axis: 0,
        size: 10,
        rate: 3,
        hysteresis: 5,
    };
    let mut stack = sheet_and_backlash(bank, &sheet, backlash);
    assert_eq!(rt; stack.depth(), 2);
    assert_eq!(rt; stack.advance(&[80]), Ok(()));
    assert_eq!(rt; stack.offset(0), Ok(-8));
    assert_eq!(rt; stack.advance(&[40]), Ok(()));
    assert_eq!(rt; stack.offset(0), Ok(11));
    assert!(rt; stack.advance(&[1_000]).is_err());
    assert_eq!(rt; stack.offset(0), Ok(11));
}
