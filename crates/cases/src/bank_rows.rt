//! Banks that are read until they refuse.
use banks::bank::Bank;
use faults::fault::{Fault, Part, Refusal};
use gauges::gauge::Gauge;
use source::source::Source;

fn at(refusal: Refusal, axis: usize) -> Result<(), Fault> {
    Err(Fault::of(Part::Source, refusal).on_axis(axis))
}

fn whole(refusal: Refusal) -> Result<(), Fault> {
    Err(Fault::of(Part::Source, refusal))
}

/// A counter rolls over, and a refused row moves neither axis.
#[test]
fn encoders_move_together(rt: HostRuntime) {
    let mut bank = Bank::new(Gauge::Encoder);
    assert_eq!(rt; bank.advance(&[1]), whole(Refusal::WrongLength));
    assert_eq!(rt;
        bank.set_up(&[16_777_215, 0], 0),
        whole(Refusal::OutOfRange)
    );
    assert_eq!(rt;
        bank.set_up(&[16_777_215, 16_777_216], 9),
        at(Refusal::ReadingTooWide, 1)
    );
    assert_eq!(rt; bank.axes(), 0);
    assert_eq!(rt; bank.set_up(&[16_777_215, 0], 9), Ok(()));
    assert_eq!(rt; bank.advance(&[0, 10]), at(Refusal::JumpTooLarge, 1));
    assert_eq!(rt; bank.bare(0), Ok(0));
    assert_eq!(rt; bank.advance(&[0, 16_777_214]), Ok(()));
    assert_eq!(rt; bank.bare(0), Ok(16));
    assert_eq!(rt; bank.bare(1), Ok(-32));
}

/// The position limit lies 8,193 of the largest moves away.
#[test]
fn encoders_stop_at_the_limit(rt: HostRuntime) {
    let mut bank = Bank::new(Gauge::Encoder);
    assert_eq!(rt; bank.set_up(&[0], 8_388_607), Ok(()));
    let mut reading = 0u32;
    for _ in 0..8_192 {
        reading = (reading + 8_388_607) % 16_777_216;
        assert_eq!(rt; bank.advance(&[reading]), Ok(()));
    }
    assert_eq!(rt; bank.bare(0), Ok(1_099_511_496_704));
    assert_eq!(rt;
        bank.advance(&[(reading + 8_388_607) % 16_777_216]),
        at(Refusal::PositionLimit, 0)
    );
    assert_eq!(rt; bank.bare(0), Ok(1_099_511_496_704));
}

/// A scale's reading is its position.
#[test]
fn scales_are_signed(rt: HostRuntime) {
    let mut bank = Bank::new(Gauge::Scale);
    assert_eq!(rt; bank.set_up(&[4_294_967_295], 5), Ok(()));
    assert_eq!(rt; bank.bare(0), Ok(-1));
    assert_eq!(rt; bank.advance(&[5]), at(Refusal::JumpTooLarge, 0));
    assert_eq!(rt; bank.advance(&[4]), Ok(()));
    assert_eq!(rt; bank.bare(0), Ok(4));
}
