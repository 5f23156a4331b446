//! Blocks of fifty cycles, each of a motor with other gains.
use crate::draw::Draw;
use crate::table::TABLE;
use faults::fault::Fault;
use motor::motor::Motor;
use motor::state::{Event, State};
use notch::notch::Coefficients;
use servo::gains::Gains;
use servo::place::Place;
use servo::settings::GainSettings;
use std::test::Fail;

fn draw_settings(draw: &mut Draw) -> GainSettings {
    GainSettings {
        kp: draw.small(8_388_608) as i64,
        kd: draw.small(32_768) as i64,
        kv: draw.small(32_768) as i64,
        ka: draw.small(32_768) as i64,
        ki: draw.small(32_768) as i64,
        error_limit: draw.small(1_048_576) as i64 + 1,
        integrator_limit: draw_integrator_limit(draw),
        following_limit: draw.small(8_388_608) as i64 + 2_000,
        output_limit: draw.below(32_767) as i64 + 1,
        notch: Coefficients {
            n1: draw.signed(2_097_153),
            n2: draw.signed(2_097_153),
            d1: draw.signed(2_097_153),
            d2: draw.signed(2_097_153),
        },
    }
}

fn draw_integrator_limit(draw: &mut Draw) -> i64 {
    let size = draw.small(70_368_744_177_665) >> draw.below(24);
    draw.sign(size)
}

// The checksum h with one more number. By hand: a `Hasher` takes bytes, and would be no plainer.
fn fold(h: u64, v: u64) -> u64 {
    (h ^ v).wrapping_mul(0x100_0000_01b3)
}

fn fold_signed(h: u64, z: i64) -> u64 {
    fold(fold(h, z.unsigned_abs()), u64::from(z < 0))
}

fn fold_float(h: u64, x: f64) -> u64 {
    fold(h, if x.is_nan() { 0 } else { x.to_bits() })
}

// Numbers for the states: the independent drive folds the same ones into its checksum.
fn fold_motor(h: u64, motor: &Motor) -> u64 {
    let state = match motor.state {
        State::Killed => 0,
        State::Closed => 1,
        State::Tripped(cause) => u64::from(cause.number()) + 1,
    };
    let memory = motor.memory;
    let numbers = [
        i64::from(motor.output),
        memory.target.at,
        memory.last_target.at,
        memory.last_position.at,
        memory.last_velocity.at,
        memory.integrator,
    ];
    let notch = motor.notch;
    let floats = [notch.u1, notch.u2, notch.y1, notch.y2];
    let h = numbers.into_iter().fold(fold(h, state), fold_signed);
    floats.into_iter().fold(h, fold_float)
}

fn block(seed: u64) -> Result<u64, Fault> {
    let mut draw = Draw { state: seed };
    let mut motor = Motor::fresh();
    motor.set_gains(Gains::try_from(draw_settings(&mut draw))?);
    let mut x = Place::new(draw.step(1_000_000));
    motor.take(Event::Closing(x.at));
    let mut h = 0xcbf2_9ce4_8422_2325;
    for _ in 0..50 {
        if draw.below(4) == 0 && motor.is_closed() {
            motor.send_to(draw.near(x, 2_000));
        }
        x = draw.near(x, 1_000);
        motor.step(x);
        h = fold_motor(h, &motor);
    }
    Ok(h)
}

/// State, output and every bit that is remembered are those of the independent drive.
#[test]
fn cycles_as_the_independent_drive(rt: HostRuntime) -> Result<(), Fail> {
    for (seed, expected) in TABLE.iter().enumerate() {
        assert_eq!(rt; block(seed as u64)?, *expected);
    }
    Ok(())
}
