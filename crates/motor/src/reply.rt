//! What an axis would put out at an error, with its integrator left out.
ghost use Rattle.std.specs.Prelude.{◌≡◌};
ghost use Rattle.motor.specs.Replies.{lagging, measured, replied, reply_answer};
ghost use Rattle.servo.specs.Memories.{memory_of};

use crate::guard::WithoutKi;
use faults::fault::Fault;
use notch::notch::Notch;
use servo::gains::Gains;
use servo::memory::Memory;
use servo::place::Place;
use servo::settings::GainSettings;

// The memory of an axis that stands at 0 and whose target was there before: no velocity, nothing integrated.
fn lag(target: Place) -> Memory
    ensures { memory_of result ≡ lagging target.at }
{
    let mut memory = Memory::starting(target);
    memory.last_position = Place { at: 0 };
    memory
}

// What is put out from there; a trip puts out 0.
fn put_out(gains: &Gains, mut memory: Memory) -> i32
    ensures { result ≡ replied gains.now.settings (memory_of memory) }
{
    let settings = &gains.settings;
    let answer = memory.step(gains, false, Place { at: 0 });
    answer.map_or(
        0,
        |u| Notch::at_rest().filter(settings.notch, settings.output_limit, u),
    )
}

// The reply of gains that are used as they stand.
#[tactic(auto, unfolding(crate::specs::Replies::measured, servo::specs::Ranges::within))]
fn measure(settings: &GainSettings, e0: i64) -> Result<i32, Fault>
    ensures { result ≡ measured settings.now e0 }
{
    let gains = Gains::try_from(*settings)?;
    let target = Place::within_reach(e0)?;
    Ok(put_out(&gains, lag(target)))
}

/// What a freshly closed axis with these gains would put out at the error e0 with no velocity and with ki left out.
/// The gains are afterwards what they were before, by every way out.
pub fn reply(gains: &mut GainSettings, e0: i64) -> Result<i32, Fault>
    ensures answer { result ≡ reply_answer gains.old e0 }
    ensures restored { gains.new ≡ gains.old }
{
    Gains::try_from(*gains)?;
    let without = WithoutKi::new(gains);
    // An early way out inside the guard, which gives ki back there too.
    let output = measure(without.gains, e0)?;
    Ok(output)
}
