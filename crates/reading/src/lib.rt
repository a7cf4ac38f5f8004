// What a sample brings, counted from the one before.
#![tactic(auto)]

ghost use Rattle.std.specs.Prelude.{◌≡◌};
ghost use Rattle.reading.specs.Readings.{elapsed_of, rate_of, heard_after, is_kept, lost_rear, rear_taken, nominal_of, application, release, emergency, reading_of};

use brake::{Brake, Choice};
use consist::Consist;
use sample::{RearPressure, Sample};

// What the rules read of a sample.
#[derive(Clone, Copy, Debug, PartialEq, Eq)]
pub struct Reading {
    // seconds
    pub elapsed: u32,
    pub front: u16,
    pub rear: u16,
    pub nominal: u16,
    pub application: bool,
    pub release: bool,
    pub emergency: bool,
}

// Seconds; 0 in a first sample.
#[tactic(auto, unfolding(crate::specs::Readings::elapsed_of))]
fn elapsed(k: Brake, m: Sample) -> u32
    ensures { result ≡ elapsed_of k m.time }
{
    if k.sampled {
        m.time.saturating_sub(k.last_time)
    } else {
        0
    }
}

// A division by 0 seconds gives 0.
#[tactic(auto, unfolding(crate::specs::Readings::rate_of))]
fn rate(k: Brake, m: Sample) -> i64
    ensures { result ≡ rate_of k m.time m.front }
{
    let fall = m.front as i64 - k.last_front as i64;
    whole::floor_div(fall, elapsed(k, m) as i64)
}

// When the rear was last present, from this sample on.
#[tactic(auto, unfolding(crate::specs::Readings::heard_after))]
pub fn heard(before: Option<u32>, m: Sample) -> Option<u32>
    ensures { result ≡ heard_after before m.time m.rear }
{
    match m.rear {
        RearPressure::Present(_) => Some(m.time),
        RearPressure::Lost => before,
    }
}

// Whether the last present value is at most 5 seconds old.
#[tactic(auto, unfolding(crate::specs::Readings::is_kept))]
fn is_kept(heard: Option<u32>, time: u32) -> bool
    ensures { result ≡ is_kept heard time }
{
    heard.is_some_and(|at| time as u64 <= at as u64 + 5)
}

// What a lost rear counts as. A match and no closure: a session's record holds the choice, and no record holds a function.
#[tactic(auto, unfolding(crate::specs::Readings::lost_rear))]
fn lost_rear(k: Brake, m: Sample) -> u16
    ensures { result ≡ lost_rear k.choice k m.time m.front }
{
    let kept = match k.choice {
        Choice::FiveSeconds => is_kept(k.heard, m.time),
        Choice::Everlasting => k.sampled,
    };
    if kept { k.last_rear } else { m.front }
}

#[tactic(auto, unfolding(crate::specs::Readings::rear_taken))]
fn rear_taken(k: Brake, m: Sample) -> u16
    ensures { result ≡ rear_taken k m.time m.front m.rear }
{
    match m.rear {
        RearPressure::Present(pressure) => pressure,
        RearPressure::Lost => lost_rear(k, m),
    }
}

// The set pressure less half of what the pipe loses from front to rear.
#[tactic(auto, unfolding(crate::specs::Readings::nominal_of))]
pub fn nominal(set: u16, front: u16, rear: u16) -> u16
    ensures { result ≡ nominal_of set front rear }
{
    set.saturating_sub(front.saturating_sub(rear) / 2)
}

#[tactic(auto, unfolding(crate::specs::Readings::application))]
fn is_application(rate: i64, hold: u16, front: u16) -> bool
    ensures { result ≡ application rate hold front }
{
    (rate < Brake::APPLICATION_RATE) | (Brake::APPLICATION_DROP < hold.saturating_sub(front) as u64)
}

#[tactic(auto, unfolding(crate::specs::Readings::release))]
fn is_release(rate: i64) -> bool
    ensures { result ≡ release rate }
{
    Brake::RELEASE_RATE < rate
}

#[tactic(auto, unfolding(crate::specs::Readings::emergency))]
fn is_emergency(rate: i64) -> bool
    ensures { result ≡ emergency rate }
{
    rate <= Brake::EMERGENCY_RATE
}

// What a sample brings to a brake: no rule reads its speed or its place.
#[tactic(auto, unfolding(crate::specs::Readings::reading_of))]
pub fn of_sample(k: Brake, c: Consist, m: Sample) -> Reading
    ensures { result ≡ reading_of c k m.time m.front m.rear }
{
    let rear = rear_taken(k, m);
    let rate = rate(k, m);
    Reading {
        elapsed: elapsed(k, m),
        front: m.front,
        rear,
        nominal: nominal(c.set, m.front, rear),
        application: is_application(rate, k.hold, m.front),
        release: is_release(rate),
        emergency: is_emergency(rate),
    }
}
