// The air brakes: what is held of them from sample to sample.
#![tactic(auto)]

mod invariant;

ghost use Rattle.std.specs.Prelude.{◌≡◌};
ghost use Rattle.brake.specs.State.{state_number, state_of};
ghost use Rattle.brake.specs.Rear.{choice_number, choice_of, heard_number, heard_of};
ghost use Rattle.brake.specs.Brake.{at_opening, is_at_opening};
ghost use Rattle.brake.specs.Equalization.{equalization_service};

use consist::Consist;

// With the number that a decision carries.
#[derive(Clone, Copy, Debug, PartialEq, Eq)]
pub enum State {
    Charged = 0,
    ApplyingService = 1,
    HoldingService = 2,
    ApplyingEmergency = 3,
    HoldingEmergency = 4,
    Charging = 5,
}

// What a lost rear counts as, by the opening's choice.
#[derive(Clone, Copy, Debug, PartialEq, Eq)]
pub enum Choice {
    // the last present value for 5 seconds, then front: the default
    FiveSeconds = 0,
    // the last rear, for ever
    Everlasting = 1,
}

// What is held from sample to sample, pressures in hundredths of a psi. The set pressure is the consist's.
// Its invariant is no part of the type: `is_sound` answers for every value.
#[derive(Clone, Copy, Debug, PartialEq, Eq)]
pub struct Brake {
    pub state: State,
    // pipe pressure
    pub hold: u16,
    // average auxiliary reservoir
    pub a: u16,
    // average cylinder
    pub b: u16,
    pub equalization: u16,
    // per second
    pub fall: u16,
    pub last_front: u16,
    pub last_rear: u16,
    // seconds
    pub last_time: u32,
    // whether a sample was yet accepted; a flag, as `is_at_opening` answers for the same readings with it and without it
    pub sampled: bool,
    // of the opening: what a lost rear counts as
    pub choice: Choice,
    // when the rear was last present, seconds
    pub heard: Option<u32>,
}

impl State {
    pub fn number(self) -> u8
        ensures { result ≡ state_number self }
    {
        self as u8
    }

    // The state of a number: past 4, charging. No `TryFrom`, as it answers for every number, and no `From`, which should lose nothing;
    // no trait with `Choice` and `learn::Stage` either: each has its own cases.
    pub fn of_number(n: u64) -> Self
        ensures { result ≡ state_of n }
    {
        match n {
            0 => State::Charged,
            1 => State::ApplyingService,
            2 => State::HoldingService,
            3 => State::ApplyingEmergency,
            4 => State::HoldingEmergency,
            _ => State::Charging,
        }
    }
}

impl Choice {
    pub fn number(self) -> u64
        ensures { result ≡ choice_number self }
    {
        self as u64
    }

    // The choice of a number: any but 0 asks for the everlasting value. Neither `TryFrom` nor `From`, as of the state.
    pub fn of_number(n: u64) -> Self
        ensures { result ≡ choice_of n }
    {
        match n {
            0 => Choice::FiveSeconds,
            _ => Choice::Everlasting,
        }
    }
}

// When the rear was last present, as a number: 0 for never, else one more than the time.
// Functions, this and the next: an `Option` is std's type, and takes no method or `From` of this crate.
pub fn heard_number(heard: Option<u32>) -> u64
    ensures { result ≡ heard_number heard }
{
    heard.map_or(0, |time| time as u64 + 1)
}

// When the rear was last present, by that number.
pub fn heard_of(n: u32) -> Option<u32>
    ensures { result ≡ heard_of n }
{
    n.checked_sub(1)
}

// Where a service application from A and B ends. Of both by themselves: `air` has them in an `Air`, `step` has them alone.
pub fn equalization_service(a: u16, b: u16) -> u16
    ensures { result ≡ equalization_service a b }
{
    ((5 * a as u32 + 2 * b as u32) / 7) as u16
}

impl Brake {
    // Application: a rate below this,
    pub const APPLICATION_RATE: i64 = -100;

    // or hold above front by more than this.
    pub const APPLICATION_DROP: u64 = 300;

    // Release: a rate above this.
    pub const RELEASE_RATE: i64 = 100;

    // Emergency: this rate or a lower one.
    pub const EMERGENCY_RATE: i64 = -1_500;

    // The brake of a new session.
    pub fn at_opening(c: Consist, choice: Choice) -> Self
        ensures { result ≡ at_opening c choice }
    {
        Self {
            state: State::Charged,
            hold: c.set,
            a: c.set,
            b: 0,
            equalization: 0,
            fall: 0,
            last_front: 0,
            last_rear: 0,
            last_time: 0,
            sampled: false,
            choice,
            heard: None,
        }
    }

    // Whether what is held is what an opening gives, whatever its choice, whether or not a sample was accepted.
    pub fn is_at_opening(self, c: Consist) -> bool
        ensures { result ≡ is_at_opening c self }
    {
        self == Self {
            sampled: self.sampled,
            ..Self::at_opening(c, self.choice)
        }
    }
}
