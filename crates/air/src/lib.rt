// The air brakes as the rules change them: a start of applying, a start of charging, a fall.
#![tactic(auto)]

ghost use Rattle.std.specs.Prelude.{◌≡◌, ◌+◌, ◌*◌, ◌^◌, ◌≤◌, ◌<◌};
ghost use Rattle.consist.specs.Sound as consist;
ghost use Rattle.brake.specs.Sound.{most_b};
ghost use Rattle.air.specs.Air.{air_of};
ghost use Rattle.air.specs.Emergency.{in_emergency, emergency_air};
ghost use Rattle.air.specs.Rules.{equalization_emergency, combined, fall_emergency, fall_service, start_emergency, start_service, start_applying, start_charging, drop_of, fall_by, fall_in_service, fall_in_emergency};

use brake::{Brake, State};
use consist::Consist;
use reading::Reading;

// What the rules change of a brake: all that is held but the last sample's readings, which no method here can touch.
#[derive(Clone, Copy, Debug, PartialEq, Eq)]
pub struct Air {
    pub state: State,
    pub hold: u16,
    pub a: u16,
    pub b: u16,
    pub equalization: u16,
    pub fall: u16,
}

// A change per second, over some seconds.
fn over(change: u16, seconds: u32) -> u64
    ensures { (result ≡ change * seconds) × (result < 2 ^ 48) }
{
    change as u64 * seconds as u64
}

// Of its three numbers, as the definition has it: of an `Air` it would read two fields of six.
fn equalization_emergency(a: u16, b: u16, nominal: u16) -> u16
    ensures { result ≡ equalization_emergency a b nominal }
{
    ((5 * a as u32 + 2 * b as u32 + 7 * nominal as u32) / 14) as u16
}

// A combined with nominal.
fn combined(a: u16, nominal: u16) -> u16
    ensures { result ≡ combined a nominal }
{
    ((5 * a as u32 + 7 * nominal as u32) / 12) as u16
}

fn fall_emergency(a: u16, equalization: u16) -> u16
    ensures { result ≡ fall_emergency a equalization }
{
    whole::ceil_div(a.saturating_sub(equalization) as u64, 10) as u16
}

// A sound consist is asked for here, in `applying_service` and in `applying`, all for one division: a type that
// holds the fact stands where more needs it, in `update`.
fn fall_service(c: Consist) -> u16
    requires { consist.Sound c }
    ensures { result ≡ fall_service c }
{
    (2_000 * c.set as u32 / (7 * c.application)) as u16
}

// Whether an emergency is being applied or held.
fn is_in_emergency(state: State) -> bool
    ensures { result ≡ in_emergency state }
{
    matches!(state, State::ApplyingEmergency | State::HoldingEmergency)
}

impl Air {
    // What the rules change of this brake, by name, as the types differ. No `From`: the rest of the brake is left out.
    pub fn of(k: Brake) -> Self
        ensures { result ≡ air_of k }
    {
        Self {
            state: k.state,
            hold: k.hold,
            a: k.a,
            b: k.b,
            equalization: k.equalization,
            fall: k.fall,
        }
    }

    // Equalization is taken from A as it was, the fall from A combined.
    #[tactic(auto, unfolding(crate::specs::Rules::start_emergency))]
    pub fn applying_emergency(self, nominal: u16) -> Self
        ensures { result ≡ start_emergency self nominal }
    {
        let a = combined(self.a, nominal);
        let equalization = equalization_emergency(self.a, self.b, nominal);
        Self {
            state: State::ApplyingEmergency,
            a,
            equalization,
            fall: fall_emergency(a, equalization),
            ..self
        }
    }

    #[tactic(auto, unfolding(crate::specs::Rules::start_service))]
    fn applying_service(self, c: Consist) -> Self
        requires { consist.Sound c }
        ensures { result ≡ start_service c self }
    {
        Self {
            state: State::ApplyingService,
            equalization: brake::equalization_service(self.a, self.b),
            fall: fall_service(c),
            ..self
        }
    }

    // Start applying. A itself first falls at the next sample.
    #[tactic(auto, unfolding(crate::specs::Rules::start_applying))]
    pub fn applying(self, c: Consist, r: Reading) -> Self
        requires { consist.Sound c }
        ensures { result ≡ start_applying c self r }
    {
        if r.emergency {
            self.applying_emergency(r.nominal)
        } else {
            self.applying_service(c)
        }
    }

    // Start charging.
    #[tactic(auto, unfolding(crate::specs::Rules::start_charging))]
    pub fn charging(self, front: u16) -> Self
        ensures { result ≡ start_charging self front }
    {
        Self {
            state: State::Charging,
            hold: front,
            b: 0,
            ..self
        }
    }

    // How far A falls, not past the level.
    fn drop(self, level: u16, elapsed: u32) -> u16
        ensures { result ≡ drop_of self level elapsed }
    {
        let most = self.a.saturating_sub(level);
        over(self.fall, elapsed).min(most as u64) as u16
    }

    // A falls by the drop, and B gains.
    fn fallen(mut self, drop: u16, gain: u32) -> Self
        requires { (drop ≤ self.a) × (self.b + gain ≤ most_b) }
        ensures { result ≡ fall_by self drop gain }
    {
        self.a -= drop;
        self.b += gain as u16;
        self
    }

    // In state 1, where B gains 5/2 of the drop. `drop` and `fallen` have what this and the next share: level and gain are each state's.
    #[tactic(auto, unfolding(crate::specs::Rules::fall_in_service))]
    pub fn fallen_in_service(self, level: u16, elapsed: u32) -> Self
        requires { (fall_in_service self level elapsed).b ≤ most_b }
        ensures { result ≡ fall_in_service self level elapsed }
    {
        let drop = self.drop(level, elapsed);
        self.fallen(drop, 5 * drop as u32 / 2)
    }

    // In state 3, where B gains 6 times the drop.
    #[tactic(auto, unfolding(crate::specs::Rules::fall_in_emergency))]
    pub fn fallen_in_emergency(self, elapsed: u32) -> Self
        requires { (fall_in_emergency self elapsed).b ≤ most_b }
        ensures { result ≡ fall_in_emergency self elapsed }
    {
        let drop = self.drop(self.equalization, elapsed);
        self.fallen(drop, 6 * drop as u32)
    }

    // The air of an emergency from now on, as its curve starts: an emergency that is applied or held already is left as it is.
    #[tactic(auto, unfolding(crate::specs::Emergency::emergency_air))]
    pub fn in_emergency(k: Brake, c: Consist) -> Self
        ensures { result ≡ emergency_air c k }
    {
        let held = Self::of(k);
        if is_in_emergency(k.state) {
            return held;
        }
        held.applying_emergency(reading::nominal(c.set, k.last_front, k.last_rear))
    }
}
