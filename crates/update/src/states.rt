// The rules of the six states.
ghost use Rattle.std.specs.Prelude.{◌≡◌, ◌≤◌};
ghost use Rattle.consist.specs.Sound.{Sound};
ghost use Rattle.brake.specs.Sound.{most_b};
ghost use Rattle.air.specs.Rules.{fall_in_service, fall_in_emergency};
ghost use Rattle.update.specs.Rules.{in_charged, recharged, in_charging, level_of, fall_or_hold, in_applying_service, in_holding_service, in_applying_emergency, in_holding_emergency, rule_of};
ghost use Rattle.update.specs.Sound.{AirSound};

use air::Air;
use brake::State;
use consist::Consist;
use reading::Reading;

// For a sound consist and what a sample brings.
#[derive(Clone, Copy)]
pub(crate) struct Rules<'a> {
    // lent: a copy of its blocks takes 256 bytes of the stack
    pub consist: &'a Consist,
    pub reading: Reading,
    pub ghost sound: { Sound consist.now },
}

impl<'a> Rules<'a> {
    #[tactic(auto, unfolding(crate::specs::Rules::in_charged))]
    fn in_charged(&self, mut k: Air) -> Air
        ensures { result ≡ in_charged self.now.consist.now k self.now.reading }
    {
        if self.reading.application {
            return k.applying(*self.consist, self.reading);
        }
        k.hold = k.hold.max(self.reading.front);
        k
    }

    // Where A reaches nominal, which is read three times and so has a name, state 0 comes at the next sample.
    #[tactic(auto, unfolding(crate::specs::Rules::recharged))]
    fn recharged(&self, mut k: Air) -> Air
        ensures { result ≡ recharged self.now.consist.now k self.now.reading }
    {
        let nominal = self.reading.nominal;
        if nominal <= k.a {
            k.state = State::Charged;
            return k;
        }
        let gained = k.a as u64 + self.consist.recharge as u64 * self.reading.elapsed as u64;
        k.a = gained.min(nominal as u64) as u16;
        k
    }

    #[tactic(auto, unfolding(crate::specs::Rules::in_charging))]
    fn in_charging(&self, mut k: Air) -> Air
        ensures { result ≡ in_charging self.now.consist.now k self.now.reading }
    {
        if self.reading.application {
            return k.applying(*self.consist, self.reading);
        }
        k.hold = k.hold.max(self.reading.front);
        self.recharged(k)
    }

    #[tactic(auto, unfolding(crate::specs::Rules::fall_or_hold))]
    fn fall_or_hold(&self, k: Air) -> Air
        requires { (fall_in_service k (level_of k self.now.reading) self.now.reading.elapsed).b ≤ most_b }
        ensures { result ≡ fall_or_hold k self.now.reading }
    {
        let level = k.equalization.max(self.reading.front);
        let fallen = k.fallen_in_service(level, self.reading.elapsed);
        if level < fallen.a {
            return fallen;
        }
        Air {
            state: State::HoldingService,
            hold: self.reading.front,
            ..fallen
        }
    }

    // A plain application is no new start.
    #[tactic(auto, unfolding(crate::specs::Rules::in_applying_service))]
    fn in_applying_service(&self, k: Air) -> Air
        requires { (fall_in_service k (level_of k self.now.reading) self.now.reading.elapsed).b ≤ most_b }
        ensures { result ≡ in_applying_service self.now.consist.now k self.now.reading }
    {
        if self.reading.emergency {
            k.applying(*self.consist, self.reading)
        } else if self.reading.release {
            k.charging(self.reading.front)
        } else {
            self.fall_or_hold(k)
        }
    }

    #[tactic(auto, unfolding(crate::specs::Rules::in_holding_service))]
    fn in_holding_service(&self, k: Air) -> Air
        ensures { result ≡ in_holding_service self.now.consist.now k self.now.reading }
    {
        match (self.reading.release, self.reading.application) {
            (true, _) => k.charging(self.reading.front),
            (false, true) => k.applying(*self.consist, self.reading),
            (false, false) => k,
        }
    }

    #[tactic(auto, unfolding(crate::specs::Rules::in_applying_emergency))]
    fn in_applying_emergency(&self, k: Air) -> Air
        requires { (fall_in_emergency k self.now.reading.elapsed).b ≤ most_b }
        ensures { result ≡ in_applying_emergency k self.now.reading }
    {
        let fallen = k.fallen_in_emergency(self.reading.elapsed);
        if k.equalization < fallen.a {
            return fallen;
        }
        Air {
            state: State::HoldingEmergency,
            ..fallen
        }
    }

    #[tactic(auto, unfolding(crate::specs::Rules::in_holding_emergency))]
    fn in_holding_emergency(&self, k: Air) -> Air
        ensures { result ≡ in_holding_emergency k self.now.reading }
    {
        if self.reading.release {
            k.charging(self.reading.front)
        } else {
            k
        }
    }

    // The rule of the brake's state. A match and no closure: a session's record holds the state, and no record holds a function.
    pub(crate) fn ruled(&self, k: Air) -> Air
        requires { AirSound self.now.consist.now k }
        ensures { result ≡ rule_of k.state self.now.consist.now k self.now.reading }
    {
        match k.state {
            State::Charged => self.in_charged(k),
            State::ApplyingService => self.in_applying_service(k),
            State::HoldingService => self.in_holding_service(k),
            State::ApplyingEmergency => self.in_applying_emergency(k),
            State::HoldingEmergency => self.in_holding_emergency(k),
            State::Charging => self.in_charging(k),
        }
    }
}
