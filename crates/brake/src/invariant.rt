// A test of the invariant, for any brake and any consist.
ghost use Rattle.std.specs.Prelude.{◌≡◌};
ghost use Rattle.brake.specs.Sound.{is_balanced, is_sound};

use crate::{Brake, State, heard_number};
use consist::Consist;

impl Brake {
    const MOST_PRESSURE: u16 = 16_000;

    // 24 bits of seconds.
    const MOST_TIME: u32 = 0xff_ffff;

    const MOST_B: u16 = 9_434;

    const MOST_FALL: u16 = 3_142;

    // Whether A and B are together what the state allows.
    fn is_balanced(self, set: u16) -> bool
        ensures { result ≡ is_balanced self.state set self.a self.b self.equalization }
    {
        let service = 5 * self.a as u32 + 2 * self.b as u32;
        let emergency = 12 * self.a as u32 + 2 * self.b as u32;
        let most_service = 5 * set as u32;
        let most_emergency = 12 * set as u32;
        match self.state {
            State::Charged | State::Charging => self.b == 0,
            State::ApplyingService => (service <= most_service)
                & (service <= 7 * self.equalization as u32 + 6),
            State::HoldingService => service <= most_service,
            State::ApplyingEmergency => (emergency <= most_emergency)
                & (emergency <= 14 * self.equalization as u32 + 13),
            State::HoldingEmergency => emergency <= most_emergency,
        }
    }

    // Whether the brake is one that a session with this consist may hold. `heard` by its number, as the definition `is_sound` has it.
    #[tactic(auto, unfolding(crate::specs::Sound::is_sound))]
    pub fn is_sound(self, c: Consist) -> bool
        ensures { result ≡ is_sound c self }
    {
        (self.a <= c.set)
            & (self.b <= Brake::MOST_B)
            & (7 * self.equalization as u32 <= 6 * c.set as u32)
            & (self.fall <= Brake::MOST_FALL)
            & (self.hold <= Brake::MOST_PRESSURE)
            & (self.last_front <= Brake::MOST_PRESSURE)
            & (self.last_rear <= Brake::MOST_PRESSURE)
            & (self.last_time <= Brake::MOST_TIME)
            & (heard_number(self.heard) <= Brake::MOST_TIME as u64 + 1)
            & self.is_balanced(c.set)
    }
}
