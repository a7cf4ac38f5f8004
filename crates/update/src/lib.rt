// What becomes of the air brakes with one accepted sample.
#![tactic(auto)]

mod states;

ghost use Rattle.std.specs.Prelude.{◌≡◌};
ghost use Rattle.update.specs.Rules.{update_of};
ghost use Rattle.update.specs.Sound.{Usable};

use air::Air;
use brake::Brake;
use consist::Consist;
use sample::Sample;
use states::Rules;

// The brake after one accepted sample: no rule reads its speed or its place. By name, as an `Air` is another type than a `Brake`.
pub fn updated(k: Brake, c: Consist, m: Sample) -> Brake
    requires { Usable c k }
    ensures { result ≡ update_of c k m.time m.front m.rear }
{
    let reading = reading::of_sample(k, c, m);
    let rules = Rules {
        consist: &c,
        reading,
    };
    let next = rules.ruled(Air::of(k));
    Brake {
        state: next.state,
        hold: next.hold,
        a: next.a,
        b: next.b,
        equalization: next.equalization,
        fall: next.fall,
        last_front: m.front,
        last_rear: reading.rear,
        last_time: m.time,
        sampled: true,
        choice: k.choice,
        heard: reading::heard(k.heard, m),
    }
}
