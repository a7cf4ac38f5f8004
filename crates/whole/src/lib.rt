// The lesser, the greater and the difference of natural numbers, division down and up to a whole number, and the whole square root.
// Every public function answers for every input. `lesser`, `greater` and `above` are std's methods, and stay as they are public.
// Assumes nothing.
#![tactic(auto)]

ghost use Rattle.std.specs.Prelude.{◌≡◌, ◌+◌, ◌*◌, ◌-◌, min, max};
ghost use Rattle.whole.specs.Floor.{floor_div};
ghost use Rattle.whole.specs.Ceiling.{ceil_div};
ghost use Rattle.whole.specs.Root.{root_of};
ghost use Rattle.whole.specs.LongHand.{number, Worked, Ready, Enough};

pub fn lesser(a: u64, b: u64) -> u64
    ensures { result ≡ min a b }
{
    a.min(b)
}

pub fn greater(a: u64, b: u64) -> u64
    ensures { result ≡ max a b }
{
    a.max(b)
}

// a minus b, 0 where b is higher.
pub fn above(a: u64, b: u64) -> u64
    ensures { result ≡ a - b }
{
    a.saturating_sub(b)
}

// Down, where the machine's own quotient goes toward zero.
#[tactic(auto, unfolding(crate::specs::Floor::floor_div))]
pub fn floor_div(a: i64, b: i64) -> i64
    ensures { result ≡ floor_div a b }
{
    if b <= 0 {
        return 0;
    }
    a.div_euclid(b)
}

#[tactic(auto, unfolding(crate::specs::Ceiling::ceil_div))]
pub fn ceil_div(a: u64, b: u64) -> u64
    ensures { result ≡ ceil_div a b }
{
    if b == 0 { 0 } else { a.div_ceil(b) }
}

// A square root worked in long hand: the root of the bits brought down so far, and the rest that its square leaves of them.
#[derive(Clone, Copy)]
struct LongHand {
    root: u64,
    rest: u64,
}

impl LongHand {
    // One turn: a pair of bits is brought down to the rest, and the root gains a digit, 1 where the trial can be taken from the rest.
    // The trial is what that 1 adds to the square: (2 × root + 1)² = 4 × root² + 4 × root + 1.
    fn turn(self, pair: u64) -> LongHand
        requires { Ready self pair }
        ensures { Worked (4 * number self + pair) result }
    {
        let rest = 4 * self.rest + pair;
        let trial = 4 * self.root + 1;
        let digit = if trial <= rest { 1 } else { 0 };
        LongHand {
            root: 2 * self.root + digit,
            rest: rest - digit * trial,
        }
    }
}

// A turn for each pair of bits, by the size of q: a pair before its first is 0 and changes nothing.
fn turns(q: u64) -> u64
    ensures { Enough q result }
{
    if q < 0x1_0000 {
        8
    } else if q < 0x100_0000 {
        12
    } else if q < 0x1000_0000 {
        14
    } else if q < 0x1_0000_0000 {
        16
    } else {
        32
    }
}

// By the digit method learnt at school, two bits a turn, in fewer turns than std's `isqrt`, which halves an interval.
// The bits ahead stand at the top of a word, the next pair first.
pub fn isqrt(q: u64) -> u64
    ensures { result ≡ root_of q }
{
    let turns = turns(q);
    let mut ahead = q << (64 - 2 * turns);
    let mut so_far = LongHand { root: 0, rest: 0 };
    for done in 0..turns {
        so_far = so_far.turn(ahead >> 62);
        ahead = ahead << 2;
    }
    so_far.root
}
