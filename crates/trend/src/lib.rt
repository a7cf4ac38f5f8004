// The least-squares line through the points of a falling rear pressure, by their sums, and the application time that it gives.
// Every public function but `is_sound` and `none` asks for sums that are small enough for its words.
#![tactic(auto)]

ghost use Rattle.std.specs.Prelude.{◌≡◌, ◌*◌, ◌<◌, pos, ◌-ℤ◌, ◌*ℤ◌};
ghost use Rattle.trend.specs.Points.{with_point, no_sums};
ghost use Rattle.trend.specs.Sound.{word_most, Sound, Small, Room, Fraction, Quotient, is_sound};
ghost use Rattle.trend.specs.Line.{slope_top, intercept_top, bottom, levels_off};
ghost use Rattle.trend.specs.Result.{dividend, divisor, rounded_up, in_range, time_of, result_of};

// The sums of points (t, p), t in seconds, p in hundredths of a psi.
// Their invariant is no part of the type: `is_sound` answers for every value.
#[derive(Clone, Copy, Debug, PartialEq, Eq)]
pub struct Sums {
    // N
    pub count: u16,
    // of t
    pub times: u32,
    // of t × t
    pub squares: u32,
    // of p
    pub pressures: u32,
    // of t × p
    pub products: u32,
}

impl Sums {
    // Points that are kept at most.
    pub const MOST: u16 = 256;

    // The sums of no point.
    pub fn none() -> Self
        ensures { result ≡ no_sums }
    {
        Self {
            count: 0,
            times: 0,
            squares: 0,
            pressures: 0,
            products: 0,
        }
    }

    // Whether so many points, each within its bounds, can have these sums.
    #[tactic(auto, unfolding(crate::specs::Sound::is_sound))]
    pub fn is_sound(self) -> bool
        ensures { result ≡ is_sound self }
    {
        let n = self.count as u64;
        (self.count <= Self::MOST)
            & (self.times as u64 <= 599 * n)
            & (self.squares as u64 <= 358_801 * n)
            & (self.pressures as u64 <= 16_000 * n)
            & (self.products as u64 <= 9_584_000 * n)
    }

    // The sums with one point more.
    pub fn with_point(self, t: u16, p: u16) -> Self
        requires sound { Sound self }
        requires timely { t < 600 }
        ensures { (result ≡ with_point self t p) × Small result }
    {
        let seconds = t as u32;
        let pressure = p as u32;
        Self {
            count: self.count + 1,
            times: self.times + seconds,
            squares: self.squares + seconds * seconds,
            pressures: self.pressures + pressure,
            products: self.products + seconds * pressure,
        }
    }
}

// a × b − c × d, which M, B and Z all are.
#[tactic(auto, using(crate::proofs::Bounds::apart_most))]
fn determinant(a: u64, b: u64, c: u64, d: u64) -> i64
    requires { Room word_most a b c d }
    ensures { result ≡ pos (a * b) -ℤ pos (c * d) }
{
    (a * b) as i64 - (c * d) as i64
}

// The line through points of sums that are small enough for its words; its methods call them `s`, as the definitions do.
// `levels_off` and `result` ask for the fact and make it: public, they take the sums as a learner keeps them.
#[derive(Clone, Copy)]
struct Line {
    sums: Sums,
    ghost small: { Small sums },
}

impl Line {
    // M: the line's slope is M / Z.
    #[tactic(auto, using(crate::proofs::Bounds::slope_room), unfolding(crate::specs::Line::slope_top))]
    fn slope_top(self) -> i64
        ensures { result ≡ slope_top self.sums }
    {
        let s = self.sums;
        determinant(
            s.count as u64,
            s.products as u64,
            s.times as u64,
            s.pressures as u64,
        )
    }

    // B: its intercept is B / Z.
    #[tactic(auto, using(crate::proofs::Bounds::intercept_room), unfolding(crate::specs::Line::intercept_top))]
    fn intercept_top(self) -> i64
        ensures { result ≡ intercept_top self.sums }
    {
        let s = self.sums;
        determinant(
            s.squares as u64,
            s.pressures as u64,
            s.times as u64,
            s.products as u64,
        )
    }

    // Z.
    #[tactic(auto, using(crate::proofs::Bounds::bottom_room), unfolding(crate::specs::Line::bottom))]
    fn bottom(self) -> i64
        ensures { result ≡ bottom self.sums }
    {
        let s = self.sums;
        determinant(
            s.count as u64,
            s.squares as u64,
            s.times as u64,
            s.times as u64,
        )
    }

    // X: the line's intercept above equalization.
    fn dividend(self, equalization: u16) -> i64
        ensures { result ≡ dividend equalization self.sums }
    {
        let b = self.intercept_top();
        let z = self.bottom();
        b - equalization as i64 * z
    }

    // Y: the final slope, steeper by 1.1 and 0.0933 psi a second where the last pressure is not below equalization.
    fn divisor(self, equalization: u16, p: u16) -> i64
        ensures { result ≡ divisor equalization p self.sums }
    {
        let m = self.slope_top();
        let z = self.bottom();
        if equalization <= p {
            933 * z - 110 * m
        } else {
            -(100 * m)
        }
    }
}

// Whether the last slope, of this fall in so many seconds, is less than half the line's.
pub fn levels_off(fall: u16, seconds: u16, s: Sums) -> bool
    requires { Small s }
    ensures { result ≡ levels_off fall seconds s }
{
    let line = Line { sums: s };
    let m = line.slope_top();
    let z = line.bottom();
    2 * fall as i64 * z < seconds as i64 * -m
}

// 100,000 X / Y up, by 100 X / Y, down, and what that leaves: 100,000 X may not fit.
fn rounded_up(x: i64, y: i64, quotient: i64) -> i64
    requires { Quotient x y quotient }
    ensures { result ≡ rounded_up (pos 100000 *ℤ x) y }
{
    let rest = 100 * x - y * quotient;
    let up = whole::ceil_div(1_000 * rest as u64, y as u64);
    1_000 * quotient + up as i64
}

fn in_range(ms: i64) -> u32
    ensures { result ≡ in_range ms }
{
    ms.clamp(1_000, 240_000) as u32
}

// The time in ms. Far from the range, the quotient alone tells at which end of it the time is held.
fn time(init: u16, x: i64, y: i64) -> u32
    requires timely { init < 600 }
    requires fraction { Fraction x y }
    ensures { result ≡ time_of init x y }
{
    let quotient = whole::floor_div(100 * x, y);
    if 240 <= quotient {
        return 240_000;
    }
    if quotient < -1_000 {
        return 1_000;
    }
    in_range((1_000 * (init as u32 + 1)) as i64 + rounded_up(x, y, quotient))
}

// The application time by the line over the points before the last one, whose pressure is p.
#[tactic(auto, using(crate::proofs::Bounds::dividend_most, crate::proofs::Bounds::divisor_most), unfolding(crate::specs::Result::result_of))]
pub fn result(init: u16, equalization: u16, p: u16, s: Sums) -> Option<u32>
    requires small { Small s }
    requires timely { init < 600 }
    ensures { result ≡ result_of init equalization p s }
{
    let line = Line { sums: s };
    let x = line.dividend(equalization);
    let y = line.divisor(equalization, p);
    if 0 < y { Some(time(init, x, y)) } else { None }
}
