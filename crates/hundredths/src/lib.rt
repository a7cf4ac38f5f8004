// A binary32 reading, judged by f32 comparisons and made hundredths, up or down, exactly.
#![tactic(auto)]

ghost use Rattle.std.specs.Prelude.{◌≡◌, false, ◌/◌, ◌^◌};
ghost use Rattle.std.specs.Float.{binary32};
ghost use Rattle.std.specs.Float.Ieee.{of_bits, to_bits};
ghost use Rattle.hundredths.specs.InRange.{in_range};
ghost use Rattle.hundredths.specs.IsFraction.{IsFraction, most_exact};
ghost use Rattle.hundredths.specs.Reading.{rounded, hundredths_of, is_bad, most_psi, speed_of, pressure_of, reading_told};

const MOST_SPEED: f32 = 100.0;

const MOST_PSI: f32 = 160.0;

// A bit pattern is the sign, the exponent's field of 8 bits, and a tail of 23 digits. This is the sign's weight.
const SIGN: u32 = 0x8000_0000;

// The field's weight, which is also that of the digit before the tail.
const LEAD: u32 = 0x80_0000;

const INFINITY: u32 = 0x7f80_0000;

// The one pattern that is written for a NaN.
const NAN: u32 = 0x7fc0_0000;

// Public for the definitions behind the contracts.
#[derive(Clone, Copy, Debug, PartialEq, Eq)]
pub enum Rounding {
    Up,
    Down,
}

// digits / 2 ^ places
#[derive(Clone, Copy)]
struct Fraction {
    digits: u32,
    places: u32,
}

// For every pattern: a NaN's gives a NaN. No `From`, here and in `bits_of`: both types are std's, whose own is undefined at a NaN.
pub fn float_of(bits: u32) -> f32
    ensures { result ≡ of_bits binary32 bits }
{
    if bits % SIGN > INFINITY {
        0.0 / 0.0
    } else {
        f32::from_bits(bits)
    }
}

// For every float: a NaN gives NAN.
pub fn bits_of(x: f32) -> u32
    ensures { result ≡ to_bits binary32 x }
{
    if x != x { NAN } else { f32::to_bits(x) }
}

// Two readers, as one over any limit would have to ask that it is no higher than a pressure's.
pub fn speed(x: f32) -> Option<u16>
    ensures { reading_told result ≡ reading_told (speed_of x) }
{
    if in_range(x, MOST_SPEED) {
        Some(hundredths(x, Rounding::Up))
    } else {
        None
    }
}

pub fn pressure(x: f32) -> Option<u16>
    ensures { reading_told result ≡ reading_told (pressure_of x) }
{
    if in_range(x, MOST_PSI) {
        Some(hundredths(x, Rounding::Down))
    } else {
        None
    }
}

// The sign by its bit too: a processor that a host has told to take denormals as zero compares a negative one as zero.
fn in_range(x: f32, most: f32) -> bool
    ensures { result ≡ in_range x most }
{
    (x >= 0.0) & (bits_of(x) <= SIGN) & (x <= most)
}

// The pressure's limit is the higher of the two.
fn hundredths(x: f32, rounding: Rounding) -> u16
    requires { is_bad most_psi x ≡ false }
    ensures { result ≡ hundredths_of rounding x }
{
    let value = exact(x);
    quotient(100 * value.digits, value.places, rounding) as u16
}

// The field f counts 2 ^ (f - 150). A field of 0 stands for no leading digit, and counts as 1.
fn exact(x: f32) -> Fraction
    requires { is_bad most_exact x ≡ false }
    ensures { IsFraction x result }
{
    let bits = bits_of(x);
    let field = bits % SIGN / LEAD;
    let tail = bits % LEAD;
    if field == 0 {
        return Fraction {
            digits: tail,
            places: 149,
        };
    }
    let digits = LEAD + tail;
    let places = 150 - field;
    Fraction { digits, places }
}

// n / 2 ^ places. A match and no closure: `rounded` is defined by these two cases.
fn quotient(n: u32, places: u32, rounding: Rounding) -> u32
    ensures { result ≡ rounded rounding n (2 ^ places) }
{
    match rounding {
        Rounding::Down => shifted(n, places),
        Rounding::Up => {
            if n == 0 {
                0
            } else {
                shifted(n - 1, places) + 1
            }
        }
    }
}

// To the right, by any number of places.
fn shifted(n: u32, places: u32) -> u32
    ensures { result ≡ n / 2 ^ places }
{
    if places < 32 { n >> places } else { 0 }
}
