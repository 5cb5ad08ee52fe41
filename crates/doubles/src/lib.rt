// Readings as doubles, by a channel's scaling value (7.3.4.3): one division of the raw number by it, each first made a double without loss (request L6).
#![tactic(auto)]

ghost use Rattle.std.specs.Prelude.{◌≡◌, ◌≤◌};
ghost use Rattle.calibration.specs.Reading.{InRange};
ghost use Rattle.doubles.specs.Quotient.{scale_double, Quotient};
ghost use Rattle.doubles.specs.Reading.{told, told_place, Exactly, PlacedExactly, reading, place_reading};

use channels::{Attribute, Place};
use refusals::Refusal;

// (1 + F/2048) * 2^(E-16) by its bits: the exponent, E - 16 + 1023, stands at 2^52, and F at the top of the digits, at 2^41. Nothing is rounded.
fn scale_of(e: u64, f: u64) -> f64
    requires { (e ≤ 31) × (f ≤ 2047) }
    ensures { result ≡ scale_double e f }
{
    f64::from_bits((e + 1007) * 4503599627370496 + f * 2199023255552)
}

// Raw divided by (1 + F/2048) * 2^(E-16), once.
fn divide(raw: i64, e: u64, f: u64) -> f64
    requires { InRange raw e f }
    ensures { Quotient raw e f result }
{
    let scale = scale_of(e, f);
    (raw as f64) / scale
}

// Raw divided by the scale that E and F say.
pub fn to_double(raw: i64, e: u64, f: u64) -> Result<f64, Refusal>
    ensures { (told result ≡ reading raw e f) × Exactly raw e f result }
{
    calibration::judge(raw, e, f)?;
    Ok(divide(raw, e, f))
}

// One place of a point, with its channel's scaling value.
pub fn place_double(place: Place, scaling: Attribute) -> Option<Result<f64, Refusal>>
    ensures { (told_place result ≡ place_reading place scaling) × PlacedExactly place scaling result }
{
    let calibrated = calibration::calibrate(place, scaling)?;
    match calibrated {
        Ok(scaled) => Some(Ok(divide(scaled.raw, scaled.exponent, scaled.fraction))),
        Err(refusal) => Some(Err(refusal)),
    }
}
