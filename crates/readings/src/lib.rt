// Readings in thousandths, by a channel's scaling value (7.3.4.3).
#![tactic(auto)]

ghost use Rattle.std.specs.Prelude.{◌≡◌, ◌≤◌, pos, nat_abs, ◌<ℤ◌};
ghost use Rattle.calibration.specs.Reading.{InRange};
ghost use Rattle.readings.specs.Thousandths.{nearest, denominator, thousandths, told, told_place, reading, place_reading};

use channels::{Attribute, Place};
use refusals::Refusal;

// The whole number nearest to n / d, a half going away from zero.
fn divide_nearest(n: i64, d: i64) -> i64
    requires { pos 0 <ℤ d }
    ensures { result ≡ nearest n (nat_abs d) }
{
    let q = n / d;
    let r = n % d;
    if n < 0 {
        if d + r <= 0 - r { q - 1 } else { q }
    } else {
        if d - r <= r { q + 1 } else { q }
    }
}

// What raw * 2^27 is divided by: (2048 + F) * 2^E.
fn denominator_of(e: u64, f: u64) -> u64
    requires { (e ≤ 31) × (f ≤ 2047) }
    ensures { result ≡ denominator e f }
{
    (2048 + f) << e
}

// The whole number of thousandths nearest to raw * 2^27 / ((2048 + F) * 2^E), a half going away from zero; 134217728 is 2^27.
fn divide(raw: i64, e: u64, f: u64) -> i64
    requires { InRange raw e f }
    ensures { result ≡ thousandths raw e f }
{
    let denominator = denominator_of(e, f) as i64;
    let thousandfold = 1000 * raw;
    divide_nearest(134217728 * thousandfold, denominator)
}

// Raw divided by the scale that E and F say.
pub fn to_thousandths(raw: i64, e: u64, f: u64) -> Result<i64, Refusal>
    ensures { told result ≡ reading raw e f }
{
    calibration::judge(raw, e, f)?;
    Ok(divide(raw, e, f))
}

// One place of a point, with its channel's scaling value.
pub fn place_thousandths(place: Place, scaling: Attribute) -> Option<Result<i64, Refusal>>
    ensures { told_place result ≡ place_reading place scaling }
{
    let calibrated = calibration::calibrate(place, scaling)?;
    match calibrated {
        Ok(scaled) => Some(Ok(divide(scaled.raw, scaled.exponent, scaled.fraction))),
        Err(refusal) => Some(Err(refusal)),
    }
}
