// What a reading is made of (7.3.4.3): a raw number with E and F of its channel's scaling value, each in its range; or why there is no reading.
#![tactic(auto)]

ghost use Rattle.std.specs.Prelude.{◌≡◌, Some, Err};
ghost use Rattle.refusals.specs.Ranges.{first_misfit};
ghost use Rattle.refusals.specs.declared.Refusal.TheVariants.{OutOfRange};
ghost use Rattle.calibration.specs.Reading.{numbers, reading, scaled_reading, place_reading, operands, told};

use channels::{Attribute, Place};
use refusals::{Quantity, Refusal};

// A raw number with E and F of its scaling value.
#[derive(Clone, Copy)]
pub struct Scaled {
    pub raw: i64,
    pub exponent: u64,
    pub fraction: u64,
}

// A number is out of its range (refusal 12).
fn outside(quantity: Quantity) -> Result<(), Refusal>
    ensures { result ≡ Err (OutOfRange quantity) }
{
    Err(Refusal::OutOfRange { quantity: quantity })
}

// Raw is from -32768 to 65535, E to 31, F to 2047: the first of them that is out of its range is refused.
pub fn judge(raw: i64, e: u64, f: u64) -> Result<(), Refusal>
    ensures { result ≡ first_misfit (numbers raw e f) }
{
    if raw < -32768 {
        return outside(Quantity::Raw);
    }
    if 65535 < raw {
        return outside(Quantity::Raw);
    }
    if 31 < e {
        return outside(Quantity::Exponent);
    }
    if 2047 < f {
        return outside(Quantity::Fraction);
    }
    Ok(())
}

// The three numbers together, where they are in their ranges.
fn with_scale(raw: i64, e: u64, f: u64) -> Result<Scaled, Refusal>
    ensures { told (Some result) ≡ reading operands raw e f }
{
    judge(raw, e, f)?;
    Ok(Scaled {
        raw: raw,
        exponent: e,
        fraction: f,
    })
}

// A raw number with its channel's scaling value, 2048 * E + F. Without one the channel's calibration is unknown (7.3.4.3), and nothing else is looked at.
fn with_scaling(raw: i64, scaling: Attribute) -> Result<Scaled, Refusal>
    ensures { told (Some result) ≡ scaled_reading operands raw scaling }
{
    let given = scaling.given;
    if !given {
        return Err(Refusal::Uncalibrated);
    }
    let number = scaling.number;
    if number < 0 {
        return with_scale(raw, 32, 0); // its E is out of range, as 32 is, and raw is judged before it
    }
    let value = number as u64;
    with_scale(raw, value / 2048, value % 2048)
}

// What a place of a point comes to by its channel's scaling value: absent stays absent, whatever that is, and a constant is read as raw 1;
// or 20 without such a value, and 12 where a number is out of its range; or what is to be divided.
pub fn calibrate(place: Place, scaling: Attribute) -> Option<Result<Scaled, Refusal>>
    ensures { told result ≡ place_reading operands place scaling }
{
    match place {
        Place::Absent => None,
        Place::Constant => Some(with_scaling(1, scaling)),
        Place::Number(raw) => Some(with_scaling(raw as i64, scaling)),
    }
}
