// Readings as doubles, as C calls for them: bench/ counts the instructions of these functions, in a library of their own.
#![tactic(auto)]

ghost use Rattle.std.specs.Prelude.{◌≡◌};
ghost use Rattle.channels.specs.declared.Place.TheVariants.{Number};
ghost use Rattle.doubles.specs.Reading.{told, reading, place_reading};
ghost use Rattle.double_costs.specs.Handed.{handed_reading, scaling_from};

use channels::{Attribute, Place};
use refusals::Refusal;

// A reading: 0 and the double, or the refusal's number.
#[repr(C)]
#[derive(Clone, Copy)]
pub struct Read {
    pub number: u64,
    pub double: f64,
}

fn read_of(reading: Result<f64, Refusal>) -> Read
    ensures { result ≡ handed_reading (told reading) }
{
    match reading {
        Ok(x) => Read {
            number: 0,
            double: x,
        },
        Err(refusal) => Read {
            number: refusals::number(refusal) as u64,
            double: 0.0,
        },
    }
}

#[unsafe(no_mangle)]
pub extern "C" fn costs_double(raw: i64, e: u64, f: u64) -> Read
    ensures { result ≡ handed_reading (reading raw e f) }
{
    read_of(doubles::to_double(raw, e, f))
}

// The place is a number.
#[unsafe(no_mangle)]
pub extern "C" fn costs_double_place(value: i32, given: bool, number: i32) -> Read
    ensures { result ≡ handed_reading (place_reading (Number value) (scaling_from given number)) }
{
    let scaling = Attribute {
        given: given,
        number: number,
    };
    match doubles::place_double(Place::Number(value), scaling) {
        None => Read {
            number: 1,
            double: 0.0,
        },
        Some(present) => read_of(present),
    }
}
