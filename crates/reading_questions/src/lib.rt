// The questions for readings, in thousandths and as doubles, of a raw number and of a place of a point: each is read from its words, asked of the library, and answered.
#![tactic(auto)]

ghost use Rattle.std.specs.Prelude.{◌≡◌, ◌<◌};
ghost use Rattle.doubles.specs.Double.{exponent};
ghost use Rattle.doubles.specs.Quotient.{bits_of};
ghost use Rattle.doubles.specs.Reading.{IsNumber};

use answers::Word;
use channels::{Attribute, Place};
use refusals::Refusal;
use texts::Text;
use words::Reason;

// A raw number, E and F.
#[derive(Clone, Copy)]
struct Asked {
    raw: i64,
    e: u64,
    f: u64,
}

fn asked_at(line: &[u8], at: usize) -> Result<Asked, Reason> {
    let raw = numerals::whole_at(line, at)?;
    let e = numerals::natural_at(line, raw.behind, u64::MAX)?;
    let f = numerals::natural_at(line, e.behind, u64::MAX).map_err(|unread| unread.reason);
    let f = fields::last_of(line, f)?;
    Ok(Asked {
        raw: raw.value,
        e: e.value,
        f: f,
    })
}

// A place of a point, and its channel's scaling value.
#[derive(Clone, Copy)]
struct PlaceAsked {
    place: Place,
    scaling: Attribute,
}

fn place_asked_at(line: &[u8], at: usize) -> Result<PlaceAsked, Reason> {
    let place = fields::place_at(line, at)?;
    let scaling = fields::scaling_at(line, place.behind).map_err(|unread| unread.reason);
    let scaling = fields::last_of(line, scaling)?;
    Ok(PlaceAsked {
        place: place.value,
        scaling: scaling,
    })
}

fn put_thousandths(text: &mut Text, reading: Result<i64, Refusal>) {
    match reading {
        Ok(value) => {
            text.put_bytes(b"thousandths ");
            text.put_long(value)
        }
        Err(refusal) => { answers::put(text, answers::of_refusal(refusal)) }
    }
}

pub fn thousandths(text: &mut Text, line: &[u8], at: usize) {
    match asked_at(line, at) {
        Ok(asked) => {
            put_thousandths(text, readings::to_thousandths(asked.raw, asked.e, asked.f))
        }
        Err(reason) => answers::cannot(text, Some(reason)),
    }
}

pub fn place(text: &mut Text, line: &[u8], at: usize) {
    match place_asked_at(line, at) {
        Ok(asked) => put_place(text, asked.place, asked.scaling),
        Err(reason) => answers::cannot(text, Some(reason)),
    }
}

fn put_place(text: &mut Text, place: Place, scaling: Attribute) {
    match readings::place_thousandths(place, scaling) {
        None => answers::put_word(text, Some(Word::Absent)),
        Some(reading) => put_thousandths(text, reading),
    }
}

// The 64 bits of a number. Only a NaN's can't be asked for.
fn bits_of(number: f64) -> u64
    requires { exponent (bits_of number) < 2047 }
    ensures { result ≡ bits_of number }
{
    f64::to_bits(number)
}

// They are put as sixteen digits, the sign's bit first.
fn put_bits(text: &mut Text, bits: u64) {
    let bytes = [
        byte_of(bits >> 56),
        byte_of(bits >> 48),
        byte_of(bits >> 40),
        byte_of(bits >> 32),
        byte_of(bits >> 24),
        byte_of(bits >> 16),
        byte_of(bits >> 8),
        byte_of(bits),
    ];
    text.put_hex(&bytes);
}

// The lowest byte of a number.
fn byte_of(number: u64) -> u8 {
    (number % 256) as u8
}

fn put_double(text: &mut Text, reading: Result<f64, Refusal>)
    requires { IsNumber reading }
{
    match reading {
        Ok(value) => {
            text.put_bytes(b"double ");
            put_bits(text, bits_of(value))
        }
        Err(refusal) => { answers::put(text, answers::of_refusal(refusal)) }
    }
}

pub fn double(text: &mut Text, line: &[u8], at: usize) {
    match asked_at(line, at) {
        Ok(asked) => put_double(text, doubles::to_double(asked.raw, asked.e, asked.f)),
        Err(reason) => answers::cannot(text, Some(reason)),
    }
}

pub fn double_place(text: &mut Text, line: &[u8], at: usize) {
    match place_asked_at(line, at) {
        Ok(asked) => put_double_place(text, asked.place, asked.scaling),
        Err(reason) => answers::cannot(text, Some(reason)),
    }
}

fn put_double_place(text: &mut Text, place: Place, scaling: Attribute) {
    match doubles::place_double(place, scaling) {
        None => answers::put_word(text, Some(Word::Absent)),
        Some(reading) => put_double(text, reading),
    }
}
