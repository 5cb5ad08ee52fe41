// The library's functions as C calls them: bench/ counts what each costs beside a twin written in C.
// An answer is handed over in plain numbers: 0 for what was asked for, else the refusal's number.
// Of sixteen descriptors or places the one that is asked for is handed over, so that all have to be made.
#![tactic(auto)]

ghost use Rattle.std.specs.Prelude.{◌≡◌, true, length};
ghost use Rattle.formats.specs.Reader.{run, read_at};
ghost use Rattle.formats.specs.Lent.{writing};
ghost use Rattle.channels.specs.declared.Format.TheVariants.{Full, Compact};
ghost use Rattle.descriptions.specs.Description.{description};
ghost use Rattle.descriptions.specs.Read.{described};
ghost use Rattle.records.specs.Record.{full_record};
ghost use Rattle.record_reading.specs.Verdict.{judged};
ghost use Rattle.record_points.specs.Pointing.{places_in};
ghost use Rattle.record_parts.specs.Parts.{extended_place, extended_size, rest_place, rest_size};
ghost use Rattle.record_writing.specs.Write.{write_of};
ghost use Rattle.walks.specs.Walk.{step_of};
ghost use Rattle.templates.specs.Reading.{template_of};
ghost use Rattle.template_writing.specs.Writing as template;
ghost use Rattle.readings.specs.Thousandths.{told, told_place, reading, place_reading};
ghost use Rattle.costs.specs.Handed.{handed_descriptor, handed_place, handed_judgement, handed_description, format_if, read_header, seat_of, handed_point, place_from, piece_of, handed_part, handed_record, handed_template, handed_writing, handed_step, handed_read_template, handed_reading, scaling_from};

use channels::{Attribute, Descriptor, Format, Place};
use refusals::Refusal;

// What a description says of one channel.
#[repr(C)]
#[derive(Clone, Copy)]
pub struct Said {
    pub included: bool,
    pub constant: bool,
    pub detrended: bool,
    pub scaled: bool,
    pub scaling: i32,
    pub bounded: bool,
    pub minimum: i32,
    pub capped: bool,
    pub maximum: i32,
    pub averaged: bool,
    pub mean: i32,
    pub spread: bool,
    pub deviation: i32,
}

fn said_of(d: Descriptor) -> Said
    ensures { result ≡ handed_descriptor d }
{
    Said {
        included: d.included,
        constant: d.constant,
        detrended: d.detrended,
        scaled: d.scaling.given,
        scaling: d.scaling.number,
        bounded: d.minimum.given,
        minimum: d.minimum.number,
        capped: d.maximum.given,
        maximum: d.maximum.number,
        averaged: d.mean.given,
        mean: d.mean.number,
        spread: d.deviation.given,
        deviation: d.deviation.number,
    }
}

// The place that a refusal names, or 0.
fn place_of(refusal: Refusal) -> usize
    ensures { result ≡ handed_place refusal }
{
    let place = refusals::place(refusal);
    match place {
        Some(byte) => byte,
        None => 0,
    }
}

// A verdict: the refusal's number, the length or the refusal's place, the count, and whether there are extended data.
#[repr(C)]
#[derive(Clone, Copy)]
pub struct Judgement {
    pub number: u64,
    pub place: usize,
    pub count: u32,
    pub extended: bool,
    pub said: Said,
}

#[unsafe(no_mangle)]
pub extern "C" fn costs_judge(bytes: &[u8], channel: usize) -> Judgement
    ensures { result ≡ handed_judgement channel (judged (run full_record bytes.now)) }
{
    let judged = record_reading::judge(bytes);
    let description = judged.description;
    let of = channel % 16;
    let d = description.channels[of];
    let said = said_of(d);
    let verdict = judged.verdict;
    match verdict {
        Ok(extent) => Judgement {
            number: 0,
            place: extent.length,
            count: extent.count,
            extended: extent.extended,
            said: said,
        },
        Err(refusal) => Judgement {
            number: refusals::number(refusal) as u64,
            place: place_of(refusal),
            count: 0,
            extended: false,
            said: said,
        },
    }
}

// What a description says of one channel, read from a place of some bytes; the place behind it, or the refusal's number and place.
#[repr(C)]
#[derive(Clone, Copy)]
pub struct Told {
    pub number: u64,
    pub place: usize,
    pub said: Said,
}

#[unsafe(no_mangle)]
pub extern "C" fn costs_describe(bytes: &[u8], compact: bool, channel: usize) -> Told
    ensures { result ≡ handed_description (format_if compact) channel (described (read_at (description (format_if compact)) bytes.now 0)) }
{
    let format = if compact {
        Format::Compact
    } else {
        Format::Full
    };
    let of = channel % 16;
    match descriptions::read(bytes, 0, format) {
        Ok(described) => Told {
            number: 0,
            place: described.end,
            said: said_of(described.description.channels[of]),
        },
        Err(failure) => {
            let refusal = refusals::of(failure);
            Told {
                number: refusals::number(refusal) as u64,
                place: place_of(refusal),
                said: said_of(descriptions::nothing(format).channels[of]),
            }
        }
    }
}

// One place of a point: 0 absent, 1 constant, 2 a number.
#[repr(C)]
#[derive(Clone, Copy)]
pub struct Seat {
    pub kind: u64,
    pub value: i32,
}

fn seat_of(place: Place) -> Seat
    ensures { result ≡ seat_of place }
{
    match place {
        Place::Absent => Seat { kind: 0, value: 0 },
        Place::Constant => Seat { kind: 1, value: 0 },
        Place::Number(value) => Seat {
            kind: 2,
            value: value,
        },
    }
}

#[unsafe(no_mangle)]
pub extern "C" fn costs_point(bytes: &[u8], index: usize, channel: usize) -> Seat
    ensures { result ≡ handed_point channel (places_in index (run full_record bytes.now)) }
{
    let places = record_points::point(bytes, index);
    let of = channel % 16;
    let place = places[of];
    seat_of(place)
}

// The length of a part of the caller's bytes, and its first byte.
#[repr(C)]
#[derive(Clone, Copy)]
pub struct Piece {
    pub length: usize,
    pub first: u8,
}

fn piece_of(part: &[u8]) -> Piece
    ensures { result ≡ piece_of part.now }
{
    let length = part.len();
    if length == 0 {
        return Piece {
            length: 0,
            first: 0,
        };
    }
    Piece {
        length: length,
        first: part[0],
    }
}

#[unsafe(no_mangle)]
pub extern "C" fn costs_extended(bytes: &[u8]) -> Piece
    ensures { result ≡ handed_part (extended_place (run full_record bytes.now)) (extended_size (run full_record bytes.now)) bytes.now }
{
    piece_of(record_parts::extended(bytes))
}

#[unsafe(no_mangle)]
pub extern "C" fn costs_rest(bytes: &[u8]) -> Piece
    ensures { result ≡ handed_part (rest_place (run full_record bytes.now)) (rest_size (length bytes.now) (run full_record bytes.now)) bytes.now }
{
    piece_of(record_parts::rest(bytes))
}

// A refusal's number, and the length of what was written.
#[repr(C)]
#[derive(Clone, Copy)]
pub struct Done {
    pub number: u64,
    pub length: usize,
}

// What a writer answered.
fn written(answer: Result<usize, Refusal>) -> Done
    ensures { result ≡ handed_record answer }
{
    match answer {
        Ok(length) => Done {
            number: 0,
            length: length,
        },
        Err(refusal) => Done {
            number: refusals::number(refusal) as u64,
            length: 0,
        },
    }
}

// The description is the one that stands at the start of `header`: inclusion bytes and descriptors.
// Handing it over within the `match` is cheaper than keeping it first (instructions of a record without points, and of a template: 3092 and 2776, not 3141 and 2855).
#[unsafe(no_mangle)]
pub extern "C" fn costs_write(
    header: &[u8],
    count: usize,
    values: &[i32],
    wanted: bool,
    extended: &[u8],
    out: &mut [u8],
) -> Done
    ensures { writing result out.new ≡ handed_writing handed_record (write_of (read_header Full header.now) count values.now wanted extended.now out.old) }
{
    match descriptions::read(header, 0, Format::Full) {
        Ok(described) => written(record_writing::write(
            described.description,
            count,
            values,
            wanted,
            extended,
            out,
        )),
        Err(_) => written(record_writing::write(
            descriptions::nothing(Format::Full),
            count,
            values,
            wanted,
            extended,
            out,
        )),
    }
}

// A step over a file: the refusal's number or, at its end, 100; what was found, and the place afterwards.
#[repr(C)]
#[derive(Clone, Copy)]
pub struct Stepped {
    pub number: u64,
    pub place: usize,
    pub count: u32,
    pub extended: bool,
    pub next: usize,
}

#[unsafe(no_mangle)]
pub extern "C" fn costs_step(file: &[u8], place: usize) -> Stepped
    ensures { result ≡ handed_step (step_of file.now place) }
{
    let step = walks::step_at(file, place);
    let next = step.next;
    let found = step.found;
    match found {
        Some(Ok(extent)) => Stepped {
            number: 0,
            place: extent.length,
            count: extent.count,
            extended: extent.extended,
            next: next,
        },
        None => Stepped {
            number: 100,
            place: 0,
            count: 0,
            extended: false,
            next: next,
        },
        Some(Err(refusal)) => Stepped {
            number: refusals::number(refusal) as u64,
            place: place_of(refusal),
            count: 0,
            extended: false,
            next: next,
        },
    }
}

// A template: the refusal's number and place, and what is in it.
#[repr(C)]
#[derive(Clone, Copy)]
pub struct Templated {
    pub number: u64,
    pub place: usize,
    pub described: bool,
    pub limited: bool,
    pub maximum: u32,
    pub said: Said,
}

#[unsafe(no_mangle)]
pub extern "C" fn costs_read_template(bytes: &[u8], channel: usize) -> Templated
    ensures { result ≡ handed_read_template channel (template_of bytes.now) }
{
    let judged = templates::read(bytes);
    let template = judged.template;
    let description = template.description;
    let of = channel % 16;
    let d = description.channels[of];
    let said = said_of(d);
    let verdict = judged.verdict;
    match verdict {
        Ok(()) => Templated {
            number: 0,
            place: 0,
            described: template.described,
            limited: template.limited,
            maximum: template.maximum,
            said: said,
        },
        Err(refusal) => Templated {
            number: refusals::number(refusal) as u64,
            place: place_of(refusal),
            described: template.described,
            limited: template.limited,
            maximum: template.maximum,
            said: said,
        },
    }
}

// The description is the one that stands at the start of `header`, in the compact format.
#[unsafe(no_mangle)]
pub extern "C" fn costs_write_template(
    header: &[u8],
    limited: bool,
    maximum: u32,
    out: &mut [u8],
) -> Done
    ensures { writing result out.new ≡ handed_writing handed_template (template.write_of true (read_header Compact header.now) limited maximum out.old) }
{
    match descriptions::read(header, 0, Format::Compact) {
        Ok(described) => written(template_writing::write(
            true,
            described.description,
            limited,
            maximum,
            out,
        )),
        Err(_) => written(template_writing::write(
            true,
            descriptions::nothing(Format::Compact),
            limited,
            maximum,
            out,
        )),
    }
}

// A reading: the refusal's number, 0 for thousandths and 1 for an absent place.
#[repr(C)]
#[derive(Clone, Copy)]
pub struct Read {
    pub number: u64,
    pub thousandths: i64,
}

fn read_of(reading: Result<i64, Refusal>) -> Read
    ensures { result ≡ handed_reading (told reading) }
{
    match reading {
        Ok(n) => Read {
            number: 0,
            thousandths: n,
        },
        Err(refusal) => Read {
            number: refusals::number(refusal) as u64,
            thousandths: 0,
        },
    }
}

#[unsafe(no_mangle)]
pub extern "C" fn costs_thousandths(raw: i64, e: u64, f: u64) -> Read
    ensures { result ≡ handed_reading (reading raw e f) }
{
    read_of(readings::to_thousandths(raw, e, f))
}

fn read_of_place(reading: Option<Result<i64, Refusal>>) -> Read
    ensures { result ≡ handed_reading (told_place reading) }
{
    match reading {
        None => Read {
            number: 1,
            thousandths: 0,
        },
        Some(present) => read_of(present),
    }
}

// A place is handed in as a `Seat` has it.
#[unsafe(no_mangle)]
pub extern "C" fn costs_place(kind: u64, value: i32, given: bool, number: i32) -> Read
    ensures { result ≡ handed_reading (place_reading (place_from kind value) (scaling_from given number)) }
{
    let scaling = Attribute {
        given: given,
        number: number,
    };
    if kind == 2 {
        return read_of_place(readings::place_thousandths(Place::Number(value), scaling));
    }
    if kind == 1 {
        return read_of_place(readings::place_thousandths(Place::Constant, scaling));
    }
    read_of_place(readings::place_thousandths(Place::Absent, scaling))
}
