// Turning (request L4): a full record made a compact template of 81 alone and a body.
#![tactic(auto)]

ghost use Rattle.std.specs.Prelude.{◌≡◌, List, [], ◌∷◌, ℕ, ◌*◌, ◌≤◌, ◌<◌, ℤ, length};
ghost use Rattle.formats.specs.Reader.{ok, run, read_at, times};
ghost use Rattle.formats.specs.Laid.{Room, Laid};
ghost use Rattle.refusals.specs.Ranges.{first_misfit};
ghost use Rattle.points.specs.Points.{point, width as point_width};
ghost use Rattle.orders.specs.Orders.{size, values_of};
ghost use Rattle.orders.specs.declared.Order.TheVariants as order;
ghost use Rattle.values.specs.Values.{samples, sample_bytes, bytes_of};
ghost use Rattle.records.specs.Record.{Record, full_record};
ghost use Rattle.turning.specs.Turning.{compacted, turning, body_judgement, judged_body, body_bytes, put_both, turned, turn_of};
ghost use Rattle.turning.specs.Parts.{misfit_in, bytes_in};

use channels::{Description, Format, Place};
use refusals::{Quantity, Refusal};

// The description of a record, marked compact: every number as it is.
fn compact(description: Description) -> Description
    ensures { result ≡ compacted description }
{
    let channels = description.channels;
    Description {
        channels: channels,
        mark: Format::Compact,
    }
}

// The first number of a sample point that one byte doesn't hold, by its index among all numbers and its channel.
fn judge_places(places: [Place; 16], from: usize) -> Result<(), Refusal>
    requires { from < 68719476736 }
    ensures { result ≡ misfit_in 0 from places }
{
    let mut index = from;
    for (channel, place) in places.iter().enumerate() {
        if let Place::Number(value) = *place {
            let stored = values::stored_sample(Format::Compact, channel, value);
            if let None = stored {
                return Err(Refusal::OutOfRange {
                    quantity: Quantity::Value {
                        index: index,
                        channel: channel,
                    },
                });
            }
            index += 1;
        }
    }
    Ok(())
}

// The same of all points of a record, which stand from a place on and were judged.
fn judge_points(whole: &[u8], start: usize, stored: [bool; 16], count: usize) -> Result<(), Refusal>
    requires { (start ≤ length whole.now) × (count < 4294967296) × ((points : List (List ℤ)) × (end : ℕ) × (read_at (times count (point 2 stored)) whole.now start ≡ ok points end)) }
    ensures { (points : List (List ℤ)) (end : ℕ) → read_at (times count (point 2 stored)) whole.now start ≡ ok points end → result ≡ first_misfit (samples 1 stored order.Point count (values_of order.Point (size stored) points)) }
{
    let width = points::width(Format::Full, stored);
    let size = orders::size(stored);
    let mut at = start;
    let mut from: usize = 0;
    for _ in 0..count {
        let places = point_places::places(whole, at, Format::Full, stored, stored);
        judge_places(places, from)?;
        at += width;
        from += size;
    }
    Ok(())
}

// The stages of the body: the count, the values, extended data. A record's count and its amount of values are never wrong.
fn judge_body(
    whole: &[u8],
    start: usize,
    stored: [bool; 16],
    count: usize,
    extended: bool,
) -> Result<(), Refusal>
    requires { (start ≤ length whole.now) × (count < 4294967296) × ((points : List (List ℤ)) × (end : ℕ) × (read_at (times count (point 2 stored)) whole.now start ≡ ok points end)) }
    ensures { (points : List (List ℤ)) (end : ℕ) → read_at (times count (point 2 stored)) whole.now start ≡ ok points end → result ≡ body_judgement stored count points extended }
{
    if !bodies::count_fits(count, points::width(Format::Compact, stored)) {
        return Err(Refusal::NotCompact {
            quantity: Quantity::Count,
        });
    }
    let judged = judge_points(whole, start, stored, count);
    if let Err(refusal) = judged {
        return Err(refusals::in_compact(refusal));
    }
    if extended {
        return Err(Refusal::NotCompact {
            quantity: Quantity::ExtendedData,
        });
    }
    Ok(())
}

// The byte of a number in a body. A number that one byte doesn't hold, which `judge_points` tells, has a zero.
fn byte_of(channel: usize, value: i32) -> u8
    ensures { result ∷ [] ≡ sample_bytes 1 channel value }
{
    match values::stored_sample(Format::Compact, channel, value) {
        Some(number) => (number % 256) as u8,
        None => 0,
    }
}

// A sample point is put from a place on, and where it ends is answered.
fn put_places(out: &mut [u8], start: usize, places: [Place; 16]) -> usize
    requires { Room out.old start (bytes_in 0 places) }
    ensures { Laid out.old start (bytes_in 0 places) out.new result }
{
    let mut at = start;
    for (channel, place) in places.iter().enumerate() {
        if let Place::Number(value) = *place {
            out[at] = byte_of(channel, value);
            at += 1;
        }
    }
    at
}

// All points of a record are put as a body, from the output's start on.
fn put_points(whole: &[u8], start: usize, stored: [bool; 16], count: usize, out: &mut [u8])
    requires { (start ≤ length whole.now) × (count * point_width 1 stored ≤ length out.old) × ((points : List (List ℤ)) × (end : ℕ) × (read_at (times count (point 2 stored)) whole.now start ≡ ok points end)) }
    ensures { (points : List (List ℤ)) (end : ℕ) → read_at (times count (point 2 stored)) whole.now start ≡ ok points end → Laid out.old 0 (bytes_of 1 stored points) out.new (count * point_width 1 stored) }
{
    let width = points::width(Format::Full, stored);
    let mut at = start;
    let mut to: usize = 0;
    for _ in 0..count {
        let places = point_places::places(whole, at, Format::Full, stored, stored);
        to = put_places(out, to, places);
        at += width;
    }
}

// What a record was turned into: how many bytes the template has, and how many the body.
#[derive(Clone, Copy)]
pub struct Turned {
    pub template: usize,
    pub body: usize,
}

// The stages behind the description's, from the bytes of the template, and the room of both; only then is a byte put.
fn turn_described(
    whole: &[u8],
    described: &[u8],
    template: &mut [u8],
    body: &mut [u8],
) -> Result<Turned, Refusal>
    requires { (r : Record) × (run full_record whole.now ≡ ok r (length whole.now)) }
    ensures { (r : Record) → run full_record whole.now ≡ ok r (length whole.now) → turning result template.new body.new ≡ put_both described.now (body_bytes r) template.old body.old (judged_body r) }
{
    let front = record_fronts::front_at(whole, 0).unwrap();
    let stored = front.stored;
    let count = front.count as usize;
    judge_body(whole, front.points, stored, count, front.announced)?;
    let size = described.len();
    let length = count * points::width(Format::Compact, stored);
    if (template.len() < size) | (body.len() < length) {
        return Err(Refusal::Room);
    }
    formats::put(template, 0, described);
    put_points(whole, front.points, stored, count, body);
    Ok(Turned {
        template: size,
        body: length,
    })
}

// A record that is the whole slice. The template is put aside first, which judges its numbers.
fn turn_whole(
    whole: &[u8],
    description: Description,
    template: &mut [u8],
    body: &mut [u8],
) -> Result<Turned, Refusal>
    requires { (r : Record) × (run full_record whole.now ≡ ok r (length whole.now)) × (description ≡ r.description) }
    ensures { (r : Record) → run full_record whole.now ≡ ok r (length whole.now) → description ≡ r.description → turning result template.new body.new ≡ turned r template.old body.old }
{
    let mut room: [u8; 118] = [0; 118]; // two heads of two bytes, two inclusion bytes, and seven for each of sixteen channels
    let compact = compact(description);
    match template_writing::write(true, compact, false, 0, &mut room) {
        Ok(end) => {
            let described = &room[0..end];
            turn_described(whole, described, template, body)
        }
        Err(refusal) => Err(refusals::in_compact(refusal)),
    }
}

// A full record, which is the whole slice, is made a template and a body, each at the start of an output of its own.
// On a refusal neither output changes; on success only their first bytes do.
pub fn turn(whole: &[u8], template: &mut [u8], body: &mut [u8]) -> Result<Turned, Refusal>
    ensures { turning result template.new body.new ≡ turn_of (length whole.now) (run full_record whole.now) template.old body.old }
{
    let judged = record_reading::judge_whole(whole);
    judged.verdict?;
    let description = judged.description;
    turn_whole(whole, description, template, body)
}
