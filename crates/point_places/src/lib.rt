// A sample point of ISO/IEC 19794-7:2007 (7.4.2, 8.4) as sixteen places, at the width of either format: read channel by channel.
#![tactic(auto)]

ghost use Rattle.std.specs.Prelude.{◌≡◌};
ghost use Rattle.formats.specs.Reader.{read_at};
ghost use Rattle.channels.specs.Channel.{width_of};
ghost use Rattle.points.specs.Points.{sample, point};
ghost use Rattle.point_places.specs.Places.{places_in};
ghost use Rattle.point_places.specs.Parts.{sampled, place_read, place};

use channels::{Format, Place};
use formats::Failure;

// What a sample point holds of a channel, and where that ends.
#[derive(Clone, Copy)]
struct Sample {
    value: i32,
    next: usize,
}

// A channel's number in a sample point.
fn sample_at(bytes: &[u8], at: usize, format: Format, channel: usize) -> Result<Sample, Failure>
    ensures { result ≡ sampled (read_at (sample (width_of format) channel) bytes.now at) }
{
    if bytes.len() <= at {
        return Err(Failure::Short);
    }
    if channel == channels::S {
        match tip_switch::state_of(bytes[at]) {
            Some(value) => Ok(Sample {
                value: value,
                next: at + 1,
            }),
            None => Err(Failure::Bad(8, at)),
        }
    } else {
        let size = channels::width(format);
        if bytes.len() - at < size {
            return Err(Failure::Short);
        }
        let number = stored_numbers::number_at(bytes, at, format);
        let value = channels::value_of(format, channels::is_signed(channel), number);
        Ok(Sample {
            value: value,
            next: at + size,
        })
    }
}

// What a sample point says of a channel, and where that ends.
#[derive(Clone, Copy)]
pub struct PlaceRead {
    pub place: Place,
    pub next: usize,
}

// What stands at a place for a channel of a sample point, by its two flags. A channel that isn't stored has no bytes.
pub fn place_at(
    bytes: &[u8],
    at: usize,
    format: Format,
    channel: usize,
    included: bool,
    stored: bool,
) -> Result<PlaceRead, Failure>
    ensures { result ≡ place_read (read_at (place (width_of format) channel included stored) bytes.now at) }
{
    if stored {
        let sample = sample_at(bytes, at, format, channel)?;
        Ok(PlaceRead {
            place: Place::Number(sample.value),
            next: sample.next,
        })
    } else {
        let place = if included {
            Place::Constant
        } else {
            Place::Absent
        };
        Ok(PlaceRead {
            place: place,
            next: at,
        })
    }
}

// The sixteen places of the sample point that stands at a place of some bytes, all absent where none stands there:
// why there is none, `judge` says of one point. One array is handed back: were there a second, each copy of it would be made place by place.
pub fn places(
    bytes: &[u8],
    start: usize,
    format: Format,
    included: [bool; 16],
    stored: [bool; 16],
) -> [Place; 16]
    ensures { result ≡ places_in included stored (read_at (point (width_of format) stored) bytes.now start) }
{
    let mut places = [Place::Absent; 16];
    let mut at = start;
    for channel in 0..16 {
        let found = place_at(
            bytes,
            at,
            format,
            channel,
            included[channel],
            stored[channel],
        );
        let Ok(read) = found else {
            places = [Place::Absent; 16];
            return places;
        };
        places[channel] = read.place;
        at = read.next;
    }
    places
}
