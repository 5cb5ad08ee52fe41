// One sample point by itself, as C calls it: bench/ counts the instructions of these functions, in a library of their own.
#![tactic(auto)]

ghost use Rattle.std.specs.Prelude.{◌≡◌};
ghost use Rattle.lookups.specs.Lookup.{answered, look_up};
ghost use Rattle.lookup_costs.specs.Handed.{handed_lookup, handed_place, handed_point};

use channels::Place;

// 0 or the refusal's number, and how many bytes were looked at.
#[repr(C)]
#[derive(Clone, Copy)]
pub struct Looked {
    pub number: u64,
    pub looked: usize,
}

#[unsafe(no_mangle)]
pub extern "C" fn costs_look_up(bytes: &[u8], index: usize) -> Looked
    ensures { result ≡ handed_lookup (answered (look_up bytes.now index)) }
{
    let lookup = lookups::look_up(bytes, index);
    let looked = lookup.looked;
    let pointed = lookup.pointed;
    match pointed {
        Ok(()) => Looked {
            number: 0,
            looked: looked,
        },
        Err(refusal) => Looked {
            number: refusals::number(refusal) as u64,
            looked: looked,
        },
    }
}

// A place as one number: its own, or one that no place has.
fn told(place: Place) -> i32
    ensures { result ≡ handed_place place }
{
    match place {
        Place::Absent => 100000,
        Place::Constant => 200000,
        Place::Number(value) => value,
    }
}

#[unsafe(no_mangle)]
pub extern "C" fn costs_look_up_point(bytes: &[u8], index: usize, channel: usize) -> i32
    ensures { result ≡ handed_point channel (look_up bytes.now index).places }
{
    let places = lookups::point(bytes, index);
    let of = channel % 16;
    let place = places[of];
    told(place)
}
