// The numbered refusals of document 01 and of the requests as one type: each with its number, and with its place where the paper names one.
#![tactic(auto)]

ghost use Rattle.std.specs.Prelude.{◌≡◌};
ghost use Rattle.refusals.specs.Table.{number_of, place_of, in_compact, named, refusal_of};

use formats::Failure;

// The numbers that a descriptor may give of its channel, in the order in which they are stored (7.3.4.2).
#[derive(Clone, Copy)]
pub enum AttributeName {
    Scaling,
    Minimum,
    Maximum,
    Mean,
    Deviation,
}

// Which number was out of its range (request L2), or did not fit the compact format (request L4).
#[derive(Clone, Copy)]
pub enum Quantity {
    Attribute { channel: usize, name: AttributeName }, // of a channel's descriptor
    Count, // of points
    Value { index: usize, channel: usize }, // of a sample point, by its index among the values
    Maximum, // of points, in a template
    Raw, // the number that is divided for a reading
    Exponent, // E of a scaling value
    Fraction, // F of one
    ExtendedData, // which a compact body has no place for, even where they have no byte
}

// The table, in the order of its numbers: document 01's, 1 to 18, request L3's, 20, and request L4's, 21.
#[derive(Clone, Copy)]
pub enum Refusal {
    Short,
    Identifier { place: usize },
    Version { place: usize },
    XOrY { place: Option<usize> }, // not both included: it names a place when reading
    ReservedBit { place: usize },
    ReservedByte { place: usize },
    OpeningBits { place: usize },
    Switch { place: usize },
    LeftOver { place: usize },
    NoPoint,
    Untidy,
    OutOfRange { quantity: Quantity },
    Amount,
    ExtendedSize,
    Room,
    Tag,
    Length,
    Maximum,
    Uncalibrated, // no scaling value, so that the channel's calibration is unknown (7.3.4.3)
    NotCompact { quantity: Quantity }, // it does not fit the compact format (8.4)
}

// The paper's number of a refusal.
pub fn number(refusal: Refusal) -> u8
    ensures { result ≡ number_of refusal }
{
    match refusal {
        Refusal::Short => 1,
        Refusal::Identifier { place: _ } => 2,
        Refusal::Version { place: _ } => 3,
        Refusal::XOrY { place: _ } => 4,
        Refusal::ReservedBit { place: _ } => 5,
        Refusal::ReservedByte { place: _ } => 6,
        Refusal::OpeningBits { place: _ } => 7,
        Refusal::Switch { place: _ } => 8,
        Refusal::LeftOver { place: _ } => 9,
        Refusal::NoPoint => 10,
        Refusal::Untidy => 11,
        Refusal::OutOfRange { quantity: _ } => 12,
        Refusal::Amount => 13,
        Refusal::ExtendedSize => 14,
        Refusal::Room => 15,
        Refusal::Tag => 16,
        Refusal::Length => 17,
        Refusal::Maximum => 18,
        Refusal::Uncalibrated => 20,
        Refusal::NotCompact { quantity: _ } => 21,
    }
}

// The place that it names.
pub fn place(refusal: Refusal) -> Option<usize>
    ensures { result ≡ place_of refusal }
{
    match refusal {
        Refusal::Short => None,
        Refusal::Identifier { place } => Some(place),
        Refusal::Version { place } => Some(place),
        Refusal::XOrY { place } => place,
        Refusal::ReservedBit { place } => Some(place),
        Refusal::ReservedByte { place } => Some(place),
        Refusal::OpeningBits { place } => Some(place),
        Refusal::Switch { place } => Some(place),
        Refusal::LeftOver { place } => Some(place),
        Refusal::NoPoint => None,
        Refusal::Untidy => None,
        Refusal::OutOfRange { quantity: _ } => None,
        Refusal::Amount => None,
        Refusal::ExtendedSize => None,
        Refusal::Room => None,
        Refusal::Tag => None,
        Refusal::Length => None,
        Refusal::Maximum => None,
        Refusal::Uncalibrated => None,
        Refusal::NotCompact { quantity: _ } => None,
    }
}

// A refusal as it is told of what has to fit the compact format: 21 in place of 12 (request L4).
pub fn in_compact(refusal: Refusal) -> Refusal
    ensures { result ≡ in_compact refusal }
{
    if let Refusal::OutOfRange { quantity } = refusal {
        return Refusal::NotCompact { quantity: quantity };
    }
    refusal
}

// The refusal of a byte at a place, by its number. A reader gives 2 to 8; a number below is taken as 2, one above as 9.
fn named(number: u8, place: usize) -> Refusal
    ensures { result ≡ named number place }
{
    match number {
        0..=2 => Refusal::Identifier { place: place },
        3 => Refusal::Version { place: place },
        4 => Refusal::XOrY { place: Some(place) },
        5 => Refusal::ReservedBit { place: place },
        6 => Refusal::ReservedByte { place: place },
        7 => Refusal::OpeningBits { place: place },
        8 => Refusal::Switch { place: place },
        _ => Refusal::LeftOver { place: place },
    }
}

// The refusal that a reader's failure is: so `?` passes a failure on as a refusal.
impl From<Failure> for Refusal {
    ghost from_gives = { λ failure refusal. refusal ≡ refusal_of failure };

    fn from(failure: Failure) -> Refusal {
        of(failure)
    }
}

pub fn of(failure: Failure) -> Refusal
    ensures { result ≡ refusal_of failure }
{
    match failure {
        Failure::Short => Refusal::Short,
        Failure::Bad(number, place) => named(number, place),
    }
}
