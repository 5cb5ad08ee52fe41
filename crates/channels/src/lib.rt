// The sixteen channels of ISO/IEC 19794-7:2007: their order and signs, what is said of them, and their numbers as stored and as meant.
#![tactic(auto)]

ghost use Rattle.std.specs.Prelude.{◌≡◌, ◌^◌, ◌≤◌, pos};
ghost use Rattle.formats.specs.Binary.{bit, binary};
ghost use Rattle.channels.specs.Bits.{moved};
ghost use Rattle.channels.specs.Channel.{is_same, signs, signed_of, width_of};
ghost use Rattle.channels.specs.Descriptors.{is_stored, included, stored};
ghost use Rattle.channels.specs.Stored as number;
ghost use Rattle.channels.specs.Stored.{value_of, stored_if};

// The channels, by their place in the order of 7.3.4.1.
pub const X: usize = 0; // position

pub const Y: usize = 1;

pub const Z: usize = 2;

pub const VX: usize = 3; // velocity

pub const VY: usize = 4;

pub const AX: usize = 5; // acceleration

pub const AY: usize = 6;

pub const T: usize = 7; // time

pub const DT: usize = 8; // time since the point before

pub const F: usize = 9; // force

pub const S: usize = 10; // tip switch

pub const TX: usize = 11; // tilt

pub const TY: usize = 12;

pub const AZ: usize = 13; // azimuth

pub const EL: usize = 14; // elevation

pub const R: usize = 15; // rotation

// A channel attribute: whether its flag is set, and its number, 0 where the flag isn't.
#[derive(Clone, Copy)]
pub struct Attribute {
    pub given: bool,
    pub number: i32,
}

// What a channel's descriptor says (7.3.4.2).
#[derive(Clone, Copy)]
pub struct Descriptor {
    pub included: bool,
    pub scaling: Attribute,
    pub minimum: Attribute,
    pub maximum: Attribute,
    pub mean: Attribute,
    pub deviation: Attribute,
    pub constant: bool,
    pub detrended: bool,
}

// The full format stores a number in two bytes (clause 7), the compact one in one (clause 8).
#[derive(Clone, Copy, PartialEq, Eq)]
pub enum Format {
    Full,
    Compact,
}

// A descriptor for each channel, in their order, and the mark: the format that the description is of (request L4).
#[derive(Clone, Copy)]
pub struct Description {
    pub channels: [Descriptor; 16],
    pub mark: Format,
}

// Whether a format is another.
pub fn is_same(format: Format, other: Format) -> bool
    ensures { result ≡ is_same format other }
{
    format == other
}

// Whether a sample point holds a number for the channel.
pub fn is_stored(d: Descriptor) -> bool
    ensures { result ≡ is_stored d }
{
    d.included && !d.constant
}

// Which channels are included.
pub fn included_channels(d: Description) -> [bool; 16]
    ensures { result ≡ included d }
{
    std::array::from_fn(|channel| d.channels[channel].included)
}

// Which channels a sample point holds a number of.
pub fn stored_channels(d: Description) -> [bool; 16]
    ensures { result ≡ stored d }
{
    std::array::from_fn(|channel| is_stored(d.channels[channel]))
}

// What a sample point says of a channel.
#[derive(Clone, Copy)]
pub enum Place {
    Absent,
    Constant,
    Number(i32),
}

// How many bytes a number has in a format.
pub fn width(format: Format) -> usize
    ensures { (result ≡ width_of format) × (result ≤ 2) }
{
    match format {
        Format::Full => 2,
        Format::Compact => 1,
    }
}

// Sixteen bits say something of each channel: the highest of X, the lowest of R, as the inclusion bytes have it (7.3.4.1).
// Here they say which channels are signed (7.3.4.4): X, Y, VX, VY, AX, AY, TX and TY.
const SIGNS: u16 = 0xDE18;

// The signs as bits, for a loop over channels.
pub fn signs() -> u16
    ensures { result ≡ binary signs }
{
    SIGNS
}

// Whether the first channel's bit is set.
pub fn leads(bits: u16) -> bool
    ensures { result ≡ bit 16 bits }
{
    32768 <= bits
}

// The bits of the channels behind the first, each moved up by one: so a loop over channels looks at the highest bit alone.
pub fn behind_first(bits: u16) -> u16
    ensures { result ≡ moved 1 bits }
{
    bits << 1
}

// Whether a channel is signed. One past the sixteenth has no bit, and no sign.
pub fn is_signed(channel: usize) -> bool
    ensures { result ≡ signed_of channel }
{
    if 16 <= channel {
        return false;
    }
    leads(signs() << channel)
}

// What is added to a number before it is stored.
fn offset_of(format: Format, signed: bool) -> i32
    ensures { result ≡ number.offset (width_of format) signed }
{
    if signed {
        match format {
            Format::Full => 32768,
            Format::Compact => 128,
        }
    } else {
        0
    }
}

// The number that a stored one stands for.
pub fn value_of(format: Format, signed: bool, number: u16) -> i32
    ensures { result ≡ value_of (width_of format) signed number }
{
    (number as i32) - offset_of(format, signed)
}

// The first number that is too large to be stored.
fn limit_of(format: Format) -> i64
    ensures { result ≡ pos (256 ^ width_of format) }
{
    match format {
        Format::Full => 65536,
        Format::Compact => 256,
    }
}

// What is stored for a number, where it is in the range.
pub fn stored_of(format: Format, signed: bool, value: i32) -> Option<u16>
    ensures { result ≡ stored_if (width_of format) signed value }
{
    let number = (value as i64) + (offset_of(format, signed) as i64);
    if number < 0 {
        return None;
    }
    if limit_of(format) <= number {
        return None;
    }
    Some(number as u16)
}
