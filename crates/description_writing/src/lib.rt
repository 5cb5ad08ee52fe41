// Channel descriptions that are to be written: measured and put, at two widths.
#![tactic(auto)]

ghost use Rattle.std.specs.Prelude.{◌≡◌, Bool, cond, ℕ, ◌+◌, ◌*◌, ◌≤◌, T, leb, length};
ghost use Rattle.formats.specs.Binary.{binary};
ghost use Rattle.formats.specs.Laid.{Room, Laid};
ghost use Rattle.formats.specs.Lent.{writing};
ghost use Rattle.channels.specs.Channel.{signed_of, width_of};
ghost use Rattle.channels.specs.Descriptors.{included};
ghost use Rattle.channels.specs.Stored.{value_of};
ghost use Rattle.descriptions.specs.Description.{fits_attribute, fits_descriptor, all_fit, encode_attribute, descriptor_byte, encode_descriptor, encode_channel, encode_description};
ghost use Rattle.description_writing.specs.Write.{put_room, put_if};

use channels::{Attribute, Description, Descriptor, Format};
use refusals::Refusal;

// How many bytes an attribute has, whatever its sign.
fn attribute_size(attribute: Attribute, format: Format) -> usize
    ensures { (result ≡ cond attribute.given (width_of format) 0) × (result ≤ 2) }
{
    if attribute.given {
        channels::width(format)
    } else {
        0
    }
}

// How many bytes a channel has, whichever it is.
fn channel_size(d: Descriptor, format: Format) -> usize
    ensures { (channel : ℕ) → result ≡ length (encode_channel (width_of format) channel d) }
{
    if !d.included {
        return 0;
    }
    let full = Format::Full;
    1 + attribute_size(d.scaling, full)
        + attribute_size(d.minimum, format)
        + attribute_size(d.maximum, format)
        + attribute_size(d.mean, format)
        + attribute_size(d.deviation, format)
}

// How many bytes the description has when it is written.
pub fn size(description: Description, format: Format) -> usize
    ensures { result ≡ length (encode_description (width_of format) description) }
{
    let mut total: usize = 2;
    for d in &description.channels {
        total += channel_size(*d, format);
    }
    total
}

// A bit's value where its flag is set.
fn weight(flag: bool, value: u16) -> u16
    ensures { (result ≡ cond flag value 0) × (result ≤ value) }
{
    if flag { value } else { 0 }
}

// The seven flags from bit 8 down, and a zero (7.3.4.2).
fn descriptor_byte(d: Descriptor) -> u8
    ensures { result ≡ descriptor_byte d }
{
    let flags = weight(d.scaling.given, 128)
        + weight(d.minimum.given, 64)
        + weight(d.maximum.given, 32)
        + weight(d.mean.given, 16)
        + weight(d.deviation.given, 8)
        + weight(d.constant, 4)
        + weight(d.detrended, 2);
    flags as u8
}

// The inclusion bits: X has the highest, R the lowest (7.3.4.1).
fn inclusion(description: Description) -> u16
    ensures { result ≡ binary (included description) }
{
    let mut bits: u16 = 0;
    for d in description.channels {
        bits = bits * 2 + weight(d.included, 1);
    }
    bits
}

// An attribute that isn't given has no bytes. A number that is given fits, and isn't tested again:
// what is stored for it is how far it is above the least of its kind, which is stored as 0.
// The number is handed the very bytes that it has, so that the compiler sees that there is room. This and each that follows answers where the next goes.
fn put_attribute(
    out: &mut [u8],
    at: usize,
    attribute: Attribute,
    format: Format,
    least: i32,
) -> usize
    requires { (signed : Bool) × (least ≡ value_of (width_of format) signed 0) × T (fits_attribute (width_of format) signed attribute) × Room out.old at (encode_attribute (width_of format) signed attribute) }
    ensures { (signed : Bool) → least ≡ value_of (width_of format) signed 0 → Laid out.old at (encode_attribute (width_of format) signed attribute) out.new result }
{
    if !attribute.given {
        return at;
    }
    let number = (attribute.number - least) as u16;
    let end = at + channels::width(format);
    stored_numbers::put_number(&mut out[at..end], 0, number, format);
    end
}

// The scaling value has two bytes in either format, and neither it nor the deviation has a sign.
fn put_descriptor(
    out: &mut [u8],
    start: usize,
    d: Descriptor,
    signed: bool,
    format: Format,
) -> usize
    requires { (channel : ℕ) × (signed ≡ signed_of channel) × T (fits_descriptor (width_of format) channel d) × Room out.old start (encode_descriptor (width_of format) channel d) }
    ensures { (channel : ℕ) → signed ≡ signed_of channel → Laid out.old start (encode_descriptor (width_of format) channel d) out.new result }
{
    let full = Format::Full;
    let least = channels::value_of(format, signed, 0);
    out[start] = descriptor_byte(d);
    let mut at = put_attribute(out, start + 1, d.scaling, full, 0);
    at = put_attribute(out, at, d.minimum, format, least);
    at = put_attribute(out, at, d.maximum, format, least);
    at = put_attribute(out, at, d.mean, format, least);
    put_attribute(out, at, d.deviation, format, 0)
}

// A channel that isn't included has no bytes.
fn put_channel(out: &mut [u8], at: usize, d: Descriptor, signed: bool, format: Format) -> usize
    requires { (channel : ℕ) × (signed ≡ signed_of channel) × T (fits_descriptor (width_of format) channel d) × Room out.old at (encode_channel (width_of format) channel d) }
    ensures { (channel : ℕ) → signed ≡ signed_of channel → Laid out.old at (encode_channel (width_of format) channel d) out.new result }
{
    if !d.included {
        return at;
    }
    put_descriptor(out, at, d, signed, format)
}

// The inclusion bits, which have two bytes in either format, and the sixteen channels in their order.
fn put_description(out: &mut [u8], start: usize, description: Description, format: Format) -> usize
    requires { T (all_fit (width_of format) description) × Room out.old start (encode_description (width_of format) description) }
    ensures { Laid out.old start (encode_description (width_of format) description) out.new result }
{
    let full = Format::Full;
    let mut signs = channels::signs();
    let mut at = stored_numbers::put_number(out, start, inclusion(description), full);
    for d in &description.channels {
        at = put_channel(out, at, *d, channels::leads(signs), format);
        signs = channels::behind_first(signs);
    }
    at
}

// No description is longer: two inclusion bytes, and of each channel its byte, two of scaling and four attributes.
fn longest(format: Format) -> usize
    ensures { result ≡ 2 + 16 * (3 + 4 * width_of format) }
{
    match format {
        Format::Full => 178,
        Format::Compact => 114,
    }
}

// Where the longest would have room, it isn't asked how long this one is.
fn has_room(room: usize, description: Description, format: Format) -> bool
    ensures { result ≡ leb (length (encode_description (width_of format) description)) room }
{
    longest(format) <= room || size(description, format) <= room
}

// The room is looked at before a byte is put.
fn put_where_room(
    out: &mut [u8],
    start: usize,
    description: Description,
    format: Format,
) -> Result<usize, Refusal>
    requires { T (all_fit (width_of format) description) }
    ensures { writing result out.new ≡ put_room out.old start (encode_description (width_of format) description) }
{
    if out.len() < start {
        return Err(Refusal::Room);
    }
    if !has_room(out.len() - start, description, format) {
        return Err(Refusal::Room);
    }
    let end = put_description(out, start, description, format);
    Ok(end)
}

// The description is written from a place of the output on; where it is refused or there is no room, nothing is.
pub fn put(
    out: &mut [u8],
    start: usize,
    description: Description,
    format: Format,
) -> Result<usize, Refusal>
    ensures { writing result out.new ≡ put_if format description out.old start }
{
    description_judging::judge(description, format)?;
    put_where_room(out, start, description, format)
}
