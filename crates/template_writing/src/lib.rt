// Compact parameter templates (clause 8.2) that are to be written: what keeps one from being written, and its bytes.
#![tactic(auto)]

ghost use Rattle.std.specs.Prelude.{◌≡◌, [], ◌∷◌, ◌++◌, ◌≤◌, ◌<◌, length};
ghost use Rattle.formats.specs.Laid.{Room, Laid};
ghost use Rattle.formats.specs.Lent.{writing};
ghost use Rattle.templates.specs.Template.{fewest, shortest, encode_limited};
ghost use Rattle.template_writing.specs.Writing.{exceeds, described_bytes, template_bytes, write_fields, write_of};

use channels::{Description, Format};
use refusals::{Quantity, Refusal};

// Three bytes don't hold the maximum that is wanted.
fn exceeds(limited: bool, maximum: u32) -> bool
    ensures { result ≡ exceeds limited maximum }
{
    limited & (16777215 < maximum)
}

// How many bytes hold a number.
fn fewest(number: u32) -> usize
    ensures { (result ≡ fewest number) × (result ≤ 3) }
{
    if number < 256 {
        return 1;
    }
    if number < 65536 {
        return 2;
    }
    3
}

// How many bytes the field 81 has, from the bytes of the description.
fn described_size(described: bool, bytes: &[u8]) -> usize
    requires { length bytes.now ≤ 114 }
    ensures { (result ≡ length (described_bytes described bytes.now)) × (result ≤ 116) }
{
    if !described {
        return 0;
    }
    2 + bytes.len()
}

// How many bytes the field 82 has.
fn limited_size(limited: bool, maximum: u32) -> usize
    ensures { (result ≡ length (encode_limited limited maximum)) × (result ≤ 5) }
{
    if !limited {
        return 0;
    }
    2 + fewest(maximum)
}

// A field's tag and length; this and each that follows answers where the next byte goes.
fn put_head(out: &mut [u8], at: usize, tag: u8, size: usize) -> usize
    requires { (size < 128) × Room out.old at (tag ∷ size ∷ []) }
    ensures { Laid out.old at (tag ∷ size ∷ []) out.new result }
{
    out[at] = tag;
    out[at + 1] = size as u8;
    at + 2
}

// A number in the fewest bytes, the high byte first.
fn put_shortest(out: &mut [u8], at: usize, number: u32) -> usize
    requires { Room out.old at (shortest number) }
    ensures { Laid out.old at (shortest number) out.new result }
{
    if number < 256 {
        out[at] = formats::low(number);
        return at + 1;
    }
    if number < 65536 {
        out[at] = formats::low(number / 256);
        out[at + 1] = formats::low(number);
        return at + 2;
    }
    out[at] = formats::low(number / 65536);
    out[at + 1] = formats::low(number / 256);
    out[at + 2] = formats::low(number);
    at + 3
}

// The field 82, where it is wanted.
fn put_limited(out: &mut [u8], at: usize, limited: bool, maximum: u32) -> usize
    requires { Room out.old at (encode_limited limited maximum) }
    ensures { Laid out.old at (encode_limited limited maximum) out.new result }
{
    if !limited {
        return at;
    }
    let start = put_head(out, at, 0x82, fewest(maximum));
    put_shortest(out, start, maximum)
}

// The field 81, where it is wanted, from the bytes of the description.
fn put_described(out: &mut [u8], at: usize, described: bool, bytes: &[u8]) -> usize
    requires { (length bytes.now ≤ 114) × Room out.old at (described_bytes described bytes.now) }
    ensures { Laid out.old at (described_bytes described bytes.now) out.new result }
{
    if !described {
        return at;
    }
    let start = put_head(out, at, 0x81, bytes.len());
    formats::put(out, start, bytes)
}

// The whole template, from the output's start on.
fn put_template(
    out: &mut [u8],
    size: usize,
    described: bool,
    bytes: &[u8],
    limited: bool,
    maximum: u32,
) -> usize
    requires { (size < 128) × (length bytes.now ≤ 114) × Room out.old 0 (template_bytes described bytes.now limited maximum) × (size ≡ length (described_bytes described bytes.now ++ encode_limited limited maximum)) }
    ensures { Laid out.old 0 (template_bytes described bytes.now limited maximum) out.new result }
{
    let inside = put_head(out, 0, 0xB1, size);
    let at = put_described(out, inside, described, bytes);
    put_limited(out, at, limited, maximum)
}

// The stages behind the description's, from its bytes: the maximum and the room; then the template is put.
fn write_fields(
    described: bool,
    bytes: &[u8],
    limited: bool,
    maximum: u32,
    out: &mut [u8],
) -> Result<usize, Refusal>
    requires { length bytes.now ≤ 114 }
    ensures { writing result out.new ≡ write_fields described bytes.now limited maximum out.old }
{
    if exceeds(limited, maximum) {
        return Err(Refusal::OutOfRange {
            quantity: Quantity::Maximum,
        });
    }
    let size = described_size(described, bytes) + limited_size(limited, maximum);
    let length = 2 + size;
    if out.len() < length {
        return Err(Refusal::Room);
    }
    let end = put_template(out, size, described, bytes, limited, maximum);
    Ok(end)
}

// A template of what is wanted is written at the output's start; what isn't wanted isn't looked at.
// On a refusal the output is as it was.
// The description is put aside first, which judges it: so it is judged once.
pub fn write(
    described: bool,
    description: Description,
    limited: bool,
    maximum: u32,
    out: &mut [u8],
) -> Result<usize, Refusal>
    ensures { writing result out.new ≡ write_of described description limited maximum out.old }
{
    let mut room: [u8; 114] = [0; 114]; // two inclusion bytes, and seven for each of sixteen channels
    if !described {
        return write_fields(false, &room[0..0], limited, maximum, out);
    }
    let end = description_writing::put(&mut room, 0, description, Format::Compact)?;
    let bytes = &room[0..end];
    write_fields(true, bytes, limited, maximum, out)
}
