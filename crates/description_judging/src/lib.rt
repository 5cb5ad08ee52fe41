// Channel descriptions that are to be written: whether they can be, at two widths.
#![tactic(auto)]

ghost use Rattle.std.specs.Prelude.{◌≡◌, Bool, ◌&&◌, ℕ, ◌-◌, ◌^◌, T, Err};
ghost use Rattle.channels.specs.Channel.{signed_of, width_of};
ghost use Rattle.channels.specs.Stored.{value_of};
ghost use Rattle.descriptions.specs.Description.{includes_xy, tidy_attribute, flagless, tidy_descriptor, neat, fits_attribute, fits_descriptor, all_fit};
ghost use Rattle.refusals.specs.Ranges.{first_misfit};
ghost use Rattle.refusals.specs.declared.Quantity.TheVariants as quantity;
ghost use Rattle.refusals.specs.declared.Refusal.TheVariants.{OutOfRange};
ghost use Rattle.description_judging.specs.Judging.{numbers_of, numbers, judgement_of};

use channels::{Attribute, Description, Descriptor, Format};
use refusals::{AttributeName, Quantity, Refusal};

// X and Y are in each record.
fn has_x_and_y(description: Description) -> bool
    ensures { result ≡ includes_xy description }
{
    let x = description.channels[channels::X];
    let y = description.channels[channels::Y];
    x.included & y.included
}

// An attribute that isn't given holds zero.
fn tidy_attribute(attribute: Attribute) -> bool
    ensures { result ≡ tidy_attribute attribute }
{
    attribute.given | (attribute.number == 0)
}

// None of the seven flags is set.
fn has_no_flag(d: Descriptor) -> bool
    ensures { result ≡ flagless d }
{
    !(d.scaling.given
        | d.minimum.given
        | d.maximum.given
        | d.mean.given
        | d.deviation.given
        | d.constant
        | d.detrended)
}

// A channel that isn't included has no flag, and no number stands without its flag.
fn tidy_descriptor(d: Descriptor) -> bool
    ensures { result ≡ tidy_descriptor d }
{
    (d.included | has_no_flag(d))
        & (tidy_attribute(d.scaling)
            & tidy_attribute(d.minimum)
            & tidy_attribute(d.maximum)
            & tidy_attribute(d.mean)
            & tidy_attribute(d.deviation))
}

// Each of the sixteen is tidy.
fn is_neat(description: Description) -> bool
    ensures { result ≡ neat description }
{
    description.channels.iter().all(|d| tidy_descriptor(*d))
}

// The largest number that is stored.
fn largest(format: Format) -> u16
    ensures { result ≡ 256 ^ width_of format - 1 }
{
    match format {
        Format::Full => 65535,
        Format::Compact => 255,
    }
}

// An attribute that isn't given holds zero, and one that is given a number from `least` to `most`.
fn sound_attribute(attribute: Attribute, least: i32, most: i32) -> bool
    ensures { (w : ℕ) (signed : Bool) → least ≡ value_of w signed 0 → most ≡ value_of w signed (256 ^ w - 1) → result ≡ (tidy_attribute attribute && fits_attribute w signed attribute) }
{
    let first = if attribute.given { least } else { 0 };
    let last = if attribute.given { most } else { 0 };
    first <= attribute.number && attribute.number <= last
}

// Whether a descriptor is tidy and each of its given numbers can be stored, in one look.
// The scaling value has two bytes in either format, and neither it nor the deviation has a sign.
fn sound_descriptor(d: Descriptor, format: Format, signed: bool) -> bool
    ensures { (channel : ℕ) → signed ≡ signed_of channel → result ≡ (tidy_descriptor d && fits_descriptor (width_of format) channel d) }
{
    let largest = largest(format);
    let least = channels::value_of(format, signed, 0);
    let most = channels::value_of(format, signed, largest);
    sound_attribute(d.scaling, 0, 65535)
        && sound_attribute(d.minimum, least, most)
        && sound_attribute(d.maximum, least, most)
        && sound_attribute(d.mean, least, most)
        && sound_attribute(d.deviation, 0, largest as i32)
        && (d.included || has_no_flag(d))
}

// Each of the sixteen is tidy, and its given numbers can be stored.
fn is_sound(description: Description, format: Format) -> bool
    ensures { result ≡ (neat description && all_fit (width_of format) description) }
{
    let mut signs = channels::signs();
    for d in &description.channels {
        if !sound_descriptor(*d, format, channels::leads(signs)) {
            return false;
        }
        signs = channels::behind_first(signs);
    }
    true
}

// A number of a channel is out of its range (refusal 12).
fn outside(channel: usize, name: AttributeName) -> Result<(), Refusal>
    ensures { result ≡ Err (OutOfRange (quantity.Attribute channel name)) }
{
    Err(Refusal::OutOfRange {
        quantity: Quantity::Attribute {
            channel: channel,
            name: name,
        },
    })
}

// The first number of a tidy descriptor that is out of its range, scaling to deviation. The check is the same: of a tidy attribute it says whether it fits.
fn judge_numbers(d: Descriptor, channel: usize, format: Format) -> Result<(), Refusal>
    requires { T (tidy_descriptor d) }
    ensures { result ≡ first_misfit (numbers_of (width_of format) channel d) }
{
    let signed = channels::is_signed(channel);
    let largest = largest(format);
    let least = channels::value_of(format, signed, 0);
    let most = channels::value_of(format, signed, largest);
    if !sound_attribute(d.scaling, 0, 65535) {
        return outside(channel, AttributeName::Scaling);
    }
    if !sound_attribute(d.minimum, least, most) {
        return outside(channel, AttributeName::Minimum);
    }
    if !sound_attribute(d.maximum, least, most) {
        return outside(channel, AttributeName::Maximum);
    }
    if !sound_attribute(d.mean, least, most) {
        return outside(channel, AttributeName::Mean);
    }
    if !sound_attribute(d.deviation, 0, largest as i32) {
        return outside(channel, AttributeName::Deviation);
    }
    Ok(())
}

// The first number of a neat description that is out of its range, channel after channel.
fn first_misfit(description: Description, format: Format) -> Result<(), Refusal>
    requires { T (neat description) }
    ensures { result ≡ first_misfit (numbers (width_of format) description) }
{
    for (channel, d) in description.channels.iter().enumerate() {
        judge_numbers(*d, channel, format)?;
    }
    Ok(())
}

// Whether a description can be written in a format: refusals 4, 11 and 12 of document 01, stage by stage, so that an untidy R comes before
// a number of X that is out of range. A description of the other format is refused with 11, whatever it says (request L4).
pub fn judge(description: Description, format: Format) -> Result<(), Refusal>
    ensures { result ≡ judgement_of format description }
{
    let sound = is_sound(description, format);
    if !has_x_and_y(description) {
        return Err(Refusal::XOrY { place: None });
    }
    let mark = description.mark;
    if !channels::is_same(mark, format) {
        return Err(Refusal::Untidy); // even where every number would fit
    }
    if sound {
        return Ok(());
    }
    // Only here is it asked which of the two it is, and which number.
    if !is_neat(description) {
        return Err(Refusal::Untidy); // whatever its numbers are
    }
    first_misfit(description, format)
}
