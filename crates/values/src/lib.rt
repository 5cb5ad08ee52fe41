// Values of sample points as a writer is lent them, point by point or column by column: whether they fit, and their bytes.
#![tactic(auto)]

ghost use Rattle.std.specs.Prelude.{◌≡◌, ◌+◌, ◌≤◌, ◌<◌, length};
ghost use Rattle.formats.specs.Laid.{Room, Laid, Owed};
ghost use Rattle.formats.specs.Lent.{writing};
ghost use Rattle.channels.specs.Channel.{width_of};
ghost use Rattle.points.specs.Points.{sample_size, channels as channelsOf};
ghost use Rattle.orders.specs.Orders.{size};
ghost use Rattle.orders.specs.Parts.{many, AllAt};
ghost use Rattle.refusals.specs.Ranges.{first_misfit};
ghost use Rattle.values.specs.Values.{samples_in, samples_from, judgement_of, stored_sample, number_in, sample_bytes, put_of};
ghost use Rattle.values.specs.Parts.{Inside, point_bytes, points_bytes, bytes_left};

use channels::Format;
use orders::Order;
use refusals::{Quantity, Refusal};

// What is stored for a number of a channel, if anything is.
pub fn stored_sample(format: Format, channel: usize, value: i32) -> Option<u16>
    ensures { result ≡ stored_sample (width_of format) channel value }
{
    if channel == channels::S {
        return tip_switch::byte_of(value);
    }
    channels::stored_of(format, channels::is_signed(channel), value)
}

// Whether each number of a point fits: the first that doesn't is named, by its index among the values and its channel (refusal 12).
// The numbers stand from an index on, a stride apart.
fn judge_point(
    values: &[i32],
    from: usize,
    stride: usize,
    format: Format,
    stored: &[bool; 16],
) -> Result<(), Refusal>
    requires { (length stored.now ≡ 16) × (stride ≤ length values.now + 1) × Inside values.now stride (size stored.now) from }
    ensures { result ≡ first_misfit (samples_in (width_of format) stride (channelsOf stored.now) values.now from) }
{
    let mut index = from;
    for channel in 0..16 {
        if stored[channel] {
            let value = values[index];
            match stored_sample(format, channel, value) {
                Some(_) => {}
                None => {
                    return Err(Refusal::OutOfRange {
                        quantity: Quantity::Value {
                            index: index,
                            channel: channel,
                        },
                    });
                }
            }
            index += stride;
        }
    }
    Ok(())
}

// The same of many points, a step apart, that have numbers.
fn judge_from(
    values: &[i32],
    count: usize,
    step: usize,
    stride: usize,
    format: Format,
    stored: &[bool; 16],
) -> Result<(), Refusal>
    requires { (length stored.now ≡ 16) × (stride ≤ length values.now + 1) × (step ≤ 16) × (0 < size stored.now) × AllAt (Inside values.now stride (size stored.now)) step count 0 }
    ensures { result ≡ first_misfit (samples_from (width_of format) stride (channelsOf stored.now) values.now step count 0) }
{
    let mut from: usize = 0;
    for _ in 0..count {
        judge_point(values, from, stride, format, stored)?;
        from += step;
    }
    Ok(())
}

// Whether the values of some points fit: their amount first (refusal 13), then each in point order, whatever the order that they are lent in.
pub fn judge(
    values: &[i32],
    count: usize,
    format: Format,
    stored: [bool; 16],
    order: Order,
) -> Result<(), Refusal>
    ensures { result ≡ judgement_of (width_of format) stored order count values.now }
{
    let k = orders::size(stored);
    if !orders::is_amount(values.len(), count, k) {
        return Err(Refusal::Amount);
    }
    if k == 0 {
        return Ok(());
    }
    let step = orders::step(order, k);
    let stride = orders::stride(order, count);
    judge_from(values, count, step, stride, format, &stored)
}

// The stored number, and 0 where there is none.
fn number_in(stored: Option<u16>) -> u16
    ensures { result ≡ number_in stored }
{
    match stored {
        Some(number) => number,
        None => 0,
    }
}

// The format that a channel's number is put in: S has one byte, as a compact number has.
fn sample_format(format: Format, channel: usize) -> Format
    ensures { width_of result ≡ sample_size (width_of format) channel }
{
    if channel == channels::S {
        return Format::Compact;
    }
    format
}

// A number of a sample point is put, and where the next goes is answered, as by each function that follows.
// It is handed the very bytes that it has: so the compiler sees that there is room.
fn put_sample(out: &mut [u8], at: usize, channel: usize, value: i32, format: Format) -> usize
    requires { Room out.old at (sample_bytes (width_of format) channel value) }
    ensures { Laid out.old at (sample_bytes (width_of format) channel value) out.new result }
{
    let number = number_in(stored_sample(format, channel, value));
    let narrow = sample_format(format, channel);
    let end = at + channels::width(narrow);
    stored_numbers::put_number(&mut out[at..end], 0, number, narrow);
    end
}

// Where the next number is put, and which value it is.
#[derive(Clone, Copy)]
struct Run {
    at: usize,
    index: usize,
}

// The numbers of some channels of a sample point are put, from the first to the one before the last. They stand from an index on, a stride apart.
fn put_run(
    out: &mut [u8],
    start: usize,
    values: &[i32],
    from: usize,
    stride: usize,
    format: Format,
    stored: &[bool; 16],
    first: usize,
    last: usize,
) -> Run
    requires { (length stored.now ≡ 16) × (stride ≤ length values.now + 1) × Inside values.now stride (many stored.now first) from × Room out.old start (bytes_left (width_of format) stride stored.now values.now first from) × (first ≤ last) × (last ≤ 16) }
    ensures { Inside values.now stride (many stored.now last) result.index × Owed out.old start (bytes_left (width_of format) stride stored.now values.now first from) out.new result.at (bytes_left (width_of format) stride stored.now values.now last result.index) }
{
    let mut at = start;
    let mut index = from;
    for channel in first..last {
        if stored[channel] {
            let value = values[index];
            at = put_sample(out, at, channel, value, format);
            index += stride;
        }
    }
    Run {
        at: at,
        index: index,
    }
}

// A sample point is put. Its numbers stand from an index on, a stride apart.
// S has a run of its own: so no other number is asked whether it is one of S.
fn put_point(
    out: &mut [u8],
    start: usize,
    values: &[i32],
    from: usize,
    stride: usize,
    format: Format,
    stored: &[bool; 16],
) -> usize
    requires { (length stored.now ≡ 16) × (stride ≤ length values.now + 1) × Inside values.now stride (size stored.now) from × Room out.old start (point_bytes (width_of format) stride (channelsOf stored.now) values.now from) }
    ensures { Laid out.old start (point_bytes (width_of format) stride (channelsOf stored.now) values.now from) out.new result }
{
    let before = put_run(
        out,
        start,
        values,
        from,
        stride,
        format,
        stored,
        0,
        channels::S,
    );
    let switch = put_run(
        out,
        before.at,
        values,
        before.index,
        stride,
        format,
        stored,
        channels::S,
        channels::TX,
    );
    let behind = put_run(
        out,
        switch.at,
        values,
        switch.index,
        stride,
        format,
        stored,
        channels::TX,
        16,
    );
    behind.at
}

// Many points are put, a step apart, that have numbers.
fn put_from(
    out: &mut [u8],
    start: usize,
    values: &[i32],
    count: usize,
    step: usize,
    stride: usize,
    format: Format,
    stored: &[bool; 16],
) -> usize
    requires { (length stored.now ≡ 16) × (stride ≤ length values.now + 1) × (step ≤ 16) × (0 < size stored.now) × AllAt (Inside values.now stride (size stored.now)) step count 0 × Room out.old start (points_bytes (width_of format) stride (channelsOf stored.now) values.now step count 0) }
    ensures { Laid out.old start (points_bytes (width_of format) stride (channelsOf stored.now) values.now step count 0) out.new result }
{
    let mut at = start;
    let mut from: usize = 0;
    for _ in 0..count {
        at = put_point(out, at, values, from, stride, format, stored);
        from += step;
    }
    at
}

// Points are put from a place on, and where they end is answered. Where the values have another amount, or there is no room for all,
// nothing is put and the place itself is answered. A number that doesn't fit, which `judge` tells, is put as zeros.
pub fn put(
    out: &mut [u8],
    at: usize,
    values: &[i32],
    count: usize,
    format: Format,
    stored: [bool; 16],
    order: Order,
) -> usize
    ensures { writing result out.new ≡ put_of (width_of format) stored order count values.now out.old at }
{
    let k = orders::size(stored);
    if !orders::is_amount(values.len(), count, k) {
        return at;
    }
    if out.len() < at {
        return at;
    }
    let width = points::width(format, stored);
    if !formats::is_within(count, width, out.len() - at) {
        return at;
    }
    if k == 0 {
        return at;
    }
    let step = orders::step(order, k);
    let stride = orders::stride(order, count);
    put_from(out, at, values, count, step, stride, format, &stored)
}
