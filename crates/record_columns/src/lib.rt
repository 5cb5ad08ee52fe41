// The sample points of a full record by column (request L9): all numbers of a stored channel, then those of the next, read into a lent buffer.
#![tactic(auto)]

ghost use Rattle.std.specs.Prelude.{◌≡◌, ◌+◌, ◌*◌, ◌≤◌, ◌<◌, length};
ghost use Rattle.points.specs.Points.{sample_size, width as point_width};
ghost use Rattle.orders.specs.Orders.{size};
ghost use Rattle.orders.specs.Parts.{AllAt};
ghost use Rattle.record_columns.specs.Columns.{ReadColumns};
ghost use Rattle.record_columns.specs.Parts.{NumberAt, ChannelFilled, PointsFilled};

use channels::Format;
use orders::Order;
use refusals::Refusal;

// A channel's number in a sample point that was judged: so the byte of S is not asked again whether it is admitted.
// `number_at` is handed the very bytes that it asks for: so the compiler sees that they are there.
fn sample_at(bytes: &[u8], at: usize, channel: usize) -> i32
    requires { at + sample_size 2 channel ≤ length bytes.now }
    ensures { NumberAt bytes.now channel at result }
{
    if channel == channels::S {
        tip_switch::state(bytes[at])
    } else {
        let end = at + channels::width(Format::Full);
        let number = stored_numbers::number_at(&bytes[at..end], 0, Format::Full);
        channels::value_of(Format::Full, channels::is_signed(channel), number)
    }
}

// The numbers of a channel, one of each point, are filled in. Among the bytes they stand from a place on, a width apart,
// and in the buffer from an index on, a step apart.
fn fill_channel(
    bytes: &[u8],
    start: usize,
    width: usize,
    channel: usize,
    count: usize,
    values: &mut [i32],
    from: usize,
    step: usize,
)
    requires { (width ≤ 32) × (0 < step) × (step ≤ 16) × AllAt (λ at. at + sample_size 2 channel ≤ length bytes.now) width count start × AllAt (λ i. i < length values.old) step count from }
    ensures { ChannelFilled bytes.now channel start width from step count values.old values.new }
{
    let mut at = start;
    let mut index = from;
    for _ in 0..count {
        values[index] = sample_at(bytes, at, channel);
        at += width;
        index += step;
    }
}

// The numbers of points that were judged are filled in, channel after channel, in either order.
fn fill(
    bytes: &[u8],
    start: usize,
    stored: [bool; 16],
    count: usize,
    values: &mut [i32],
    order: Order,
)
    requires { (start + count * point_width 2 stored ≤ length bytes.now) × (length values.old ≡ count * size stored) }
    ensures { PointsFilled bytes.now start stored count order values.new }
{
    let width = points::width(Format::Full, stored);
    let step = orders::step(order, orders::size(stored));
    let stride = orders::stride(order, count);
    let mut at = start;
    let mut from: usize = 0;
    for channel in 0..16 {
        if stored[channel] {
            fill_channel(bytes, at, width, channel, count, values, from, step);
            at += points::sample_size(Format::Full, channel);
            from += stride;
        }
    }
}

// The columns of a record that is a whole slice. Its own refusals come first, and then 13 where the buffer has another amount
// than its count times its stored channels: on each the buffer is as it was.
pub fn read_columns(bytes: &[u8], values: &mut [i32]) -> Result<(), Refusal>
    ensures { ReadColumns bytes.now values.old result values.new }
{
    let front = record_fronts::front_at(bytes, 0)?;
    let layout = record_layouts::layout_behind(bytes, Ok(front))?;
    if layout.end < bytes.len() {
        return Err(Refusal::LeftOver { place: layout.end });
    }
    let stored = front.stored;
    let count = layout.count as usize;
    if !orders::is_amount(values.len(), count, orders::size(stored)) {
        return Err(Refusal::Amount);
    }
    fill(bytes, front.points, stored, count, values, Order::Column);
    Ok(())
}
