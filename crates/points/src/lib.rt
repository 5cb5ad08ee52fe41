// Sample points of ISO/IEC 19794-7:2007 (7.4.2, 8.4), at the width of either format: measured and judged.
#![tactic(auto)]

ghost use Rattle.std.specs.Prelude.{◌≡◌, ℕ, ◌+◌, ◌*◌, ◌≤◌, ◌<◌, length, drop, Err};
ghost use Rattle.formats.specs.Reader.{read_at, times};
ghost use Rattle.formats.specs.Told.{told, repeated};
ghost use Rattle.formats.specs.Jump.{ends};
ghost use Rattle.channels.specs.Channel.{width_of};
ghost use Rattle.points.specs.Points.{stored_from, point, sample_size, widths, width as point_width};
ghost use Rattle.points.specs.Parts.{switched};

use channels::Format;
use formats::Failure;

// How many bytes a channel's number has in a sample point: one for S, as many as the format says for any other.
pub fn sample_size(format: Format, channel: usize) -> usize
    ensures { (result ≡ sample_size (width_of format) channel) × (result ≤ 2) }
{
    if channel == channels::S {
        return 1;
    }
    match format {
        Format::Full => 2,
        Format::Compact => 1,
    }
}

// How many bytes of a sample point the channels from `first` on have.
fn width_from(format: Format, stored: [bool; 16], first: usize) -> usize
    ensures { (result ≡ widths (width_of format) (stored_from first (drop first stored))) × (result ≤ 32) }
{
    let mut w: usize = 0;
    for channel in first..16 {
        if stored[channel] {
            w += sample_size(format, channel);
        }
    }
    w
}

// How many bytes a sample point has that holds numbers of these channels.
pub fn width(format: Format, stored: [bool; 16]) -> usize
    ensures { (result ≡ point_width (width_of format) stored) × (result ≤ 32) }
{
    width_from(format, stored, 0)
}

// Points that may be any bytes are passed over at once.
fn jump(bytes: &[u8], start: usize, width: usize, count: usize) -> Result<usize, Failure>
    requires { start ≤ length bytes.now }
    ensures { result ≡ ends bytes.now start (count * width) }
{
    if !formats::is_within(count, width, bytes.len() - start) {
        return Err(Failure::Short);
    }
    Ok(start + count * width)
}

// How a sample point fails that is cut, whose switch stands `offset` bytes behind its start: the switch is looked at where it is there.
fn cut(bytes: &[u8], start: usize, offset: usize) -> Failure
    requires { start ≤ length bytes.now }
    ensures { (width : ℕ) → length bytes.now < start + width → Err result ≡ switched bytes.now start width offset }
{
    if bytes.len() - start <= offset {
        return Failure::Short;
    }
    match tip_switch::state_of(bytes[start + offset]) {
        Some(_) => Failure::Short,
        None => Failure::Bad(8, start + offset),
    }
}

// How many of some points are whole, where there is room for so many bytes.
fn whole_points(room: usize, width: usize, count: usize) -> usize
    requires { 0 < width }
    ensures { (result ≤ count) × (result * width ≤ room) × (result < count → room < (result + 1) * width) }
{
    let there = room / width;
    if there < count {
        return there;
    }
    count
}

// Points one by one: where they have a switch, each of its bytes is looked at. How many are whole is asked once, and not at each.
// The place that moves on is the switch's own, a width from one point to the next.
fn walk_points(
    bytes: &[u8],
    start: usize,
    width: usize,
    offset: usize,
    count: usize,
) -> Result<usize, Failure>
    requires { (start ≤ length bytes.now) × (offset < width) × (width ≤ 32) }
    ensures { result ≡ repeated (λ at. switched bytes.now at width offset) count start }
{
    let whole = whole_points(bytes.len() - start, width, count);
    let mut switch = start + offset;
    for _ in 0..whole {
        let state = tip_switch::state_of(bytes[switch]);
        let Some(_) = state else {
            return Err(Failure::Bad(8, switch));
        };
        switch += width;
    }
    let end = start + whole * width;
    if whole < count {
        return Err(cut(bytes, end, offset));
    }
    Ok(end)
}

// Points that start within the bytes.
fn judge_within(
    bytes: &[u8],
    start: usize,
    format: Format,
    stored: [bool; 16],
    count: usize,
) -> Result<usize, Failure>
    requires { start ≤ length bytes.now }
    ensures { result ≡ told (read_at (times count (point (width_of format) stored)) bytes.now start) }
{
    let width = width_from(format, stored, 0);
    if stored[channels::S] {
        let offset = width - width_from(format, stored, channels::S);
        return walk_points(bytes, start, width, offset, count);
    }
    jump(bytes, start, width, count)
}

// Where some points end that stand from a place on; or that the bytes run out; or refusal 8 with its byte's place.
// A start past the end is as the end is: points without bytes are there, others are short.
pub fn judge(
    bytes: &[u8],
    start: usize,
    format: Format,
    stored: [bool; 16],
    count: usize,
) -> Result<usize, Failure>
    ensures { result ≡ told (read_at (times count (point (width_of format) stored)) bytes.now start) }
{
    if start <= bytes.len() {
        return judge_within(bytes, start, format, stored, count);
    }
    if count == 0 {
        return Ok(start);
    }
    if width_from(format, stored, 0) == 0 {
        return Ok(start);
    }
    Err(Failure::Short)
}
