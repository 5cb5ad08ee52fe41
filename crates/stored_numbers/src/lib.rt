// A stored number among bytes, of one byte or two: read and put.
#![tactic(auto)]

ghost use Rattle.std.specs.Prelude.{◌≡◌};
ghost use Rattle.formats.specs.Lent.{writing};
ghost use Rattle.channels.specs.Channel.{width_of};
ghost use Rattle.stored_numbers.specs.Numbers.{number_at, put_number};

use channels::Format;

// The stored number that stands at a place, the high byte first, and 0 where its bytes are not all there.
pub fn number_at(bytes: &[u8], at: usize, format: Format) -> u16
    ensures { result ≡ number_at (width_of format) bytes.now at }
{
    let width = channels::width(format);
    if bytes.len() < width {
        return 0;
    }
    if bytes.len() - width < at {
        return 0;
    }
    match format {
        Format::Full => formats::pair(bytes[at], bytes[at + 1]),
        Format::Compact => formats::pair(0, bytes[at]),
    }
}

// A stored number is put at a place, the high byte first, and where the next would go is answered.
// Where there is no room for all of it nothing is put, and the place itself is answered.
pub fn put_number(out: &mut [u8], at: usize, number: u16, format: Format) -> usize
    ensures { writing result out.new ≡ put_number (width_of format) number out.old at }
{
    let width = channels::width(format);
    if out.len() < width {
        return at;
    }
    if out.len() - width < at {
        return at;
    }
    match format {
        Format::Full => {
            out[at] = formats::high(number);
            out[at + 1] = formats::low(number as u32);
            at + 2
        }
        Format::Compact => {
            out[at] = formats::low(number as u32);
            at + 1
        }
    }
}
