// What a byte format is. Its theory is in specs/; the code of a format tells how reading it ended.
#![tactic(auto)]

ghost use Rattle.std.specs.Prelude.{◌≡◌, leb, ◌+◌, ◌*◌, ◌/◌, ◌%◌};
ghost use Rattle.formats.specs.Lent.{writing};
ghost use Rattle.formats.specs.Laid.{put_within};

// How reading fails.
#[derive(Clone, Copy)]
pub enum Failure {
    // The bytes ran out.
    Short,
    // A byte was refused: the refusal's number, and the byte's place.
    Bad(u8, usize),
}

// The number of two bytes, the high one first.
pub fn pair(high: u8, low: u8) -> u16
    ensures { result ≡ high * 256 + low }
{
    (high as u16) * 256 + (low as u16)
}

// The high byte of a number of two bytes.
pub fn high(number: u16) -> u8
    ensures { result ≡ number / 256 }
{
    (number / 256) as u8
}

// The lowest byte of a number.
pub fn low(number: u32) -> u8
    ensures { result ≡ number % 256 }
{
    (number % 256) as u8
}

// Whether `count` parts of some size have no more than `room` bytes, without a product that could be too large.
pub fn is_within(count: usize, size: usize, room: usize) -> bool
    ensures { result ≡ leb (count * size) room }
{
    if size == 0 {
        return true;
    }
    count <= room / size
}

// Bytes are put from a place of the output on, as many of them as there is room for. Where the next would go is answered.
pub fn put(out: &mut [u8], start: usize, bytes: &[u8]) -> usize
    ensures { writing result out.new ≡ put_within out.old start bytes.now }
{
    if out.len() <= start {
        return start;
    }
    let count = (out.len() - start).min(bytes.len());
    // one by one: `copy_from_slice` is C's memmove, which the library would ask of C
    for i in 0..count {
        out[start + i] = bytes[i];
    }
    start + count
}
