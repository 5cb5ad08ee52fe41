// Full records of ISO/IEC 19794-7:2007 (clause 7) that are to be written: the stages that keep one from being written, and its bytes.
#![tactic(auto)]

ghost use Rattle.std.specs.Prelude.{◌≡◌, cond, T, ◌+◌, ◌*◌, ◌≤◌, ◌<◌, length};
ghost use Rattle.std.proofs.Math.Option.{some, none};
ghost use Rattle.formats.specs.Laid.{Room, Laid};
ghost use Rattle.formats.specs.Lent.{writing};
ghost use Rattle.descriptions.specs.Description.{description};
ghost use Rattle.records.specs.Record.{encode_extended};
ghost use Rattle.record_writing.specs.Write.{numbers_judged, NumbersPass, write_in, write_of, write_columns_of};
ghost use Rattle.record_writing.specs.Parts.{opening_bytes, front_bytes, record_bytes, write_described};

use channels::{Description, Format};
use orders::Order;
use refusals::{Quantity, Refusal};

// The header's reserved byte, the opening byte and the count are put.
fn put_opening(out: &mut [u8], at: usize, wanted: bool, count: usize) -> usize
    requires { (count < 16777216) × Room out.old at (opening_bytes wanted count) }
    ensures { Laid out.old at (opening_bytes wanted count) out.new result }
{
    out[at] = 0;
    out[at + 1] = if wanted { 128 } else { 0 };
    out[at + 2] = (count / 65536) as u8;
    out[at + 3] = (count / 256 % 256) as u8;
    out[at + 4] = (count % 256) as u8;
    at + 5
}

// All that stands before the points is put, from the bytes of the description.
fn put_front(out: &mut [u8], described: &[u8], wanted: bool, count: usize) -> usize
    requires { (count < 16777216) × Room out.old 0 (front_bytes described.now wanted count) }
    ensures { Laid out.old 0 (front_bytes described.now wanted count) out.new result }
{
    let identifier = records::IDENTIFIER;
    let version = records::VERSION;
    let at = formats::put(out, 0, &identifier);
    let at = formats::put(out, at, &version);
    let at = formats::put(out, at, described);
    put_opening(out, at, wanted, count)
}

// Extended data that are wanted are put behind their length.
fn put_extension(out: &mut [u8], at: usize, wanted: bool, extended: &[u8]) -> usize
    requires { (T wanted → length extended.now < 65536) × Room out.old at (encode_extended (cond wanted (some extended.now) none)) }
    ensures { Laid out.old at (encode_extended (cond wanted (some extended.now) none)) out.new result }
{
    if !wanted {
        return at;
    }
    let next = stored_numbers::put_number(out, at, extended.len() as u16, Format::Full);
    formats::put(out, next, extended)
}

// How many bytes a record has that passed every stage but the last, by the size of its description and of a point.
fn record_size(described: usize, width: usize, count: usize, wanted: bool, extended: &[u8]) -> usize
    requires { (described ≤ 178) × (width ≤ 32) × (count < 16777216) × (T wanted → length extended.now < 65536) }
    ensures { result ≡ described + count * width + length (encode_extended (cond wanted (some extended.now) none)) + 13 }
{
    let front = described + count * width;
    if wanted {
        return front + (extended.len() + 2) + 13;
    }
    front + 13
}

// The stages behind the description's: the count, the amount of values and the values, the extended data.
fn judge_values(
    stored: [bool; 16],
    order: Order,
    count: usize,
    values: &[i32],
    wanted: bool,
    extended: &[u8],
) -> Result<(), Refusal>
    ensures { result ≡ numbers_judged order stored count values.now wanted extended.now }
{
    if 16777215 < count {
        return Err(Refusal::OutOfRange {
            quantity: Quantity::Count,
        });
    }
    values::judge(values, count, Format::Full, stored, order)?;
    if wanted {
        if 65535 < extended.len() {
            return Err(Refusal::ExtendedSize);
        }
    }
    Ok(())
}

// A record that passed every stage is put at the start of the output.
fn put_record(
    out: &mut [u8],
    described: &[u8],
    stored: [bool; 16],
    order: Order,
    count: usize,
    values: &[i32],
    wanted: bool,
    extended: &[u8],
) -> usize
    requires { NumbersPass order stored count values.now wanted extended.now × Room out.old 0 (record_bytes order described.now stored count values.now wanted extended.now) }
    ensures { Laid out.old 0 (record_bytes order described.now stored count values.now wanted extended.now) out.new result }
{
    let at = put_front(out, described, wanted, count);
    let at = values::put(out, at, values, count, Format::Full, stored, order);
    put_extension(out, at, wanted, extended)
}

// The stages behind the description's, and the room; then the record is put.
// Of the description it is enough to know its bytes, and which channels are stored.
fn write_described(
    described: &[u8],
    stored: [bool; 16],
    order: Order,
    count: usize,
    values: &[i32],
    wanted: bool,
    extended: &[u8],
    out: &mut [u8],
) -> Result<usize, Refusal>
    requires { length described.now ≤ 178 }
    ensures { writing result out.new ≡ write_described order described.now stored count values.now wanted extended.now out.old }
{
    judge_values(stored, order, count, values, wanted, extended)?;
    let width = points::width(Format::Full, stored);
    let length = record_size(described.len(), width, count, wanted, extended);
    if out.len() < length {
        return Err(Refusal::Room);
    }
    put_record(
        out, described, stored, order, count, values, wanted, extended,
    );
    Ok(length)
}

// A record is written from a description, a count, values in stored order, point by point or column by column, and, where they are wanted, extended data.
// On a refusal the output is as it was; on success only its first bytes change.
// The description is put aside first, which judges it: so it is judged once.
fn write_in(
    order: Order,
    description: Description,
    count: usize,
    values: &[i32],
    wanted: bool,
    extended: &[u8],
    out: &mut [u8],
) -> Result<usize, Refusal>
    ensures { writing result out.new ≡ write_in order description count values.now wanted extended.now out.old }
{
    let mut room: [u8; 178] = [0; 178]; // two inclusion bytes, and eleven for each of sixteen channels
    let end = description_writing::put(&mut room, 0, description, Format::Full)?;
    let described = &room[0..end];
    let stored = channels::stored_channels(description);
    write_described(
        described, stored, order, count, values, wanted, extended, out,
    )
}

// A record is written from values point by point, as `write_in` has it.
pub fn write(
    description: Description,
    count: usize,
    values: &[i32],
    wanted: bool,
    extended: &[u8],
    out: &mut [u8],
) -> Result<usize, Refusal>
    ensures { writing result out.new ≡ write_of description count values.now wanted extended.now out.old }
{
    write_in(
        Order::Point,
        description,
        count,
        values,
        wanted,
        extended,
        out,
    )
}

// The same from values column by column (request L9). They are judged in point order all the same.
pub fn write_columns(
    description: Description,
    count: usize,
    values: &[i32],
    wanted: bool,
    extended: &[u8],
    out: &mut [u8],
) -> Result<usize, Refusal>
    ensures { writing result out.new ≡ write_columns_of description count values.now wanted extended.now out.old }
{
    write_in(
        Order::Column,
        description,
        count,
        values,
        wanted,
        extended,
        out,
    )
}
