// The listing program: what stands in a file of joined records, told in lines of text.
#![tactic(auto)]

ghost use Rattle.std.specs.Prelude.{◌≤◌, length, IfOk};
ghost use Rattle.io.specs.Counts.{IsPrefixLen};

use channels::{Format, Place};
use refusals::Refusal;
use std::io::Read;
use texts::Text;

fn put_value(text: &mut Text, value: i32) {
    text.put(b' ');
    text.put_value(value);
}

// A channel that is not included has no field.
fn put_place(text: &mut Text, place: Place) {
    match place {
        Place::Absent => (),
        Place::Constant => text.put_bytes(b" -"),
        Place::Number(value) => put_value(text, value),
    }
}

// How the line of a point begins.
fn put_index(text: &mut Text, index: u32) {
    text.put_bytes(b"point");
    text.put_field(index as u64);
}

// The points of the record that stands at a place. Points that have no bytes have no lines, however many they are.
// The channels are gone through here, since a function of their own would be handed a copy of the flags for each point.
fn put_points(text: &mut Text, file: &[u8], place: usize) {
    let Ok(front) = record_fronts::front_at(file, place) else {
        return;
    };
    let included = front.included;
    let stored = front.stored;
    if points::width(Format::Full, stored) == 0 {
        return;
    }
    let mut at = front.points;
    for index in 0..front.count {
        put_index(text, index);
        for channel in 0..16 {
            match point_places::place_at(
                file,
                at,
                Format::Full,
                channel,
                included[channel],
                stored[channel],
            ) {
                Ok(read) => {
                    put_place(text, read.place);
                    at = read.next;
                }
                Err(_) => return,
            }
        }
        text.put(b'\n');
    }
}

fn put_record(text: &mut Text, place: usize, length: usize, count: u32) {
    text.put_bytes(b"record");
    text.put_field(place as u64);
    text.put_field(length as u64);
    text.put_field(count as u64);
    text.put(b'\n');
}

// The last line, where it has no number but a place.
fn put_last(text: &mut Text, word: &[u8], place: usize) {
    text.put_bytes(word);
    text.put_field(place as u64);
    text.put(b'\n');
}

fn put_refused(text: &mut Text, number: u8, place: usize) {
    text.put_bytes(b"refused");
    text.put_field(number as u64);
    text.put_field(place as u64);
    text.put(b'\n');
}

// The last line, where a walk ends in a refusal. Of a walk's refusals 1 alone names no place.
fn put_refusal(text: &mut Text, refusal: Refusal, start: usize) {
    let place = refusals::place(refusal);
    match place {
        Some(byte) => put_refused(text, refusals::number(refusal), byte),
        None => put_last(text, b"short", start),
    }
}

// A line for each record and each of its points, and the last line.
// The loop goes over no range: each step says where the next one begins.
fn put_file(text: &mut Text, file: &[u8])
    requires { length file.now ≤ 65536 }
{
    let mut place: usize = 0;
    loop {
        let step = walks::step_at(file, place);
        let found = step.found;
        match found {
            Some(Ok(extent)) => {
                put_record(text, place, extent.length, extent.count);
                put_points(text, file, place);
            }
            None => return put_last(text, b"end", place),
            Some(Err(refusal)) => return put_refusal(text, refusal, place),
        }
        place = step.next;
    }
}

fn list(file: &[u8]) {
    if 65536 < file.len() {
        io::write_all(1, b"large\n");
        return;
    }
    let mut text = Text::new();
    put_file(&mut text, file);
    text.write_out();
}

// Reads until the file's room is full or the input ends, and tells how many bytes were read.
// Where a read fails nothing is told: a part of a file is not listed as if it were all.
// The loop goes over no range: each read says how much came.
fn read_input<R: Read>(input: &mut R, file: &mut [u8]) -> std::io::Result<usize>
    ensures { IfOk result (λ read. IsPrefixLen read file.new) }
{
    let mut read: usize = 0;
    while read < file.len() {
        let more = input.read(&mut file[read..])?;
        if more == 0 {
            break;
        }
        read += more;
    }
    Ok(read)
}

// One byte more than is listed, so that it is seen where there are more.
fn main(rt: HostRuntime) {
    let mut file = [0; 65537];
    match read_input(&mut rt.stdin(), &mut file) {
        Ok(read) => list(&file[..read]),
        Err(_) => {
            io::write_all(1, b"unreadable\n");
        }
    }
}
