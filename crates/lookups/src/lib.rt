// One sample point looked up by itself: by the front of its record and that point alone, with how many bytes were looked at.
#![tactic(auto)]

ghost use Rattle.std.specs.Prelude.{◌≡◌, ◌+◌, ◌≤◌, length};
ghost use Rattle.formats.specs.Reader.{read_at};
ghost use Rattle.formats.specs.Sight.{seen, failed_sight, FailedWithin};
ghost use Rattle.refusals.specs.Table.{refusal_of};
ghost use Rattle.points.specs.Points.{point};
ghost use Rattle.lookups.specs.Lookup as meant;
ghost use Rattle.lookups.specs.Lookup.{point_read, look_up, answered};

use channels::{Format, Place};
use formats::Failure;
use refusals::Refusal;

// How many bytes were looked at from a place on where reading failed: as many as are there, or up to and with the one that was refused.
fn looked_from(start: usize, size: usize, failure: Failure) -> usize
    requires { FailedWithin size start failure }
    ensures { result ≡ failed_sight size start failure }
{
    match failure {
        Failure::Short => { if size <= start { 0 } else { size - start } }
        Failure::Bad(_, place) => place - start + 1,
    }
}

// Whether there is such a point, and how many bytes were looked at to say so.
#[derive(Clone, Copy)]
pub struct Lookup {
    pub pointed: Result<(), Refusal>,
    pub looked: usize,
}

fn refused(failure: Failure, looked: usize) -> Lookup
    ensures { result ≡ answered (meant.refused (refusal_of failure) looked) }
{
    Lookup {
        pointed: Err(refusals::of(failure)),
        looked: looked,
    }
}

// The point that stands at a place, where its front was looked at before.
fn look_at(bytes: &[u8], stored: [bool; 16], looked: usize, start: usize) -> Lookup
    requires { looked ≤ length bytes.now }
    ensures { (result.pointed ≡ point_read (read_at (point 2 stored) bytes.now start)) × (result.looked ≡ looked + length (seen (point 2 stored) bytes.now start)) }
{
    let outcome = points::judge(bytes, start, Format::Full, stored, 1);
    if let Err(failure) = outcome {
        return refused(failure, looked + looked_from(start, bytes.len(), failure));
    }
    Lookup {
        pointed: Ok(()),
        looked: looked + points::width(Format::Full, stored),
    }
}

// The front is read, then its count decides, then the point is read. Other points, extended data and what follows are not looked at.
pub fn look_up(bytes: &[u8], index: usize) -> Lookup
    ensures { (result ≡ answered (look_up bytes.now index)) × (result.looked ≤ 223) }
{
    match record_fronts::front_at(bytes, 0) {
        Ok(front) => {
            if (front.count as usize) <= index {
                return Lookup {
                    pointed: Err(Refusal::NoPoint),
                    looked: front.points,
                };
            }
            let stored = front.stored;
            let start = front.points + index * points::width(Format::Full, stored);
            look_at(bytes, stored, front.points, start)
        }
        Err(failure) => refused(failure, looked_from(0, bytes.len(), failure)),
    }
}

// Its sixteen places, all absent where there is no such point.
pub fn point(bytes: &[u8], index: usize) -> [Place; 16]
    ensures { result ≡ (look_up bytes.now index).places }
{
    let Ok(front) = record_fronts::front_at(bytes, 0) else {
        return [Place::Absent; 16];
    };
    if index < (front.count as usize) {
        let start = front.points + index * points::width(Format::Full, front.stored);
        point_places::places(bytes, start, Format::Full, front.included, front.stored)
    } else {
        [Place::Absent; 16]
    }
}
