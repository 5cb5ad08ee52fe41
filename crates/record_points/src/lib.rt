// One sample point of a full record: whether there is one of some index, and its sixteen places.
#![tactic(auto)]

ghost use Rattle.std.specs.Prelude.{◌≡◌};
ghost use Rattle.formats.specs.Reader.{run};
ghost use Rattle.records.specs.Record.{full_record};
ghost use Rattle.record_points.specs.Pointing.{pointed_at, places_in};

use channels::{Format, Place};
use refusals::Refusal;

// The front is judged first; bytes behind the record are allowed.
pub fn judge_point(bytes: &[u8], index: usize) -> Result<(), Refusal>
    ensures { result ≡ pointed_at index (run full_record bytes.now) }
{
    let layout = record_layouts::layout_at(bytes, 0)?;
    if index < (layout.count as usize) {
        Ok(())
    } else {
        Err(Refusal::NoPoint)
    }
}

// One sample point as sixteen places, all absent where there is no such point.
// The points have one width, so each has its share of their bytes.
pub fn point(bytes: &[u8], index: usize) -> [Place; 16]
    ensures { result ≡ places_in index (run full_record bytes.now) }
{
    let Ok(front) = record_fronts::front_at(bytes, 0) else {
        return [Place::Absent; 16];
    };
    let Ok(layout) = record_layouts::layout_behind(bytes, Ok(front)) else {
        return [Place::Absent; 16];
    };
    let count = layout.count as usize;
    if count <= index {
        return [Place::Absent; 16];
    }
    let start = front.points + index * ((layout.extension - front.points) / count);
    point_places::places(bytes, start, Format::Full, front.included, front.stored)
}
