// The front of a full record, all that stands before its points (7.3, 7.4.1, 7.4.2): read from any place of some bytes.
#![tactic(auto)]

ghost use Rattle.std.specs.Prelude.{◌≡◌, ◌+◌, ◌*◌};
ghost use Rattle.formats.specs.Reader.{read_at};
ghost use Rattle.formats.specs.Told.{then_told};
ghost use Rattle.record_fronts.specs.Front.{opened, front as frontReader};
ghost use Rattle.record_fronts.specs.Fronted.{opened_as, fronted, front_behind};

use channels::Format;
use descriptions::Measured;
use formats::Failure;

// What opens a body: whether it announces extended data, how many points it counts, and where they begin.
#[derive(Clone, Copy)]
struct Opened {
    announced: bool,
    count: u32,
    points: usize,
}

fn triple(high: u8, middle: u8, low: u8) -> u32
    ensures { result ≡ (high * 256 + middle) * 256 + low }
{
    ((high as u32) * 256 + (middle as u32)) * 256 + (low as u32)
}

// The header's reserved byte (7.3.5), the body's opening byte (7.4.1) and the count of points (7.4.2).
fn opened_at(s: &[u8], at: usize) -> Result<Opened, Failure>
    ensures { result ≡ opened_as (read_at opened s.now at) }
{
    if s.len() <= at {
        return Err(Failure::Short);
    }
    if s[at] != 0 {
        return Err(Failure::Bad(6, at));
    }
    if s.len() - at < 2 {
        return Err(Failure::Short);
    }
    let opening = s[at + 1];
    if opening % 128 != 0 {
        return Err(Failure::Bad(7, at + 1));
    }
    if s.len() - at < 5 {
        return Err(Failure::Short);
    }
    Ok(Opened {
        announced: opening == 128,
        count: triple(s[at + 2], s[at + 3], s[at + 4]),
        points: at + 5,
    })
}

// The front of a record: of each channel whether it is included and whether the points hold a number of it,
// whether extended data are announced, how many points there are, and where they begin.
#[derive(Clone, Copy)]
pub struct Front {
    pub included: [bool; 16],
    pub stored: [bool; 16],
    pub announced: bool,
    pub count: u32,
    pub points: usize,
}

// The front behind channels that were read, or only measured; where that failed, its failure.
pub fn front_behind(bytes: &[u8], measured: Result<Measured, Failure>) -> Result<Front, Failure>
    ensures { result ≡ then_told measured (front_behind bytes.now) }
{
    let measured = measured?;
    let opened = opened_at(bytes, measured.end)?;
    let included = measured.included;
    let stored = measured.stored;
    Ok(Front {
        included: included,
        stored: stored,
        announced: opened.announced,
        count: opened.count,
        points: opened.points,
    })
}

// The front of the record that stands from a place on. Of its channels it is enough to know which are included and which stored.
pub fn front_at(bytes: &[u8], start: usize) -> Result<Front, Failure>
    ensures { result ≡ fronted (read_at frontReader bytes.now start) }
{
    let at = identifications::end(bytes, start)?;
    let measured = descriptions::measure(bytes, at, Format::Full);
    front_behind(bytes, measured)
}
