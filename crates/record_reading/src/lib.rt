// Bytes judged as full records of ISO/IEC 19794-7:2007 (clause 7).
#![tactic(auto)]

ghost use Rattle.std.specs.Prelude.{◌≡◌, ℕ, ◌≤◌, length, Ok};
ghost use Rattle.formats.specs.Reader.{read_at, run};
ghost use Rattle.formats.specs.Told.{told};
ghost use Rattle.records.specs.Record.{full_record};
ghost use Rattle.identifications.specs.Identification.{identification};
ghost use Rattle.descriptions.specs.Description.{description};
ghost use Rattle.descriptions.specs.Read.{described};
ghost use Rattle.channels.specs.declared.Format.TheVariants.{Full};
ghost use Rattle.record_reading.specs.Verdict.{verdict_from, extent_of, judged, unjudged, judged_whole};

use channels::{Description, Format};
use descriptions::{Described, Measured};
use record_layouts::Layout;
use refusals::Refusal;

// How far a record reaches: its length, how many points it has, and whether extended data are present.
#[derive(Clone, Copy)]
pub struct Extent {
    pub length: usize,
    pub count: u32,
    pub extended: bool,
}

// A verdict, and the record's tidy description, which says nothing of any channel where there is no record.
#[derive(Clone, Copy)]
pub struct Judged {
    pub verdict: Result<Extent, Refusal>,
    pub description: Description,
}

// How far a record that lies so reaches.
fn extent_of(layout: Layout, start: usize) -> Extent
    requires { start ≤ layout.end }
    ensures { result ≡ extent_of start layout }
{
    Extent {
        length: layout.end - start,
        count: layout.count,
        extended: layout.announced,
    }
}

// What stands from a place on: whether it is a record. A refusal's place counts from the start of the bytes.
pub fn verdict_at(bytes: &[u8], start: usize) -> Result<Extent, Refusal>
    ensures { result ≡ verdict_from start (read_at full_record bytes.now start) }
{
    if bytes.len() < start {
        return Err(Refusal::Short);
    }
    let layout = record_layouts::layout_at(bytes, start)?;
    Ok(extent_of(layout, start))
}

// A verdict, where there is no record.
fn unjudged(verdict: Result<Extent, Refusal>) -> Judged
    ensures { result ≡ unjudged verdict }
{
    let description = descriptions::nothing(Format::Full);
    Judged {
        verdict: verdict,
        description: description,
    }
}

// The front of some bytes, with the description of the record that stands there, which is read once.
pub fn judge(bytes: &[u8]) -> Judged
    ensures { result ≡ judged (run full_record bytes.now) }
{
    let identified = identifications::end(bytes, 0);
    match identified {
        Ok(at) => judge_behind(bytes, at),
        Err(failure) => unjudged(Err(refusals::of(failure))),
    }
}

// The same, behind the identifier and the version.
fn judge_behind(bytes: &[u8], at: usize) -> Judged
    ensures { told (read_at identification bytes.now 0) ≡ Ok at → result ≡ judged (run full_record bytes.now) }
{
    match descriptions::read(bytes, at, Format::Full) {
        Ok(header) => match extent_behind(bytes, header) {
            Ok(extent) => Judged {
                verdict: Ok(extent),
                description: header.description,
            },
            Err(refusal) => unjudged(Err(refusal)),
        },
        Err(failure) => unjudged(Err(refusals::of(failure))),
    }
}

// How far a record reaches that stands at the start, behind its description.
fn extent_behind(bytes: &[u8], header: Described) -> Result<Extent, Refusal>
    ensures { (at : ℕ) → told (read_at identification bytes.now 0) ≡ Ok at → described (read_at (description Full) bytes.now at) ≡ Ok header → result ≡ verdict_from 0 (read_at full_record bytes.now 0) }
{
    let included = header.included;
    let stored = header.stored;
    let measured = Measured {
        end: header.end,
        included: included,
        stored: stored,
    };
    let front = record_fronts::front_behind(bytes, Ok(measured));
    let layout = record_layouts::layout_behind(bytes, front)?;
    Ok(extent_of(layout, 0))
}

// A whole slice: the same, and nothing may follow.
pub fn judge_whole(bytes: &[u8]) -> Judged
    ensures { result ≡ judged_whole (length bytes.now) (run full_record bytes.now) }
{
    let front = judge(bytes);
    let verdict = front.verdict;
    let Ok(extent) = verdict else {
        return front;
    };
    let length = extent.length;
    if length < bytes.len() {
        return unjudged(Err(Refusal::LeftOver { place: length }));
    }
    front
}
