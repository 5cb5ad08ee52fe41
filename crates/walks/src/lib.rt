// A file of joined records, one record at a time: from a place of the file, and by a walker that keeps the place.
#![tactic(auto)]

ghost use Rattle.std.specs.Prelude.{◌≡◌};
ghost use Rattle.walks.specs.Walk.{stays, step_of, at_start, moved};

use record_reading::Extent;
use refusals::Refusal;

// What stands at a place of a file, a record or a refusal, or nothing at its end; and the place afterwards: behind a record, or where it was.
// A refusal's place counts from the file's start.
#[derive(Clone, Copy)]
pub struct Step {
    pub found: Option<Result<Extent, Refusal>>,
    pub next: usize,
}

// A step that is not a record leaves the place as it was.
fn stay(found: Option<Result<Extent, Refusal>>, place: usize) -> Step
    ensures { result ≡ stays found place }
{
    Step {
        found: found,
        next: place,
    }
}

// One record from a place: what stands there is judged once.
pub fn step_at(file: &[u8], place: usize) -> Step
    ensures { result ≡ step_of file.now place }
{
    if file.len() <= place {
        return stay(None, place);
    }
    let verdict = record_reading::verdict_at(file, place);
    match verdict {
        Ok(extent) => Step {
            found: Some(verdict),
            next: place + extent.length,
        },
        Err(_) => stay(Some(verdict), place),
    }
}

// A file, and the place of the next record.
#[derive(Clone, Copy)]
pub struct Walker<'a> {
    pub file: &'a [u8],
    pub place: usize,
}

impl<'a> Walker<'a> {
    // A walker at the file's start.
    pub fn new(file: &'a [u8]) -> Walker<'a>
        ensures { result ≡ at_start file.entry }
    {
        Walker { file, place: 0 }
    }

    // Answers as `step_at` does at the walker's place, and moves the walker to the place afterwards.
    pub fn step<'s>(&'s mut self) -> Step
        ensures { (result ≡ step_of self.old.file.now self.old.place) × (self.new ≡ moved self.old) }
    {
        let step = step_at(self.file, self.place);
        self.place = step.next;
        step
    }
}
