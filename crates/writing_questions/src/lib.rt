// The questions that write, a record and a template: each is read from its words, asked of the library, and answered.
#![tactic(auto)]

use answers::{Answer, Word};
use channels::{Description, Format};
use fields::{Template, Wanted};
use orders::Order;
use refusals::Refusal;
use texts::Text;
use words::Reason;

// A record's description, and what else it is to be written of.
#[derive(Clone, Copy)]
struct RecordAsked {
    description: Description,
    wanted: Wanted,
}

// What `record_at` reads, and channels.
fn record_asked_at(
    line: &[u8],
    at: usize,
    values: &mut [i32; 131072],
    space: &mut [u8; 131072],
) -> Result<RecordAsked, Reason> {
    let wanted = fields::record_at(line, at, values, space)?;
    let mark = sayings::mark_at(line, wanted.behind, Format::Full);
    Ok(RecordAsked {
        description: sayings::described_at(line, mark.behind, mark.value)?,
        wanted: wanted.value,
    })
}

// The values stand in either order.
pub fn write(text: &mut Text, line: &[u8], at: usize, order: Order) {
    let mut values = [0; 131072];
    let mut space = [0; 131072];
    match record_asked_at(line, at, &mut values, &mut space) {
        Ok(asked) => {
            let wanted = asked.wanted;
            write_record(
                text,
                asked.description,
                wanted,
                &values[0..wanted.given],
                &space[0..wanted.lent],
                order,
            )
        }
        Err(reason) => answers::cannot(text, Some(reason)),
    }
}

fn write_record(
    text: &mut Text,
    description: Description,
    wanted: Wanted,
    values: &[i32],
    extended: &[u8],
    order: Order,
) {
    let mut out = [170; 131072];
    let lent = &mut out[0..wanted.room];
    let written = ask(description, wanted, values, extended, order, lent);
    put(text, of_written(written), &out[0..wanted.room]);
}

fn ask(
    description: Description,
    wanted: Wanted,
    values: &[i32],
    extended: &[u8],
    order: Order,
    out: &mut [u8],
) -> Result<usize, Refusal> {
    let count = wanted.count;
    let asked = wanted.extended;
    match order {
        Order::Point => record_writing::write(description, count, values, asked, extended, out),
        Order::Column => {
            record_writing::write_columns(description, count, values, asked, extended, out)
        }
    }
}

// What a writer answered, of a record or a template.
fn of_written(written: Result<usize, Refusal>) -> Answer {
    match written {
        Ok(length) => answers::plain(Word::Written, Some(length as u64)),
        Err(refusal) => answers::of_refusal(refusal),
    }
}

// What was written or why not, and all the bytes that were lent.
fn put(text: &mut Text, answer: Answer, lent: &[u8]) {
    answers::put(text, answer);
    answers::put_lent(text, lent);
}

// A template's description, and what else it is to be written of.
#[derive(Clone, Copy)]
struct TemplateAsked {
    description: Description,
    template: Template,
}

// What `template_at` reads, and channels.
fn template_asked_at(line: &[u8], at: usize) -> Result<TemplateAsked, Reason> {
    let template = fields::template_at(line, at)?;
    let mark = sayings::mark_at(line, template.behind, Format::Compact);
    Ok(TemplateAsked {
        description: sayings::described_at(line, mark.behind, mark.value)?,
        template: template.value,
    })
}

pub fn write_template(text: &mut Text, line: &[u8], at: usize) {
    match template_asked_at(line, at) {
        Ok(asked) => write_described(text, asked.description, asked.template),
        Err(reason) => answers::cannot(text, Some(reason)),
    }
}

fn write_described(text: &mut Text, description: Description, template: Template) {
    let mut out = [170; 131072];
    let written = template_writing::write(
        template.described,
        description,
        template.limited,
        template.maximum,
        &mut out[0..template.room],
    );
    put(text, of_written(written), &out[0..template.room]);
}
