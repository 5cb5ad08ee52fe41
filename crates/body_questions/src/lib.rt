// The questions of compact bodies, and of a full record that is turned into one: each is read from its words, asked of the library, and answered.
#![tactic(auto)]

ghost use Rattle.std.specs.Prelude.{◌≤◌, IfOk};

use answers::Word;
use bodies::Refused;
use fields::Wanted;
use refusals::Refusal;
use texts::Text;
use turning::Turned;
use words::{Parsed, Reason, Unread};

// How many bytes one word says, as that of a template.
fn word_at(line: &[u8], at: usize, space: &mut [u8; 131072]) -> Result<Parsed<usize>, Unread>
    ensures { IfOk result (λ said. said.value ≤ 131072) }
{
    let word = words::word_at(line, at);
    let count = hexadecimal::hex_in(word.value, space);
    words::read_as(word, count, Reason::NotBytes)
}

// How many bytes all words from a place on say.
fn rest_at(line: &[u8], at: usize, space: &mut [u8; 131072]) -> Result<usize, Reason>
    ensures { IfOk result (λ count. count ≤ 131072) }
{
    hexadecimal::bytes_in(words::part(line, at, line.len()), space).ok_or(Reason::NotBytes)
}

// How many bytes a template has, and its body.
#[derive(Clone, Copy)]
struct Asked {
    template: usize,
    body: usize,
    ghost template_in_space: { template ≤ 131072 },
    ghost body_in_space: { body ≤ 131072 },
}

// A template, and then its body.
fn asked_at(
    line: &[u8],
    at: usize,
    space: &mut [u8; 131072],
    room: &mut [u8; 131072],
) -> Result<Asked, Reason> {
    let template = word_at(line, at, space)?;
    let body = rest_at(line, template.behind, room)?;
    Ok(Asked {
        template: template.value,
        body: body,
    })
}

// A template and its body: the body is judged.
pub fn body(text: &mut Text, line: &[u8], at: usize) {
    let mut space = [0; 131072];
    let mut room = [0; 131072];
    match asked_at(line, at, &mut space, &mut room) {
        Ok(asked) => judge(text, &space[0..asked.template], &room[0..asked.body]),
        Err(reason) => answers::cannot(text, Some(reason)),
    }
}

// An index, and then the same: that point of the body is shown.
pub fn point(text: &mut Text, line: &[u8], at: usize) {
    match numerals::natural_at(line, at, u64::MAX) {
        Ok(index) => point_behind(text, line, index.behind, index.value as usize),
        Err(unread) => answers::cannot(text, Some(unread.reason)),
    }
}

fn point_behind(text: &mut Text, line: &[u8], at: usize, index: usize) {
    let mut space = [0; 131072];
    let mut room = [0; 131072];
    match asked_at(line, at, &mut space, &mut room) {
        Ok(asked) => show(text, &space[0..asked.template], &room[0..asked.body], index),
        Err(reason) => answers::cannot(text, Some(reason)),
    }
}

fn refused(text: &mut Text, refusal: Refusal) {
    answers::put(text, answers::of_refusal(refusal));
}

// A refusal that is the template's, not the body's.
fn template_refused(text: &mut Text, refusal: Refusal) {
    text.put_bytes(b"template ");
    refused(text, refusal);
}

fn judge(text: &mut Text, template: &[u8], body: &[u8]) {
    let judged = bodies::judge(template, body);
    let verdict = judged.verdict;
    match verdict {
        Ok(count) => {
            answers::put(text, answers::plain(Word::Body, Some(count as u64)));
            sayings::put_description(text, judged.description)
        }
        Err(Refused::Template(refusal)) => template_refused(text, refusal),
        Err(Refused::Body(refusal)) => refused(text, refusal),
    }
}

fn show(text: &mut Text, template: &[u8], body: &[u8], index: usize) {
    let pointed = bodies::judge_point(template, body, index);
    match pointed {
        Ok(()) => {
            answers::put(text, answers::plain(Word::Point, None));
            answers::put_places(text, bodies::point(template, body, index))
        }
        Err(Refused::Template(refusal)) => template_refused(text, refusal),
        Err(Refused::Body(refusal)) => refused(text, refusal),
    }
}

// What a body is to be written of, and how many bytes its template has.
#[derive(Clone, Copy)]
struct BodyAsked {
    wanted: Wanted,
    template: usize,
    ghost template_in_space: { template ≤ 131072 },
}

// What `record_at` reads, and then the template.
fn body_asked_at(
    line: &[u8],
    at: usize,
    values: &mut [i32; 131072],
    space: &mut [u8; 131072],
    room: &mut [u8; 131072],
) -> Result<BodyAsked, Reason> {
    let wanted = fields::record_at(line, at, values, space)?;
    let template = rest_at(line, wanted.behind, room)?;
    Ok(BodyAsked {
        wanted: wanted.value,
        template: template,
    })
}

pub fn write(text: &mut Text, line: &[u8], at: usize) {
    let mut values = [0; 131072];
    let mut space = [0; 131072];
    let mut room = [0; 131072];
    match body_asked_at(line, at, &mut values, &mut space, &mut room) {
        Ok(asked) => {
            let wanted = asked.wanted;
            write_body(
                text,
                &room[0..asked.template],
                wanted,
                &values[0..wanted.given],
                &space[0..wanted.lent],
            )
        }
        Err(reason) => answers::cannot(text, Some(reason)),
    }
}

fn write_body(text: &mut Text, template: &[u8], wanted: Wanted, values: &[i32], extended: &[u8]) {
    let mut out = [170; 131072];
    let written = bodies::write(
        template,
        wanted.count,
        values,
        wanted.extended,
        extended,
        &mut out[0..wanted.room],
    );
    put_written(text, written);
    answers::put_lent(text, &out[0..wanted.room]);
}

fn put_written(text: &mut Text, written: Result<usize, Refused>) {
    match written {
        Ok(length) => { answers::put(text, answers::plain(Word::Written, Some(length as u64))) }
        Err(Refused::Template(refusal)) => template_refused(text, refusal),
        Err(Refused::Body(refusal)) => refused(text, refusal),
    }
}

// Two rooms, and how many bytes a record has.
#[derive(Clone, Copy)]
struct TurnAsked {
    first: usize,
    second: usize,
    whole: usize,
    ghost first_in_bounds: { first ≤ 131072 },
    ghost second_in_bounds: { second ≤ 131072 },
    ghost whole_in_space: { whole ≤ 131072 },
}

// Two rooms, and then the record.
fn turn_asked_at(line: &[u8], at: usize, space: &mut [u8; 131072]) -> Result<TurnAsked, Reason> {
    let first = numerals::natural_at(line, at, 131072)?;
    let second = numerals::natural_at(line, first.behind, 131072)?;
    let whole = rest_at(line, second.behind, space)?;
    Ok(TurnAsked {
        first: first.value as usize,
        second: second.value as usize,
        whole: whole,
    })
}

pub fn turn(text: &mut Text, line: &[u8], at: usize) {
    let mut space = [0; 131072];
    match turn_asked_at(line, at, &mut space) {
        Ok(asked) => turn_record(text, &space[0..asked.whole], asked),
        Err(reason) => answers::cannot(text, Some(reason)),
    }
}

fn turn_record(text: &mut Text, whole: &[u8], asked: TurnAsked) {
    let mut template = [170; 131072];
    let mut body = [170; 131072];
    let turned = turning::turn(
        whole,
        &mut template[0..asked.first],
        &mut body[0..asked.second],
    );
    put_turned(text, turned);
    answers::put_lent(text, &template[0..asked.first]);
    answers::put_lent(text, &body[0..asked.second]);
}

fn put_turned(text: &mut Text, turned: Result<Turned, Refusal>) {
    match turned {
        Ok(turned) => { answers::put(text, answers::of_turned(turned.template, turned.body)) }
        Err(refusal) => refused(text, refusal),
    }
}
