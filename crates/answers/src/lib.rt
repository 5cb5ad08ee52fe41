// Answers, as words: what a function of the library answered, put into the text without its line feed.
#![tactic(auto)]

use channels::Place;
use record_reading::Extent;
use refusals::{Quantity, Refusal};
use texts::Text;
use words::Reason;

// A word of an answer. `Nothing` is said of what a template does not have.
#[derive(Clone, Copy)]
pub enum Word {
    Record,
    Refused,
    Template,
    Written,
    Point,
    End,
    Absent,
    Extended,
    Plain,
    Nothing,
    Body,
    Turned,
}

fn bytes_of(word: Word) -> &'static [u8] {
    match word {
        Word::Record => b"record",
        Word::Refused => b"refused",
        Word::Template => b"template",
        Word::Written => b"written",
        Word::Point => b"point",
        Word::End => b"end",
        Word::Absent => b"absent",
        Word::Extended => b"extended",
        Word::Plain => b"plain",
        Word::Nothing => b"!",
        Word::Body => b"body",
        Word::Turned => b"turned",
    }
}

// The numbers behind an answer's first word.
#[derive(Clone, Copy)]
enum Numbers {
    None,
    One(u64),
    Two(u64, u64),
}

// How an answer begins: a word, up to two numbers, perhaps a last word, and perhaps the number that was out of its range.
#[derive(Clone, Copy)]
pub struct Answer {
    word: Word,
    numbers: Numbers,
    last: Option<Word>,
    named: Option<Quantity>,
}

// One of those words, or nothing.
pub fn put_word(text: &mut Text, word: Option<Word>) {
    if let Some(word) = word {
        text.put_bytes(bytes_of(word));
    }
}

fn put_numbers(text: &mut Text, numbers: Numbers) {
    match numbers {
        Numbers::None => (),
        Numbers::One(number) => text.put_field(number),
        Numbers::Two(first, second) => {
            text.put_field(first);
            text.put_field(second);
        }
    }
}

// A word behind the numbers, or none.
pub fn put_last(text: &mut Text, word: Option<Word>) {
    if let Some(_) = word {
        text.put(b' ');
        put_word(text, word);
    }
}

pub fn put(text: &mut Text, answer: Answer) {
    put_word(text, Some(answer.word));
    put_numbers(text, answer.numbers);
    put_last(text, answer.last);
    if let Some(quantity) = answer.named {
        quantities::put(text, quantity);
    }
}

// A word and numbers, with no more behind them.
fn with_numbers(word: Word, numbers: Numbers) -> Answer {
    Answer {
        word: word,
        numbers: numbers,
        last: None,
        named: None,
    }
}

// A word, and perhaps a number.
pub fn plain(word: Word, number: Option<u64>) -> Answer {
    match number {
        Some(number) => with_numbers(word, Numbers::One(number)),
        None => with_numbers(word, Numbers::None),
    }
}

fn refused(number: u64, named: Option<Quantity>) -> Answer {
    Answer {
        word: Word::Refused,
        numbers: Numbers::One(number),
        last: None,
        named: named,
    }
}

// What refusal 12 or 21 names, if anything.
fn named_by(refusal: Refusal) -> Option<Quantity> {
    match refusal {
        Refusal::OutOfRange { quantity } => Some(quantity),
        Refusal::NotCompact { quantity } => Some(quantity),
        _ => None,
    }
}

// A refusal by its number, with the place or the number out of range that it names.
pub fn of_refusal(refusal: Refusal) -> Answer {
    let number = refusals::number(refusal) as u64;
    let place = refusals::place(refusal);
    match place {
        Some(byte) => with_numbers(Word::Refused, Numbers::Two(number, byte as u64)),
        None => refused(number, named_by(refusal)),
    }
}

// A record, and whether extended data are present.
fn of_record(extent: Extent) -> Answer {
    let last = if extent.extended {
        Word::Extended
    } else {
        Word::Plain
    };
    Answer {
        word: Word::Record,
        numbers: Numbers::Two(extent.length as u64, extent.count as u64),
        last: Some(last),
        named: None,
    }
}

pub fn of_verdict(verdict: Result<Extent, Refusal>) -> Answer {
    match verdict {
        Ok(extent) => of_record(extent),
        Err(refusal) => of_refusal(refusal),
    }
}

pub fn of_pointed(pointed: Result<(), Refusal>) -> Answer {
    match pointed {
        Ok(()) => with_numbers(Word::Point, Numbers::None),
        Err(refusal) => of_refusal(refusal),
    }
}

pub fn of_found(found: Option<Result<Extent, Refusal>>) -> Answer {
    match found {
        Some(verdict) => of_verdict(verdict),
        None => with_numbers(Word::End, Numbers::None),
    }
}

// A template's maximum, or that it has none.
pub fn of_maximum(maximum: Option<u32>) -> Answer {
    match maximum {
        Some(most) => with_numbers(Word::Template, Numbers::One(most as u64)),
        None => Answer {
            word: Word::Template,
            numbers: Numbers::None,
            last: Some(Word::Nothing),
            named: None,
        },
    }
}

// The lengths of a template and of a body that a record was turned into.
pub fn of_turned(template: usize, body: usize) -> Answer {
    with_numbers(Word::Turned, Numbers::Two(template as u64, body as u64))
}

// All the bytes that were lent, behind a space.
pub fn put_lent(text: &mut Text, lent: &[u8]) {
    text.put(b' ');
    text.put_hex(lent);
}

fn put_one(text: &mut Text, place: Place) {
    text.put(b' ');
    match place {
        Place::Absent => text.put(b'.'),
        Place::Constant => text.put(b'-'),
        Place::Number(value) => text.put_value(value),
    }
}

// The sixteen places of a point.
pub fn put_places(text: &mut Text, places: [Place; 16]) {
    for place in places {
        put_one(text, place);
    }
}

// A line that cannot be read, and why; or that there is no reason.
pub fn cannot(text: &mut Text, reason: Option<Reason>) {
    text.put_bytes(b"cannot read: ");
    match reason {
        Some(reason) => text.put_bytes(told(reason)),
        None => text.put_bytes(b"nothing"),
    }
}

fn told(reason: Reason) -> &'static [u8] {
    match reason {
        Reason::Missing => b"a word is missing",
        Reason::NotANumber => b"not a number",
        Reason::NotBytes => b"not bytes",
        Reason::NotAChannel => b"not a channel",
        Reason::NotAPlace => b"not a place",
        Reason::TooMany => b"a word too many",
        Reason::NoSuchQuestion => b"no such question",
        Reason::TooLong => b"a line has at most 262144 bytes",
    }
}
