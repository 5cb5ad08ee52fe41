// The fields of a question other than its description: each reading tells what its words say and the place behind them, or why one could not be read.
#![tactic(auto)]

ghost use Rattle.std.specs.Prelude.{◌≡◌, ◌≤◌, IfOk, MatchResult};
ghost use Rattle.fields.specs.Ahead.{Ahead};
ghost use Rattle.words.specs.Places.{Blank};
ghost use Rattle.words.specs.Unsaid.{Unsaid};
ghost use Rattle.words.specs.declared.Reason.TheVariants.{NotANumber, NotAPlace, TooMany};

use channels::{Attribute, Place};
use words::{Parsed, Reason, Unread};

// The line has to end.
pub fn end_at(line: &[u8], at: usize) -> Result<(), Reason>
    ensures { MatchResult result (λ _. Blank line.now at) (λ reason. reason ≡ TooMany) }
{
    let after = words::next(line, b' ', at);
    if after.from < after.to {
        return Err(Reason::TooMany);
    }
    Ok(())
}

// What the last word of a line says: the line has to end behind it. Of two reasons the one that stands first in the line is told.
pub fn last_of<T: Drop>(line: &[u8], read: Result<Parsed<T>, Reason>) -> Result<T, Reason>
    ensures { MatchResult read (λ said. MatchResult result (λ value. (value ≡ said.value) × Blank line.now said.behind) (λ reason. reason ≡ TooMany)) (λ reason. result ≡ Err reason) }
{
    let said = read?;
    end_at(line, said.behind)?;
    Ok(said.value)
}

// Whether a word is `!` alone, which says that there is none.
fn says_none(word: &[u8]) -> bool {
    matches!(word, [b'!'])
}

// A place of a point, as `point` answers it.
pub fn place_at(line: &[u8], at: usize) -> Result<Parsed<Place>, Unread>
    ensures { MatchResult result (λ said. Ahead line.now at said.behind) (λ unread. Unsaid line.now at NotAPlace unread) }
{
    let word = words::word_at(line, at);
    let place = match word.value {
        [b'.'] => Some(Place::Absent),
        [b'-'] => Some(Place::Constant),
        other => numerals::small_in(other).map(|number| Place::Number(number)),
    };
    words::read_as(word, place, Reason::NotAPlace)
}

// A channel's scaling value, or none, or a number without its flag.
pub fn scaling_at(line: &[u8], at: usize) -> Result<Parsed<Attribute>, Unread>
    ensures { MatchResult result (λ said. Ahead line.now at said.behind) (λ unread. Unsaid line.now at NotANumber unread) }
{
    let word = words::word_at(line, at);
    let number = if says_none(word.value) {
        Some(0)
    } else {
        numerals::small_in(words::without_not(word.value))
    };
    let given = !words::says_not(word.value);
    let attribute = number.map(|number| Attribute {
        given: given,
        number: number,
    });
    words::read_as(word, attribute, Reason::NotANumber)
}

// What a record is to be written of, besides its description: how many values are given, and how many bytes are lent, whether or not they are wanted.
#[derive(Clone, Copy)]
pub struct Wanted {
    pub count: usize,
    pub given: usize,
    pub extended: bool,
    pub lent: usize,
    pub room: usize,
    ghost given_in_space: { given ≤ 131072 },
    ghost lent_in_space: { lent ≤ 131072 },
    ghost room_in_bounds: { room ≤ 131072 },
}

// Count, values, extended data, room.
pub fn record_at(
    line: &[u8],
    at: usize,
    values: &mut [i32; 131072],
    space: &mut [u8; 131072],
) -> Result<Parsed<Wanted>, Reason>
    ensures { IfOk result (λ said. said.value.room ≤ 131072) }
{
    let count = numerals::natural_at(line, at, u64::MAX)?;
    let given = values_at(line, count.behind, values)?;
    let extended = extended_at(line, given.behind, space)?;
    let room = numerals::natural_at(line, extended.behind, 131072)?;
    Ok(Parsed {
        value: Wanted {
            count: count.value as usize,
            given: given.value,
            extended: extended.value.wanted,
            lent: extended.value.count,
            room: room.value as usize,
        },
        behind: room.behind,
    })
}

// How many values a word says.
fn values_at(line: &[u8], at: usize, values: &mut [i32; 131072]) -> Result<Parsed<usize>, Unread>
    ensures { IfOk result (λ said. said.value ≤ 131072) }
{
    let word = words::word_at(line, at);
    let count = numerals::values_in(word.value, values);
    words::read_as(word, count, Reason::NotANumber)
}

// How many bytes a word says, and whether they are wanted.
#[derive(Clone, Copy)]
struct Lent {
    wanted: bool,
    count: usize,
}

// Extended data, which `!` alone says are none.
fn extended_at(line: &[u8], at: usize, space: &mut [u8; 131072]) -> Result<Parsed<Lent>, Unread>
    ensures { IfOk result (λ said. said.value.count ≤ 131072) }
{
    let word = words::word_at(line, at);
    let count = if says_none(word.value) {
        Some(0)
    } else {
        hexadecimal::hex_in(words::without_not(word.value), space)
    };
    let wanted = !words::says_not(word.value);
    let lent = count.map(|count| Lent {
        wanted: wanted,
        count: count,
    });
    words::read_as(word, lent, Reason::NotBytes)
}

// What a template is to be written of, besides its description. A maximum may be lent and not wanted.
#[derive(Clone, Copy)]
pub struct Template {
    pub limited: bool,
    pub maximum: u32,
    pub room: usize,
    pub described: bool,
    ghost room_in_bounds: { room ≤ 131072 },
}

// Maximum, room, and `!` where no description is wanted.
pub fn template_at(line: &[u8], at: usize) -> Result<Parsed<Template>, Reason>
    ensures { IfOk result (λ said. said.value.room ≤ 131072) }
{
    let word = words::word_at(line, at);
    let number = if says_none(word.value) {
        Some(0)
    } else {
        numerals::natural_in(words::without_not(word.value), 4294967295)
    };
    let maximum = words::read_as(word, number, Reason::NotANumber)?;
    let lent = numerals::natural_at(line, maximum.behind, 131072)?;
    let none = words::word_at(line, lent.behind);
    let described = !says_none(none.value);
    Ok(Parsed {
        value: Template {
            limited: !words::says_not(word.value),
            maximum: maximum.value as u32,
            room: lent.value as usize,
            described: described,
        },
        behind: if described { lent.behind } else { none.behind },
    })
}
