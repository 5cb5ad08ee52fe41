// Words of a line: where they stand, how they begin, which of some names they are; and why one could not be read, and where it ends.
#![tactic(auto)]

ghost use Rattle.std.specs.Prelude.{◌≡◌, ◌-◌, take, drop, MatchOption, MatchResult};
ghost use Rattle.words.specs.Places.{Sought, Skipped, Word};
ghost use Rattle.words.specs.Said.{begins_with, says_not, without_not, reason_of};
ghost use Rattle.words.specs.Names.{Named, Unnamed, Nth, Stands};

// Why a word of a line could not be read.
#[derive(Clone, Copy, Debug, PartialEq, Eq)]
pub enum Reason {
    Missing,
    NotANumber,
    NotBytes,
    NotAChannel,
    NotAPlace,
    TooMany,
    NoSuchQuestion,
    TooLong,
}

impl Reason {
    // Why a word could not be read: it is missing, or it is not what was wanted.
    pub fn of(word: &[u8], otherwise: Reason) -> Reason
        ensures { result ≡ reason_of word.now otherwise }
    {
        if word.is_empty() {
            return Reason::Missing;
        }
        otherwise
    }
}

// Why a word of a line could not be read, and the place behind it.
#[derive(Clone, Copy, Debug, PartialEq, Eq)]
pub struct Unread {
    pub reason: Reason,
    pub behind: usize,
}

// So `?` passes the reason on where nobody asks for the place.
impl From<Unread> for Reason {
    ghost from_gives = { λ unread reason. reason ≡ unread.reason };

    fn from(unread: Unread) -> Reason {
        unread.reason
    }
}

// The first place, from a place on, that holds the mark; or the end.
pub fn seek(text: &[u8], from: usize, mark: u8) -> usize
    ensures { Sought text.now from mark result }
{
    let rest = part(text, from, text.len());
    match rest.iter().position(|byte| *byte == mark) {
        Some(passed) => from + passed,
        None => from.max(text.len()),
    }
}

// The first place, from a place on, that holds anything but the mark; or the end.
pub fn skip(text: &[u8], from: usize, mark: u8) -> usize
    ensures { Skipped text.now from mark result }
{
    let rest = part(text, from, text.len());
    match rest.iter().position(|byte| *byte != mark) {
        Some(marks) => from + marks,
        None => from.max(text.len()),
    }
}

// Where a word stands: from its first byte up to the byte behind its last.
#[derive(Clone, Copy)]
pub struct Span {
    pub from: usize,
    pub to: usize,
}

// The first word from a place on, where a mark parts words. It has no bytes where there is none.
pub fn next(line: &[u8], mark: u8, at: usize) -> Span
    ensures { Word line.now mark at result.from result.to }
{
    let from = skip(line, at, mark);
    Span {
        from: from,
        to: seek(line, from, mark),
    }
}

// What stands between two places, as far as the text has it.
pub fn part<'a>(text: &'a [u8], from: usize, to: usize) -> &'a [u8]
    ensures { result.now ≡ take (to - from) (drop from text.now) }
{
    let length = text.len();
    if length < from || to < from {
        return &text[0..0];
    }
    if length < to {
        return &text[from..length];
    }
    &text[from..to]
}

// What a line says at a place, and the place behind its word.
#[derive(Clone, Copy)]
pub struct Parsed<T> {
    pub value: T,
    pub behind: usize,
}

// The first word of a line from a place on, where spaces part words.
pub fn word_at<'a>(line: &'a [u8], at: usize) -> Parsed<&'a [u8]>
    ensures { Stands line.now at result.value.now result.behind }
{
    let span = next(line, b' ', at);
    Parsed {
        value: part(line, span.from, span.to),
        behind: span.to,
    }
}

// What a word of a line was read as, in the place of its bytes; or why it was not read. The place behind it is told in either case.
pub fn read_as<'a, T>(
    word: Parsed<&'a [u8]>,
    value: Option<T>,
    otherwise: Reason,
) -> Result<Parsed<T>, Unread>
    ensures { MatchOption value (result ≡ Err (record { reason = reason_of word.entry.value.now otherwise; behind = word.entry.behind })) (λ v. result ≡ Ok (record { value = v; behind = word.entry.behind })) }
{
    match value {
        Some(value) => Ok(Parsed {
            value: value,
            behind: word.behind,
        }),
        None => {
            let behind = word.behind;
            Err(Unread {
                reason: Reason::of(word.value, otherwise),
                behind: behind,
            })
        }
    }
}

// Which of some names a word is, counted from 0; or how many they are, where it is none of them.
pub fn which(names: &[u8], mark: u8, word: &[u8]) -> Result<usize, usize>
    ensures { MatchResult result (λ number. Named names.now mark word.now number) (λ count. Unnamed names.now mark word.now count) }
{
    // a turn leaps over a word and the marks before it: `split` would find a name without bytes between two marks
    let mut number: usize = 0;
    let mut at: usize = 0;
    while at < names.len() {
        let span = next(names, mark, at);
        if check::same(part(names, span.from, span.to), word) {
            return Ok(number);
        }
        at = span.to;
        number += 1;
    }
    Err(number)
}

// The name of a number among some names, or nothing where there is none.
pub fn name<'a>(names: &'a [u8], mark: u8, number: usize) -> &'a [u8]
    ensures { Nth names.now mark number result.now }
{
    let mut place: usize = 0;
    for count in 0..number {
        let span = next(names, mark, place);
        place = span.to;
    }
    let span = next(names, mark, place);
    part(names, span.from, span.to)
}

// Whether a word begins with a mark.
pub fn begins(word: &[u8], mark: u8) -> bool
    ensures { result ≡ begins_with word.now mark }
{
    match word {
        [first, ..] => *first == mark,
        [] => false,
    }
}

// Whether a word begins with `!`, which says not.
pub fn says_not(word: &[u8]) -> bool
    ensures { result ≡ says_not word.now }
{
    begins(word, b'!')
}

// A word without the `!` that it may begin with.
pub fn without_not<'a>(word: &'a [u8]) -> &'a [u8]
    ensures { result.now ≡ without_not word.now }
{
    if says_not(word) {
        return part(word, 1, word.len());
    }
    word
}
