// Numbers in decimal, as words say them.
#![tactic(auto)]

ghost use Rattle.std.specs.Prelude.{◌≡◌, ◌<◌, ◌≤◌, length, pos, IfSome, MatchResult};
ghost use Rattle.words.specs.declared.Reason.TheVariants.{NotANumber};
ghost use Rattle.words.specs.Unsaid.{Unsaid};
ghost use Rattle.numerals.specs.Decimal.{continued, whole};
ghost use Rattle.numerals.specs.Told.{Told};

use words::{Parsed, Reason, Unread};

// The number that one to eighteen digits say. It is below 10^18, so that 64 bits hold it with either sign.
fn digits_in(word: &[u8]) -> Option<u64>
    ensures { IfSome result (λ magnitude. (magnitude < 1000000000000000000) × (magnitude ≡ continued 0 word.now)) }
{
    if word.is_empty() || 18 < word.len() {
        return None;
    }
    let mut magnitude: u64 = 0;
    for byte in word {
        if !byte.is_ascii_digit() {
            return None;
        }
        magnitude = magnitude * 10 + (*byte - b'0') as u64;
    }
    Some(magnitude)
}

// A whole number.
fn whole_in(word: &[u8]) -> Option<i64>
    ensures { IfSome result (λ value. value ≡ whole word.now) }
{
    if words::begins(word, b'-') {
        let magnitude = digits_in(words::part(word, 1, word.len()))?;
        return Some(-(magnitude as i64));
    }
    let magnitude = digits_in(word)?;
    Some(magnitude as i64)
}

// A number that 32 bits hold with its sign.
pub fn small_in(word: &[u8]) -> Option<i32>
    ensures { IfSome result (λ value. value ≡ whole word.now) }
{
    let value = whole_in(word)?;
    i32::try_from(value).ok()
}

// A number that is not negative and at most some other.
pub fn natural_in(word: &[u8], most: u64) -> Option<u64>
    ensures { IfSome result (λ value. (value ≤ most) × (pos value ≡ whole word.now)) }
{
    let value = u64::try_from(whole_in(word)?).ok()?;
    if most < value {
        return None;
    }
    Some(value)
}

// The number that a line says at a place; or why it says none, and where its word ends.
pub fn natural_at(line: &[u8], at: usize, most: u64) -> Result<Parsed<u64>, Unread>
    ensures { MatchResult result (λ said. (said.value ≤ most) × Told line.now at (pos said.value) said.behind) (λ unread. Unsaid line.now at NotANumber unread) }
{
    let word = words::word_at(line, at);
    words::read_as(word, natural_in(word.value, most), Reason::NotANumber)
}

// The whole number that a line says at a place, likewise.
pub fn whole_at(line: &[u8], at: usize) -> Result<Parsed<i64>, Unread>
    ensures { MatchResult result (λ said. Told line.now at said.value said.behind) (λ unread. Unsaid line.now at NotANumber unread) }
{
    let word = words::word_at(line, at);
    words::read_as(word, whole_in(word.value), Reason::NotANumber)
}

// Numbers with commas between them, or `-` for none. Answers how many they are.
pub fn values_in(word: &[u8], values: &mut [i32]) -> Option<usize>
    ensures { IfSome result (λ count. count ≤ length values.old) }
{
    if matches!(word, [b'-']) {
        return Some(0);
    }
    let mut from: usize = 0;
    for (count, value) in values.iter_mut().enumerate() {
        let end = words::seek(word, from, b',');
        *value = small_in(words::part(word, from, end))?;
        if word.len() <= end {
            return Some(count + 1);
        }
        from = end + 1;
    }
    None
}
