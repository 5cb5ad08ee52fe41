// The compact parameter template (clause 8.2 of ISO/IEC 19794-7:2007): what bytes are read as.
#![tactic(auto)]

ghost use Rattle.std.specs.Prelude.{◌≡◌, true, false, ◌-◌, ◌≤◌, length, take, drop};
ghost use Rattle.formats.specs.Number.{value};
ghost use Rattle.templates.specs.Reading.{saying, accepted, refused, end_of, is_shortest, limited_by, limited_from, limit_of, filled, described_by, content_of, template_of};
ghost use Rattle.descriptions.specs.Read.{nothing};
ghost use Rattle.channels.specs.declared.Format.TheVariants.{Compact};

use channels::{Description, Format};
use formats::Failure;
use refusals::Refusal;

// What a template says: a description of channels if it has one, and the largest number of points if it names one.
// What it doesn't have is zeros here. The description stands first, where no gap comes before it: so it is copied whole.
#[derive(Clone, Copy)]
pub struct Template {
    pub description: Description,
    pub described: bool,
    pub limited: bool,
    pub maximum: u32,
}

// What was found, and the template, which is all zeros where there is none.
#[derive(Clone, Copy)]
pub struct Judged {
    pub verdict: Result<(), Refusal>,
    pub template: Template,
}

// No template: all is zeros.
fn refused(refusal: Refusal) -> Judged
    ensures { result ≡ refused refusal }
{
    Judged {
        verdict: Err(refusal),
        template: Template {
            described: false,
            description: descriptions::nothing(Format::Compact),
            limited: false,
            maximum: 0,
        },
    }
}

fn accepted(described: bool, description: Description, limited: bool, maximum: u32) -> Judged
    ensures { result ≡ accepted (saying described description limited maximum) }
{
    Judged {
        verdict: Ok(()),
        template: Template {
            described: described,
            description: description,
            limited: limited,
            maximum: maximum,
        },
    }
}

// Where the content ends that the length byte at a place announces.
fn end_of(s: &[u8], at: usize) -> Option<usize>
    ensures { result ≡ end_of s.now at }
{
    if s.len() <= at {
        return None;
    }
    let size = s[at] as usize;
    if s.len() - (at + 1) < size {
        return None;
    }
    Some(at + 1 + size)
}

// One to three bytes, and the first of several isn't zero.
fn is_shortest(content: &[u8]) -> bool
    ensures { result ≡ is_shortest content.now }
{
    if content.len() == 0 {
        return false;
    }
    if 3 < content.len() {
        return false;
    }
    if content.len() == 1 {
        return true;
    }
    content[0] != 0
}

// The number that one to three bytes make, the high byte first.
fn number_of(content: &[u8]) -> u32
    requires { is_shortest content.now ≡ true }
    ensures { result ≡ value (length content.now) content.now }
{
    let mut number: u32 = 0;
    for byte in content {
        number = number * 256 + u32::from(*byte);
    }
    number
}

// What stands behind what is said of channels, without it: a description is long, and is handed on only where it is read.
#[derive(Clone, Copy)]
struct Limit {
    verdict: Result<(), Refusal>,
    limited: bool,
    maximum: u32,
}

fn no_limit(refusal: Refusal) -> Limit
    ensures { result ≡ limit_of (refused refusal) }
{
    Limit {
        verdict: Err(refusal),
        limited: false,
        maximum: 0,
    }
}

fn up_to(limited: bool, maximum: u32) -> Limit
    ensures { result ≡ limit_of (accepted (saying false (nothing Compact) limited maximum)) }
{
    Limit {
        verdict: Ok(()),
        limited: limited,
        maximum: maximum,
    }
}

// The template that says this of channels and that of points.
fn fill(described: bool, description: Description, limit: Limit) -> Judged
    ensures { result ≡ filled described description limit }
{
    let verdict = limit.verdict;
    match verdict {
        Ok(()) => accepted(described, description, limit.limited, limit.maximum),
        Err(refusal) => refused(refusal),
    }
}

// The largest number of points, from `start` to `end`; nothing may follow it.
fn limited_by(s: &[u8], start: usize, end: usize) -> Limit
    requires { (start ≤ end) × (end ≤ length s.now) }
    ensures { result ≡ limit_of (limited_by false (nothing Compact) (take (end - start) (drop start s.now)) (drop end s.now)) }
{
    let content = &s[start..end];
    if !is_shortest(content) {
        return no_limit(Refusal::Maximum);
    }
    let maximum = number_of(content);
    if end < s.len() {
        return no_limit(Refusal::Tag);
    }
    up_to(true, maximum)
}

// The field 82 or the end, behind what was said of channels.
fn limited_from(s: &[u8], at: usize) -> Limit
    ensures { result ≡ limit_of (limited_from false (nothing Compact) (drop at s.now)) }
{
    if s.len() <= at {
        return up_to(false, 0);
    }
    if s[at] != 0x82 {
        return no_limit(Refusal::Tag);
    }
    match end_of(s, at + 1) {
        Some(end) => limited_by(s, at + 2, end),
        None => no_limit(Refusal::Length),
    }
}

// The description, from place 4 to `end`, which it has to fill, and what may follow it.
fn described_by(s: &[u8], end: usize) -> Judged
    requires { (4 ≤ end) × (end ≤ length s.now) }
    ensures { result ≡ described_by (take (end - 4) (drop 4 s.now)) (drop end s.now) }
{
    let content = &s[4..end];
    match descriptions::read(content, 0, Format::Compact) {
        Ok(described) => {
            if described.end != end - 4 {
                return refused(Refusal::Length);
            }
            fill(true, described.description, limited_from(s, end))
        }
        Err(Failure::Short) => refused(Refusal::Length),
        Err(Failure::Bad(number, place)) => {
            if number == 4 {
                return refused(Refusal::XOrY {
                    place: Some(4 + place),
                });
            }
            refused(Refusal::ReservedBit { place: 4 + place })
        }
    }
}

// The field 81 if it is there, and what may follow it.
fn content_of(s: &[u8]) -> Judged
    ensures { result ≡ content_of (drop 2 s.now) }
{
    if s.len() <= 2 {
        return fill(
            false,
            descriptions::nothing(Format::Compact),
            limited_from(s, 2),
        );
    }
    if s[2] != 0x81 {
        return fill(
            false,
            descriptions::nothing(Format::Compact),
            limited_from(s, 2),
        );
    }
    match end_of(s, 3) {
        Some(end) => described_by(s, end),
        None => refused(Refusal::Length),
    }
}

// Whether bytes are a template and nothing more, and what it says (8.2). Its length is settled before its content.
pub fn read(bytes: &[u8]) -> Judged
    ensures { result ≡ template_of bytes.now }
{
    if bytes.len() == 0 {
        return refused(Refusal::Short);
    }
    if bytes[0] != 0xB1 {
        return refused(Refusal::Tag);
    }
    if bytes.len() == 1 {
        return refused(Refusal::Short);
    }
    let size = bytes[1] as usize;
    if 128 <= size {
        return refused(Refusal::Length);
    }
    if bytes.len() - 2 < size {
        return refused(Refusal::Short);
    }
    if size < bytes.len() - 2 {
        return refused(Refusal::LeftOver { place: 2 + size });
    }
    content_of(bytes)
}
