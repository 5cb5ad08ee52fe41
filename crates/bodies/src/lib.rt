// Compact bodies (clause 8.4 of ISO/IEC 19794-7:2007): the sample points that a template's descriptors rule, read and written.
#![tactic(auto)]

ghost use Rattle.std.specs.Prelude.{◌≡◌, length};
ghost use Rattle.formats.specs.Lent.{writing};
ghost use Rattle.channels.specs.Descriptors.{included, stored};
ghost use Rattle.templates.specs.Reading.{template_of};
ghost use Rattle.bodies.specs.Body.{begun, points_in};
ghost use Rattle.bodies.specs.Reading.{ruling, rule_of, exceeds, verdict_by, unjudged, judged_by, pointed_at, pointed_by, places_by};
ghost use Rattle.bodies.specs.Writing.{count_fits, judgement_by, write_ruled, write_by};

use channels::{Description, Format, Place};
use orders::Order;
use refusals::{Quantity, Refusal};

// What a template says of its bodies: whether there can be one, which channels a point has, and how many points there may be.
#[derive(Clone, Copy)]
struct Rule {
    judgement: Result<(), Refusal>,
    included: [bool; 16],
    stored: [bool; 16],
    limited: bool,
    maximum: u32,
}

// The template's own refusals, and then 16 where it describes no channels.
fn ruling(verdict: Result<(), Refusal>, described: bool) -> Result<(), Refusal>
    ensures { result ≡ ruling verdict described }
{
    verdict?;
    if !described {
        return Err(Refusal::Tag);
    }
    Ok(())
}

fn rule_of(read: templates::Judged) -> Rule
    ensures { result ≡ rule_of read }
{
    let verdict = read.verdict;
    let template = read.template;
    let description = template.description;
    Rule {
        judgement: ruling(verdict, template.described),
        included: channels::included_channels(description),
        stored: channels::stored_channels(description),
        limited: template.limited,
        maximum: template.maximum,
    }
}

// How many points some bytes begin: a body has no count (8.4). A point without bytes can't be told from none.
fn begun(width: usize, bytes: usize) -> usize
    ensures { result ≡ begun width bytes }
{
    if width == 0 {
        return 0;
    }
    let whole = bytes / width;
    if bytes % width == 0 {
        return whole;
    }
    whole + 1
}

// Which was refused, the template, or the body that it rules.
#[derive(Clone, Copy)]
pub enum Refused {
    Template(Refusal),
    Body(Refusal),
}

// A template's limit on the number of points (8.2.3).
fn exceeds(limited: bool, maximum: u32, count: usize) -> bool
    ensures { result ≡ exceeds limited maximum count }
{
    limited & ((maximum as usize) < count)
}

// The body by its template's rule: as many points are read as its bytes begin, so that a body that ends inside a point is short.
fn verdict_by(
    body: &[u8],
    stored: [bool; 16],
    limited: bool,
    maximum: u32,
) -> Result<usize, Refused>
    ensures { result ≡ verdict_by limited maximum (length body.now) (points_in stored body.now) }
{
    let width = points::width(Format::Compact, stored);
    let count = begun(width, body.len());
    let outcome = points::judge(body, 0, Format::Compact, stored, count);
    match outcome {
        Err(failure) => Err(Refused::Body(refusals::of(failure))),
        Ok(end) => {
            if end < body.len() {
                return Err(Refused::Body(Refusal::LeftOver { place: end }));
            }
            if exceeds(limited, maximum, count) {
                return Err(Refused::Body(Refusal::Maximum));
            }
            Ok(count)
        }
    }
}

// A verdict, and the template's description, which says nothing of any channel where there is no body.
#[derive(Clone, Copy)]
pub struct Judged {
    pub verdict: Result<usize, Refused>,
    pub description: Description,
}

fn unjudged(verdict: Result<usize, Refused>) -> Judged
    ensures { result ≡ unjudged verdict }
{
    let description = descriptions::nothing(Format::Compact);
    Judged {
        verdict: verdict,
        description: description,
    }
}

// A whole slice, as a body of the template that the other slice is.
pub fn judge(template: &[u8], body: &[u8]) -> Judged
    ensures { result ≡ judged_by (template_of template.now) body.now }
{
    let read = templates::read(template);
    let rule = rule_of(read);
    let judgement = rule.judgement;
    if let Err(refusal) = judgement {
        return unjudged(Err(Refused::Template(refusal)));
    }
    let stored = rule.stored;
    let verdict = verdict_by(body, stored, rule.limited, rule.maximum);
    if let Err(_) = verdict {
        return unjudged(verdict);
    }
    let ruler = read.template;
    let description = ruler.description;
    Judged {
        verdict: verdict,
        description: description,
    }
}

// By the verdict on the body.
fn pointed_at(verdict: Result<usize, Refused>, index: usize) -> Result<(), Refused>
    ensures { result ≡ pointed_at index verdict }
{
    let count = verdict?;
    if index < count {
        Ok(())
    } else {
        Err(Refused::Body(Refusal::NoPoint))
    }
}

// Template and body are judged first.
pub fn judge_point(template: &[u8], body: &[u8], index: usize) -> Result<(), Refused>
    ensures { result ≡ pointed_by index (template_of template.now) body.now }
{
    let read = templates::read(template);
    let rule = rule_of(read);
    let judgement = rule.judgement;
    if let Err(refusal) = judgement {
        return Err(Refused::Template(refusal));
    }
    let stored = rule.stored;
    let verdict = verdict_by(body, stored, rule.limited, rule.maximum);
    pointed_at(verdict, index)
}

// One sample point as sixteen places, all absent where there is no such point: it is then read by the flags of no channel.
pub fn point(template: &[u8], body: &[u8], index: usize) -> [Place; 16]
    ensures { result ≡ places_by index (template_of template.now) body.now }
{
    let read = templates::read(template);
    let rule = rule_of(read);
    let pointed = judge_point(template, body, index);
    let mut included = [false; 16];
    let mut stored = [false; 16];
    let mut start: usize = 0;
    if let Ok(()) = pointed {
        included = rule.included;
        stored = rule.stored;
        start = index * points::width(Format::Compact, stored);
    }
    point_places::places(body, start, Format::Compact, included, stored)
}

// A count that three bytes don't hold is no record's, and points without bytes leave no trace in a body: both don't fit (request L4).
pub fn count_fits(count: usize, width: usize) -> bool
    ensures { result ≡ count_fits count width }
{
    count <= 16777215 && (count == 0 || 0 < width)
}

// The stages behind the template's: the count, the amount of values and the values, extended data, the template's limit.
fn judge_values(
    stored: [bool; 16],
    limited: bool,
    maximum: u32,
    count: usize,
    values: &[i32],
    wanted: bool,
) -> Result<(), Refusal>
    ensures { result ≡ judgement_by stored limited maximum count values.now wanted }
{
    let width = points::width(Format::Compact, stored);
    if !count_fits(count, width) {
        return Err(Refusal::NotCompact {
            quantity: Quantity::Count,
        });
    }
    let judged = values::judge(values, count, Format::Compact, stored, Order::Point);
    if let Err(refusal) = judged {
        return Err(refusals::in_compact(refusal));
    }
    if wanted {
        return Err(Refusal::NotCompact {
            quantity: Quantity::ExtendedData,
        });
    }
    if exceeds(limited, maximum, count) {
        return Err(Refusal::Maximum);
    }
    Ok(())
}

// The same, and the room; then the body is put at the start of the output.
fn write_ruled(
    stored: [bool; 16],
    limited: bool,
    maximum: u32,
    count: usize,
    values: &[i32],
    wanted: bool,
    out: &mut [u8],
) -> Result<usize, Refused>
    ensures { writing result out.new ≡ write_ruled stored limited maximum count values.now wanted out.old }
{
    let judged = judge_values(stored, limited, maximum, count, values, wanted);
    if let Err(refusal) = judged {
        return Err(Refused::Body(refusal));
    }
    let length = count * points::width(Format::Compact, stored);
    if out.len() < length {
        return Err(Refused::Body(Refusal::Room));
    }
    values::put(out, 0, values, count, Format::Compact, stored, Order::Point);
    Ok(length)
}

// A body is written by a template, from values in stored order, point by point. On a refusal the output is as it was; on success only its first bytes change.
// Extended data have no place in a body: that they are wanted is refused, and their bytes are not looked at.
pub fn write(
    template: &[u8],
    count: usize,
    values: &[i32],
    wanted: bool,
    extended: &[u8],
    out: &mut [u8],
) -> Result<usize, Refused>
    ensures { writing result out.new ≡ write_by (template_of template.now) count values.now wanted out.old }
{
    let read = templates::read(template);
    let rule = rule_of(read);
    let judgement = rule.judgement;
    if let Err(refusal) = judgement {
        return Err(Refused::Template(refusal));
    }
    let stored = rule.stored;
    write_ruled(
        stored,
        rule.limited,
        rule.maximum,
        count,
        values,
        wanted,
        out,
    )
}
