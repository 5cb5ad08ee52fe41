// Descriptions as words: a word for the mark and one for each channel of which something is said, read from a line and put into a text.
#![tactic(auto)]

ghost use Rattle.std.specs.Prelude.{◌≡◌, false, ◌<◌, IfSome, IfErr};
ghost use Rattle.descriptions.specs.Read.{nothing};
ghost use Rattle.words.specs.Places.{Blank};
ghost use Rattle.words.specs.declared.Reason.TheVariants.{NotAChannel};
ghost use Rattle.sayings.specs.Silent.{Silent};

use channels::{Attribute, Description, Descriptor, Format};
use texts::Text;
use words::{Parsed, Reason};

// The channel of a name.
fn channel_of(name: &[u8]) -> Option<usize>
    ensures { IfSome result (λ channel. channel < 16) }
{
    let channel = words::which(b"X Y Z VX VY AX AY T DT F S TX TY Az El R", b' ', name);
    channel.ok().filter(|number| *number < 16)
}

// A channel's name, behind a space.
pub fn put_name(text: &mut Text, channel: usize) {
    text.put(b' ');
    text.put_bytes(words::name(b"X Y Z VX VY AX AY T DT F S TX TY Az El R", b' ', channel));
}

// What is said of a channel: five numbers, and two things that hold or not.
#[derive(Clone, Copy)]
pub enum Thing {
    Scaling,
    Minimum,
    Maximum,
    Mean,
    Deviation,
    Constant,
    Removed,
}

fn name_of(thing: Thing) -> &'static [u8] {
    match thing {
        Thing::Scaling => b"scaling",
        Thing::Minimum => b"minimum",
        Thing::Maximum => b"maximum",
        Thing::Mean => b"mean",
        Thing::Deviation => b"deviation",
        Thing::Constant => b"constant",
        Thing::Removed => b"removed",
    }
}

// The thing of a name.
fn thing_of(name: &[u8]) -> Option<Thing> {
    let things = [
        Thing::Scaling,
        Thing::Minimum,
        Thing::Maximum,
        Thing::Mean,
        Thing::Deviation,
        Thing::Constant,
        Thing::Removed,
    ];
    things.into_iter().find(|thing| name_of(*thing) == name)
}

// Its name, behind a mark.
pub fn put_thing(text: &mut Text, mark: u8, thing: Thing) {
    text.put(mark);
    text.put_bytes(name_of(thing));
}

// One thing that is said of a channel, as `constant`, `mean=5` or, a number without its flag, `!mean=5`.
#[derive(Clone, Copy)]
struct Saying {
    thing: Thing,
    attribute: Attribute,
}

// The number that stands behind a thing's name and `=`. Only a number has something behind its name.
fn number_behind(thing: Thing, behind: &[u8]) -> Option<i32> {
    match thing {
        Thing::Constant | Thing::Removed if behind.is_empty() => Some(0),
        Thing::Constant | Thing::Removed => None,
        _ => numerals::small_in(words::part(behind, 1, behind.len())),
    }
}

fn saying_in(text: &[u8]) -> Option<Saying> {
    let sentence = words::without_not(text);
    let equals = words::seek(sentence, 0, b'=');
    let thing = thing_of(words::part(sentence, 0, equals))?;
    let number = number_behind(thing, words::part(sentence, equals, sentence.len()))?;
    Some(Saying {
        thing: thing,
        attribute: Attribute {
            given: !words::says_not(text),
            number: number,
        },
    })
}

// A descriptor with one thing more.
fn with(descriptor: Descriptor, more: Saying) -> Descriptor {
    let attribute = more.attribute;
    let mut d = descriptor;
    match more.thing {
        Thing::Scaling => d.scaling = attribute,
        Thing::Minimum => d.minimum = attribute,
        Thing::Maximum => d.maximum = attribute,
        Thing::Mean => d.mean = attribute,
        Thing::Deviation => d.deviation = attribute,
        Thing::Constant => d.constant = attribute.given,
        Thing::Removed => d.detrended = attribute.given,
    }
    d
}

// A channel of which only is said whether it is included.
fn named(included: bool) -> Descriptor {
    let nothing = descriptions::nothing(Format::Full);
    let mut d = nothing.channels[0];
    d.included = included;
    d
}

// What a word says of its channel, each thing behind a dot.
fn descriptor_in(word: &[u8]) -> Option<Descriptor> {
    let mut d = named(!words::says_not(word));
    for text in word.split(|byte| *byte == b'.').skip(1) {
        d = with(d, saying_in(text)?);
    }
    Some(d)
}

// The channel that a word names.
fn channel_in(word: &[u8]) -> Option<usize>
    ensures { IfSome result (λ channel. channel < 16) }
{
    let name = words::without_not(word);
    channel_of(words::part(name, 0, words::seek(name, 0, b'.')))
}

// The mark that a line says at a place, or, where it says none, the one that is meant there; and the place behind it.
pub fn mark_at(line: &[u8], at: usize, meant: Format) -> Parsed<Format> {
    let word = words::word_at(line, at);
    match words::which(b"full compact", b' ', word.value) {
        Ok(0) => Parsed {
            value: Format::Full,
            behind: word.behind,
        },
        Ok(_) => Parsed {
            value: Format::Compact,
            behind: word.behind,
        },
        Err(_) => Parsed {
            value: meant,
            behind: at,
        },
    }
}

// The description with a mark, and with the channels that the words of a line, from a place on, say; or that one of them says no channel.
pub fn described_at(line: &[u8], at: usize, mark: Format) -> Result<Description, Reason>
    ensures nothing { Blank line.now at → result ≡ Ok (nothing mark) }
    ensures reason { IfErr result (λ reason. reason ≡ NotAChannel) }
{
    let mut description = descriptions::nothing(mark);
    // tried with `split` and `filter`: then nothing says that a blank line has no word, which `words::next` promises
    let mut span = words::next(line, b' ', at);
    while span.from < span.to {
        let word = words::part(line, span.from, span.to);
        let channel = channel_in(word).ok_or(Reason::NotAChannel)?;
        let d = descriptor_in(word).ok_or(Reason::NotAChannel)?;
        description.channels[channel] = d;
        span = words::next(line, b' ', span.to);
    }
    Ok(description)
}

// The same, where a word that says no channel is passed over, so that there is always a description.
pub fn description_at(line: &[u8], at: usize, mark: Format) -> Description
    ensures { Blank line.now at → result ≡ nothing mark }
{
    let mut said = descriptions::nothing(mark);
    // no `for`, as above
    let mut place = words::next(line, b' ', at);
    while place.from < place.to {
        let word = words::part(line, place.from, place.to);
        if let Some(channel) = channel_in(word) {
            if let Some(d) = descriptor_in(word) {
                said.channels[channel] = d;
            }
        }
        place = words::next(line, b' ', place.to);
    }
    said
}

fn put_attribute(text: &mut Text, thing: Thing, attribute: Attribute) {
    if !attribute.given {
        return;
    }
    put_thing(text, b'.', thing);
    text.put(b'=');
    text.put_value(attribute.number);
}

fn put_holding(text: &mut Text, thing: Thing, holds: bool) {
    if holds {
        return put_thing(text, b'.', thing);
    }
}

// The word of a channel, where it is included: its name, and what is said of it.
fn put_channel(text: &mut Text, channel: usize, d: Descriptor)
    ensures { d.included ≡ false → text.new ≡ text.old }
{
    if !d.included {
        return;
    }
    put_name(text, channel);
    put_descriptor(text, d);
}

fn put_descriptor(text: &mut Text, d: Descriptor) {
    put_attribute(text, Thing::Scaling, d.scaling);
    put_attribute(text, Thing::Minimum, d.minimum);
    put_attribute(text, Thing::Maximum, d.maximum);
    put_attribute(text, Thing::Mean, d.mean);
    put_attribute(text, Thing::Deviation, d.deviation);
    put_holding(text, Thing::Constant, d.constant);
    put_holding(text, Thing::Removed, d.detrended);
}

// A word for each channel that is included.
fn put_channels(text: &mut Text, description: Description)
    ensures { Silent description → text.new ≡ text.old }
{
    for channel in 0..16 {
        let d = description.channels[channel];
        put_channel(text, channel, d);
    }
}

// Its mark, and a word for each channel that is included.
pub fn put_description(text: &mut Text, description: Description) {
    let mark = description.mark;
    put_mark(text, mark);
    put_channels(text, description);
}

fn put_mark(text: &mut Text, mark: Format) {
    match mark {
        Format::Full => text.put_bytes(b" full"),
        Format::Compact => text.put_bytes(b" compact"),
    }
}
