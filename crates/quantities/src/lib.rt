// Which number was out of its range, or what did not fit the compact format, as words of the console.
#![tactic(auto)]

use refusals::{AttributeName, Quantity};
use sayings::Thing;
use texts::Text;

// What descriptions call an attribute.
fn thing_of(name: AttributeName) -> Thing {
    match name {
        AttributeName::Scaling => Thing::Scaling,
        AttributeName::Minimum => Thing::Minimum,
        AttributeName::Maximum => Thing::Maximum,
        AttributeName::Mean => Thing::Mean,
        AttributeName::Deviation => Thing::Deviation,
    }
}

// As `X minimum`.
fn put_attribute(text: &mut Text, channel: usize, name: AttributeName) {
    sayings::put_name(text, channel);
    sayings::put_thing(text, b' ', thing_of(name));
}

// As `value 7 Y`.
fn put_value(text: &mut Text, index: usize, channel: usize) {
    text.put_bytes(b" value");
    text.put_field(index as u64);
    sayings::put_name(text, channel);
}

// Its words, each behind a space.
pub fn put(text: &mut Text, quantity: Quantity) {
    match quantity {
        Quantity::Attribute { channel, name } => put_attribute(text, channel, name),
        Quantity::Count => text.put_bytes(b" count"),
        Quantity::Value { index, channel } => put_value(text, index, channel),
        Quantity::Maximum => text.put_bytes(b" maximum"),
        Quantity::Raw => text.put_bytes(b" raw"),
        Quantity::Exponent => text.put_bytes(b" E"),
        Quantity::Fraction => text.put_bytes(b" F"),
        Quantity::ExtendedData => text.put_bytes(b" extended"),
    }
}
