// The questions of a record's points by column: asked of the library, and answered with the numbers that were lent.
#![tactic(auto)]

ghost use Rattle.std.specs.Prelude.{◌≤◌};

use refusals::Refusal;
use texts::Text;

// How many numbers the points behind a front hold; none where there is no front, or where they are more than a line could say.
fn amount_of(bytes: &[u8]) -> usize
    ensures { result ≤ 131072 }
{
    let Ok(front) = record_fronts::front_at(bytes, 0) else {
        return 0;
    };
    let amount = (front.count as usize) * orders::size(front.stored);
    if 131072 < amount {
        return 0;
    }
    amount
}

// As many numbers are lent as the record has; where it is refused they are not shown.
pub fn columns(text: &mut Text, bytes: &[u8]) {
    let mut values = [99999; 131072];
    let amount = amount_of(bytes);
    fill(text, bytes, &mut values[0..amount], false);
}

// No more numbers than a line could say.
fn at_most(amount: usize) -> usize
    ensures { result ≤ 131072 }
{
    if 131072 < amount {
        return 131072;
    }
    amount
}

// Some numbers are lent, and shown as they are afterwards.
pub fn columns_in(text: &mut Text, bytes: &[u8], amount: usize) {
    let mut values = [99999; 131072];
    let lent = at_most(amount);
    fill(text, bytes, &mut values[0..lent], true);
}

fn fill(text: &mut Text, bytes: &[u8], values: &mut [i32], always: bool) {
    let filled = record_columns::read_columns(bytes, values);
    put(text, filled);
    if let Err(_) = filled {
        if !always {
            return;
        }
    }
    put_values(text, values);
}

fn put(text: &mut Text, filled: Result<(), Refusal>) {
    match filled {
        Ok(()) => text.put_bytes(b"columns"),
        Err(refusal) => answers::put(text, answers::of_refusal(refusal)),
    }
}

// Numbers with commas between them, or `-` where there are none; a space stands before them.
fn put_values(text: &mut Text, values: &[i32]) {
    text.put(b' ');
    if values.len() == 0 {
        return text.put(b'-');
    }
    for (i, &value) in values.iter().enumerate() {
        if 0 < i {
            text.put(b',');
        }
        text.put_value(value);
    }
}
