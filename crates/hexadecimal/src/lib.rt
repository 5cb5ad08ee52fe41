// Bytes in hex, as words say them.
#![tactic(auto)]

ghost use Rattle.std.specs.Prelude.{◌<◌, ◌≤◌, length, IfSome};

// What a hex digit says.
fn digit_of(byte: u8) -> Option<u8>
    ensures { IfSome result (λ digit. digit < 16) }
{
    match byte {
        b'0'..=b'9' => Some(byte - b'0'),
        b'A'..=b'F' => Some(byte - b'A' + 10),
        b'a'..=b'f' => Some(byte - b'a' + 10),
        _ => None,
    }
}

// The byte that two digits say.
fn byte_of(high: u8, low: u8) -> Option<u8> {
    Some(digit_of(high)? * 16 + digit_of(low)?)
}

// Bytes in hex: pairs of digits, with spaces between two pairs or not. Answers how many they are.
pub fn bytes_in(text: &[u8], bytes: &mut [u8]) -> Option<usize>
    ensures { IfSome result (λ count. count ≤ length bytes.old) }
{
    // a turn leaps over a pair and the spaces before it: no chain of std takes two bytes at such places
    let mut count: usize = 0;
    let mut at = words::skip(text, 0, b' ');
    while at < text.len() {
        let low = text.get(at + 1)?;
        let byte = byte_of(text[at], *low)?;
        if bytes.len() <= count {
            return None;
        }
        bytes[count] = byte;
        count += 1;
        at = words::skip(text, at + 2, b' ');
    }
    Some(count)
}

// Bytes in hex as one word, which is `-` where there are none.
pub fn hex_in(word: &[u8], bytes: &mut [u8]) -> Option<usize>
    ensures { IfSome result (λ count. count ≤ length bytes.old) }
{
    match word {
        [] => None,
        [b'-'] => Some(0),
        _ => bytes_in(word, bytes),
    }
}
