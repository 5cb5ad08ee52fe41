// Text that a program gathers and writes out: bytes, numbers in decimal, bytes in hex.
// What the text holds then is promised. What standard output receives is not: no contract can say it.
#![tactic(auto)]

ghost use Rattle.std.specs.Prelude.{◌≡◌, ◌+◌, ◌<◌};
ghost use Rattle.texts.specs.Gathered.{empty, joins, joins_all, with_room, written_out};
ghost use Rattle.texts.specs.Digits.{digit_count, joins_number, joins_field, joins_long, hex_digit, hex_word};

use std::marker::Model;

// An array, and how many of its bytes are gathered. Sixteen bits count them, so that there is always room for one more.
// Both are open: a caller may begin in an array of its own, and read what is gathered.
#[derive(Drop)]
pub struct Text {
    pub bytes: [u8; 65536],
    pub used: u16,
}

// A contract sees all of it, the bytes behind the gathered ones too.
impl Model for Text {
    ghost use Rattle.texts.specs.Gathered.{Gathered, gathered};

    ghost Value = { Gathered };

    ghost view = { λ t. gathered t.bytes t.used };
}

impl Text {
    pub fn new() -> Text
        ensures { result ≡ empty }
    {
        Text {
            bytes: [0; 65536],
            used: 0,
        }
    }

    // A byte joins the text, which is written out when it has filled its array.
    pub fn put(&mut self, byte: u8)
        ensures { self.new ≡ joins self.old byte }
    {
        self.bytes[self.used as usize] = byte;
        self.used = if self.used == 65535 {
            io::write_all(1, &self.bytes);
            0
        } else {
            self.used + 1
        };
    }

    // Bytes join the text one by one.
    fn put_each(&mut self, bytes: &[u8])
        ensures { self.new ≡ joins_all self.old bytes.now }
    {
        for &byte in bytes {
            self.put(byte);
        }
    }

    // Where the bytes do not fill the text this is asked once, and not for each of them.
    // They are put one by one: a copy would ask first whether the two lie over each other, and most are two or three.
    pub fn put_bytes(&mut self, bytes: &[u8])
        ensures { self.new ≡ joins_all self.old bytes.now }
    {
        let first = self.used as usize;
        if 65535 - first < bytes.len() {
            return self.put_each(bytes);
        }
        for i in 0..bytes.len() {
            self.bytes[first + i] = bytes[i];
        }
        self.used = (first + bytes.len()) as u16;
    }

    // Twenty bytes have room in the text, which is written out where they have not.
    fn make_room(&mut self)
        ensures text { self.new ≡ with_room self.old }
        ensures room { self.new.used + 20 < 65536 }
    {
        let full = 65515 < self.used;
        if full {
            self.write_out();
        }
    }

    // The digits are put where they belong at once, the last one first: each takes one division.
    // It is worth a copy in each loop of a caller, which knows how long its numbers are.
    #[inline]
    pub fn put_number(&mut self, number: u64)
        ensures { self.new ≡ joins_number self.old number }
    {
        self.make_room();
        let first = self.used as usize;
        let end = first + digit_count(number);
        let mut rest = number;
        for at in (first..end).rev() {
            self.bytes[at] = b'0' + (rest % 10) as u8;
            rest /= 10;
        }
        self.used = end as u16;
    }

    // A number as a field of a line: a space stands before it.
    pub fn put_field(&mut self, number: u64)
        ensures { self.new ≡ joins_field self.old number }
    {
        self.put(b' ');
        self.put_number(number);
    }

    pub fn put_long(&mut self, value: i64)
        ensures { self.new ≡ joins_long self.old value }
    {
        if value < 0 {
            self.put(b'-');
        }
        self.put_number(value.unsigned_abs());
    }

    pub fn put_value(&mut self, value: i32)
        ensures { self.new ≡ joins_long self.old value }
    {
        self.put_long(value as i64);
    }

    // Bytes as pairs of hex digits, or `-` where there are none.
    pub fn put_hex(&mut self, bytes: &[u8])
        ensures { self.new ≡ joins_all self.old (hex_word bytes.now) }
    {
        if bytes.len() == 0 {
            return self.put(b'-');
        }
        for &byte in bytes {
            self.put(hex_digit(byte / 16));
            self.put(hex_digit(byte % 16));
        }
    }

    // What is gathered is written out, and nothing is gathered then. There is no more that a contract can say.
    pub fn write_out(&mut self)
        ensures { self.new ≡ written_out self.old }
    {
        let end = self.used as usize;
        io::write_all(1, &self.bytes[0..end]);
        self.used = 0;
    }
}

// How many digits a number has. Sixty-four bits hold none of more than twenty.
fn digit_count(number: u64) -> usize
    ensures { (result ≡ digit_count number) × (0 < result) × (result < 21) }
{
    let mut limit: u64 = 1;
    for count in 1..20 {
        limit *= 10;
        if number < limit {
            return count;
        }
    }
    20
}

// The hex digit of a number below 16, in a capital letter.
fn hex_digit(number: u8) -> u8
    ensures { result ≡ hex_digit number }
{
    match number {
        0 => b'0',
        1 => b'1',
        2 => b'2',
        3 => b'3',
        4 => b'4',
        5 => b'5',
        6 => b'6',
        7 => b'7',
        8 => b'8',
        9 => b'9',
        10 => b'A',
        11 => b'B',
        12 => b'C',
        13 => b'D',
        14 => b'E',
        _ => b'F',
    }
}
