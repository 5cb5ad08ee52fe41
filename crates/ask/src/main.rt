// The console: one question a line, one answer a line, over every public function of the library.
#![tactic(auto)]

use std::io::Read;
use texts::Text;
use words::Reason;

// The longest line that is read.
const LONGEST: usize = 262144;

// The line that has begun, and how many bytes of it are gathered.
// One more than the longest is counted, so that it is seen where there are more.
#[derive(Drop)]
struct Line {
    bytes: [u8; 262144],
    gathered: usize,
}

impl Line {
    // A byte joins the line, as long as there is room. Tabs and carriage returns stand for spaces.
    fn join(&mut self, byte: u8) {
        if LONGEST < self.gathered {
            return;
        }
        if self.gathered < LONGEST {
            self.bytes[self.gathered] = if byte == b'\t' || byte == b'\r' {
                b' '
            } else {
                byte
            };
        }
        self.gathered += 1;
    }
}

// The answer to a line, with its line feed.
fn answer(text: &mut Text, line: &Line) {
    if LONGEST < line.gathered {
        answers::cannot(text, Some(Reason::TooLong));
    } else {
        questions::answer(text, &line.bytes[0..line.gathered]);
    }
    text.put(b'\n');
}

// The bytes that came: each line that ends in them is answered.
fn take(text: &mut Text, line: &mut Line, bytes: &[u8]) {
    for &byte in bytes {
        if byte == b'\n' {
            answer(text, line);
            line.gathered = 0;
        } else {
            line.join(byte);
        }
    }
    text.write_out();
}

// Reads once, and takes what came. Tells how many bytes came: none at the end of the input.
fn take_some<R: Read>(input: &mut R, text: &mut Text, line: &mut Line) -> std::io::Result<usize> {
    let mut bytes = [0; 65536];
    let came = input.read(&mut bytes)?;
    take(text, line, &bytes[0..came]);
    Ok(came)
}

// A proved loop has to end, and nothing says that the input does: its turns are counted, up to a number that no run comes to.
// A read that fails is not the end of the input: what is gathered then may be a part of a line, and is not answered.
fn main(rt: HostRuntime) {
    let mut input = rt.stdin();
    let mut text = Text::new();
    let mut line = Line {
        bytes: [0; 262144],
        gathered: 0,
    };
    for _ in 0..u64::MAX {
        match take_some(&mut input, &mut text, &mut line) {
            Ok(0) => break,
            Ok(_) => (),
            Err(_) => {
                io::write_all(1, b"unreadable\n");
                return;
            }
        }
    }
    if 0 < line.gathered {
        answer(&mut text, &line);
        text.write_out();
    }
}
