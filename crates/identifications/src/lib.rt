// What a full record begins with: the format identifier and the version (7.3.2, 7.3.3), found from any place of some bytes.
#![tactic(auto)]

ghost use Rattle.std.specs.Prelude.{◌≡◌, ◌≤◌, length};
ghost use Rattle.formats.specs.Reader.{read_at};
ghost use Rattle.formats.specs.Told.{told, matched};
ghost use Rattle.identifications.specs.Identification.{identification};

use formats::Failure;

// Four certain bytes from a place on, or the refusal of the first that is another.
fn bytes_at(s: &[u8], start: usize, expected: [u8; 4], fault: u8) -> Result<usize, Failure>
    requires { start ≤ length s.now }
    ensures { result ≡ matched s.now start expected fault }
{
    for (i, byte) in expected.iter().enumerate() {
        if s.len() - start <= i {
            return Err(Failure::Short);
        }
        if s[start + i] != *byte {
            return Err(Failure::Bad(fault, start + i));
        }
    }
    Ok(start + 4)
}

// Where the format identifier and the version end that stand from a place on (7.3.2, 7.3.3).
pub fn end(bytes: &[u8], start: usize) -> Result<usize, Failure>
    ensures { result ≡ told (read_at identification bytes.now start) }
{
    if bytes.len() < start {
        return Err(Failure::Short);
    }
    let at = bytes_at(bytes, start, records::IDENTIFIER, 2)?;
    bytes_at(bytes, at, records::VERSION, 3)
}
