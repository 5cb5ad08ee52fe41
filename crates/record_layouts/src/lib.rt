// How a full record lies (7.4): its points behind its front, and its extended data behind them.
#![tactic(auto)]

ghost use Rattle.std.specs.Prelude.{◌≡◌, ◌≤◌, length};
ghost use Rattle.formats.specs.Reader.{read_at};
ghost use Rattle.formats.specs.Told.{told, then_told};
ghost use Rattle.formats.specs.Jump.{ends};
ghost use Rattle.records.specs.Record.{extension};
ghost use Rattle.record_layouts.specs.Layout.{layout_behind, layout_at};

use channels::Format;
use formats::Failure;
use record_fronts::Front;

// Bytes that may be anything are passed over at once.
fn jump(s: &[u8], start: usize, size: usize) -> Result<usize, Failure>
    requires { start ≤ length s.now }
    ensures { result ≡ ends s.now start size }
{
    if s.len() - start < size {
        return Err(Failure::Short);
    }
    Ok(start + size)
}

// The extended data, where the opening byte announced them: a length of two bytes, and that many bytes (7.4.3, as decided).
fn extension_end(s: &[u8], start: usize, announced: bool) -> Result<usize, Failure>
    ensures { result ≡ told (read_at (extension announced) s.now start) }
{
    if !announced {
        return Ok(start);
    }
    if s.len() < start {
        return Err(Failure::Short);
    }
    if s.len() - start < 2 {
        return Err(Failure::Short);
    }
    let size = formats::pair(s[start], s[start + 1]);
    jump(s, start + 2, size as usize)
}

// How a record lies behind its front: whether extended data are announced, how many points there are, the place behind the last, and the record's end.
// The flags of its channels stay with the front: only a point needs them, and they are dear to copy.
#[derive(Clone, Copy)]
pub struct Layout {
    pub announced: bool,
    pub count: u32,
    pub extension: usize,
    pub end: usize,
}

// The points behind a front, and the extended data behind them; where reading the front failed, its failure.
pub fn layout_behind(bytes: &[u8], front: Result<Front, Failure>) -> Result<Layout, Failure>
    ensures { result ≡ then_told front (layout_behind bytes.now) }
{
    let front = front?;
    let extension = points::judge(
        bytes,
        front.points,
        Format::Full,
        front.stored,
        front.count as usize,
    )?;
    let end = extension_end(bytes, extension, front.announced)?;
    Ok(Layout {
        announced: front.announced,
        count: front.count,
        extension: extension,
        end: end,
    })
}

// The record that stands from a place on, part by part.
pub fn layout_at(bytes: &[u8], start: usize) -> Result<Layout, Failure>
    ensures { result ≡ layout_at bytes.now start }
{
    let front = record_fronts::front_at(bytes, start);
    layout_behind(bytes, front)
}
