// What document 01 demands, said of what the public functions answer.
// Each function here only asks one of the library's, and promises it by the name that `Promises` gives the promise:
// so the checker holds the names that the claims speak of to the contracts.
#![tactic(auto)]

ghost use Rattle.demands.specs.Promises as promises;

use channels::{Description, Place};
use record_reading::{Extent, Judged};
use refusals::Refusal;

fn judge(bytes: &[u8]) -> Judged
    ensures { promises.judge bytes.now result }
{
    record_reading::judge(bytes)
}

fn verdict_at(bytes: &[u8], start: usize) -> Result<Extent, Refusal>
    ensures { promises.verdict_at bytes.now start result }
{
    record_reading::verdict_at(bytes, start)
}

fn judge_whole(bytes: &[u8]) -> Judged
    ensures { promises.judge_whole bytes.now result }
{
    record_reading::judge_whole(bytes)
}

fn judge_point(bytes: &[u8], index: usize) -> Result<(), Refusal>
    ensures { promises.judge_point bytes.now index result }
{
    record_points::judge_point(bytes, index)
}

fn point(bytes: &[u8], index: usize) -> [Place; 16]
    ensures { promises.point bytes.now index result }
{
    record_points::point(bytes, index)
}

fn extended<'a>(bytes: &'a [u8]) -> &'a [u8]
    ensures { promises.extended bytes.entry result }
{
    record_parts::extended(bytes)
}

fn rest<'a>(bytes: &'a [u8]) -> &'a [u8]
    ensures { promises.rest bytes.entry result }
{
    record_parts::rest(bytes)
}

fn write(
    description: Description,
    count: usize,
    values: &[i32],
    wanted: bool,
    extended: &[u8],
    out: &mut [u8],
) -> Result<usize, Refusal>
    ensures { promises.write description count values.now wanted extended.now out.old result out.new }
{
    record_writing::write(description, count, values, wanted, extended, out)
}

fn write_columns(
    description: Description,
    count: usize,
    values: &[i32],
    wanted: bool,
    extended: &[u8],
    out: &mut [u8],
) -> Result<usize, Refusal>
    ensures { promises.write_columns description count values.now wanted extended.now out.old result out.new }
{
    record_writing::write_columns(description, count, values, wanted, extended, out)
}
