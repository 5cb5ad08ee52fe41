// The columns of a record, as C calls for them: bench/ counts the instructions of this function, in a library of its own.
#![tactic(auto)]

ghost use Rattle.std.specs.Prelude.{◌≡◌, length};
ghost use Rattle.formats.specs.Reader.{run};
ghost use Rattle.records.specs.Record.{full_record};
ghost use Rattle.record_columns.specs.Columns.{columns_read};
ghost use Rattle.column_costs.specs.Handed.{handing, handed_filling};

// 0 where the columns were filled in, or the refusal's number.
#[unsafe(no_mangle)]
pub extern "C" fn costs_read_columns(bytes: &[u8], values: &mut [i32]) -> u64
    ensures { handing result values.new ≡ handed_filling (columns_read (length bytes.now) (run full_record bytes.now) values.old) }
{
    let filled = record_columns::read_columns(bytes, values);
    match filled {
        Ok(()) => 0,
        Err(refusal) => refusals::number(refusal) as u64,
    }
}
