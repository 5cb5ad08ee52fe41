// The parts of a full record that are the caller's own bytes: its extended data, and what follows it.
#![tactic(auto)]

ghost use Rattle.std.specs.Prelude.{length};
ghost use Rattle.formats.specs.Reader.{run};
ghost use Rattle.formats.specs.Part.{Part};
ghost use Rattle.records.specs.Record.{full_record};
ghost use Rattle.record_parts.specs.Parts.{extended_place, extended_size, rest_place, rest_size};

// The extended data of the record that some bytes begin with: the caller's own bytes. Empty at the record's end where it has none,
// and at the start where there is no record.
pub fn extended<'a>(bytes: &'a [u8]) -> &'a [u8]
    ensures { Part bytes.entry result (extended_place (run full_record bytes.now)) (extended_size (run full_record bytes.now)) }
{
    let Ok(layout) = record_layouts::layout_at(bytes, 0) else {
        return &bytes[0..0];
    };
    if layout.announced {
        let start = layout.extension + 2;
        &bytes[start..layout.end]
    } else {
        &bytes[layout.end..layout.end]
    }
}

// The bytes behind the record that some bytes begin with: the caller's own. Empty at the start where there is no record.
pub fn rest<'a>(bytes: &'a [u8]) -> &'a [u8]
    ensures { Part bytes.entry result (rest_place (run full_record bytes.now)) (rest_size (length bytes.now) (run full_record bytes.now)) }
{
    let Ok(layout) = record_layouts::layout_at(bytes, 0) else {
        return &bytes[0..0];
    };
    &bytes[layout.end..]
}
