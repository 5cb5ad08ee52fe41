// The questions of some bytes as a record or as a file of records: each is asked of the library, and answered.
#![tactic(auto)]

use texts::Text;

pub fn judge(text: &mut Text, bytes: &[u8], whole: bool) {
    let judged = if whole {
        record_reading::judge_whole(bytes)
    } else {
        record_reading::judge(bytes)
    };
    let verdict = judged.verdict;
    answers::put(text, answers::of_verdict(verdict));
    if let Err(_) = verdict {
        return;
    }
    sayings::put_description(text, judged.description);
}

fn put_bytes(text: &mut Text, bytes: &[u8]) {
    text.put_bytes(b"bytes ");
    text.put_hex(bytes);
}

pub fn extended(text: &mut Text, bytes: &[u8]) {
    put_bytes(text, record_parts::extended(bytes));
}

pub fn rest(text: &mut Text, bytes: &[u8]) {
    put_bytes(text, record_parts::rest(bytes));
}

pub fn point(text: &mut Text, bytes: &[u8], index: usize) {
    let pointed = record_points::judge_point(bytes, index);
    answers::put(text, answers::of_pointed(pointed));
    if let Ok(()) = pointed {
        answers::put_places(text, record_points::point(bytes, index));
    }
}

pub fn step(text: &mut Text, file: &[u8], place: usize) {
    let step = walks::step_at(file, place);
    let found = step.found;
    answers::put(text, answers::of_found(found));
    text.put_bytes(b" next");
    text.put_field(step.next as u64);
}
