// The question of some bytes as a compact parameter template: it is asked of the library, and answered.
#![tactic(auto)]

use texts::Text;

// The template that the bytes are, its maximum first, since a description has any number of words.
pub fn read(text: &mut Text, bytes: &[u8]) {
    let judged = templates::read(bytes);
    let verdict = judged.verdict;
    match verdict {
        Ok(()) => put_template(text, judged.template),
        Err(refusal) => answers::put(text, answers::of_refusal(refusal)),
    }
}

// Where a template has no description, `!` says so, and no word of one is put.
fn put_template(text: &mut Text, template: templates::Template) {
    let described = template.described;
    let description = template.description;
    let maximum = if template.limited {
        Some(template.maximum)
    } else {
        None
    };
    answers::put(text, answers::of_maximum(maximum));
    if described {
        return sayings::put_description(text, description);
    }
    answers::put_last(text, Some(answers::Word::Nothing));
}
