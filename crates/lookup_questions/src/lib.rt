// The question of one sample point by itself: it is asked of the library, and answered with how many bytes were looked at.
#![tactic(auto)]

use texts::Text;

pub fn look_up(text: &mut Text, bytes: &[u8], index: usize) {
    let lookup = lookups::look_up(bytes, index);
    let pointed = lookup.pointed;
    let looked = lookup.looked as u64;
    answers::put(text, answers::of_pointed(pointed));
    if let Ok(()) = pointed {
        text.put_field(looked);
        return answers::put_places(text, lookups::point(bytes, index));
    }
    text.put_bytes(b" looked");
    text.put_field(looked);
}
