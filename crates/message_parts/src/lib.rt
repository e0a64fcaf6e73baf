// What lines about files share: a name as one line shows it, and a name behind a comma.
//
// Helpers for other crates, whose callers prove that there is room: with_shown, with_part.
#![tactic(auto)]

ghost use Rattle.std.specs.Prelude.{◌≡◌, map, ◌+◌, ◌≤◌, length};
ghost use Rattle.text.specs.Texts.{text_limit, Adds};
ghost use Rattle.message_parts.specs.Parts.{shown, part};

use text::Text;

// A byte as one line shows it: a space for one below 32.
fn shown(b: u8) -> u8
    ensures { result ≡ shown b }
{
    if b < 32 { 32 } else { b }
}

// The text followed by a name, as one line shows it.
pub fn with_shown(text: Text, name: &[u8]) -> Text
    requires { text.len + length name.now ≤ text_limit }
    ensures { Adds text (map shown name.now) result }
{
    let start = text.len;
    let mut bytes = text.bytes;
    for (i, byte) in name.iter().enumerate() {
        bytes[start + i] = shown(*byte);
    }
    Text {
        bytes,
        len: start + name.len(),
    }
}

// The text followed by a comma and a name, where there is one.
pub fn with_part(text: Text, name: &[u8]) -> Text
    requires { text.len + length name.now + 2 ≤ text_limit }
    ensures adds { Adds text (part name.now) result }
    ensures len_bound { result.len ≤ text.len + length name.now + 2 }
{
    if name.len() == 0 {
        return text;
    }
    let begun = text.with_bytes(b", ");
    with_shown(begun, name)
}
