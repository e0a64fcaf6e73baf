// Paths of files as text. A path has at most 4,095 bytes: where one would be longer the text is empty, which names no file.
//
// Helpers for other crates that ask nothing of their caller: path_in, temporary_path.
#![tactic(auto)]

ghost use Rattle.std.specs.Prelude.{◌++◌};
ghost use Rattle.text.specs.Texts.{Holds};
ghost use Rattle.paths.specs.Paths.{bounded, path_in, temporary_path};

use text::Text;

// Three parts one after the other.
fn joined(first: &[u8], second: &[u8], third: &[u8]) -> Text
    ensures { Holds (bounded (first.now ++ (second.now ++ third.now))) result }
{
    let empty = Text::empty();
    if 4095 < first.len() {
        return empty;
    }
    if 4095 - first.len() < second.len() {
        return empty;
    }
    if 4095 - first.len() - second.len() < third.len() {
        return empty;
    }
    let one = empty.with_bytes(first);
    let two = one.with_bytes(second);
    two.with_bytes(third)
}

// The path of a file in a folder. The current folder has no name.
pub fn path_in(folder: &[u8], name: &[u8]) -> Text
    ensures { Holds (path_in folder.now name.now) result }
{
    if folder.len() == 0 {
        return joined(folder, b"", name);
    }
    joined(folder, b"/", name)
}

// The path of the new file by which another is replaced, with X for each letter that the system chooses.
pub fn temporary_path(path: &[u8]) -> Text
    ensures { Holds (temporary_path path.now) result }
{
    joined(path, b".", b"XXXXXX")
}
