// Files of a folder that are numbered from 1, as card1.wcd, card2.wcd and so on: their names, how many can be opened, one of them read.
// What the system reads no contract can say.
//
// Helpers for other crates: tell_of and read_named, which ask nothing of their caller; name_of and count_in, whose callers prove what they
// require.
#![tactic(auto)]

ghost use Rattle.std.specs.Prelude.{◌≤◌, length};
ghost use Rattle.text.specs.Texts.{Holds};
ghost use Rattle.file_io.specs.Counts.{IsPrefixLen};
ghost use Rattle.numbered_files.specs.Names.{numbered_name, most_files};

use text::Text;

// The name of the file behind `before` others: a word, a number that counts from 1, an ending.
pub fn name_of(word: &[u8], before: usize, ending: &[u8]) -> Text
    requires { (before ≤ most_files) × (length word.now ≤ 8) × (length ending.now ≤ 8) }
    ensures { Holds (numbered_name word.now before ending.now) result }
{
    let begun = Text::empty().with_bytes(word);
    let counted = begun.with_number((before + 1) as u64);
    counted.with_bytes(ending)
}

// Says on standard error what is wrong with a file of a folder.
pub fn tell_of(rt: &HostRuntime, folder: &[u8], name: Text, fault: &[u8]) {
    file_io::tell_in(rt, folder, name.as_bytes(), fault);
}

// Whether a file of a folder can be opened.
fn opens(rt: &HostRuntime, folder: &[u8], name: Text) -> bool {
    let path = paths::path_in(folder, name.as_bytes());
    file_io::opened(rt, path.as_bytes()).is_ok()
}

// How many files of a folder can be opened, number 1 first, up to one that cannot; no more than `most` are tried.
pub fn count_in(rt: &HostRuntime, folder: &[u8], word: &[u8], ending: &[u8], most: usize) -> usize
    requires { (most ≤ most_files) × (length word.now ≤ 8) × (length ending.now ≤ 8) }
    ensures { result ≤ most }
{
    for k in 0..most {
        if !opens(rt, folder, name_of(word, k, ending)) {
            return k;
        }
    }
    most
}

// Reads a file of a folder: how many of its bytes are in the buffer.
pub fn read_named(rt: &HostRuntime, folder: &[u8], name: Text, buffer: &mut [u8]) -> usize
    ensures { IsPrefixLen result buffer.new }
{
    file_io::read_in(rt, folder, name.as_bytes(), buffer)
}
