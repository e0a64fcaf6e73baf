// Files of a folder read, replaced and read again: one that is missing, empty, as long as a file may be or longer, a folder in
// the place of a file, and one that cannot be written. The expected output is made by tests/expected/test_folder.py.
#![tactic(auto)]

use std::fs;

// Prints whether something was done.
fn done(rt: &HostRuntime, word: &[u8], yes: bool) {
    test_printing::line(rt, word, if yes { 1 } else { 0 });
}

// Reads a file and prints how many of its bytes there are, at most 40,001, and a sum over them.
fn read(rt: &HostRuntime, name: &[u8]) {
    let mut buffer = [0u8; 40001];
    let n = file_io::read_file(rt, name, &mut buffer);
    test_printing::line(rt, b"bytes", n as u64);
    test_printing::line(rt, b"sum", test_buffers::checksum(&buffer[..n]));
}

// The same, with the file's name.
fn named(rt: &HostRuntime, name: &[u8]) {
    test_printing::title(rt, name);
    read(rt, name);
}

// Puts a file in the place of another, prints whether that was done, and reads it.
fn replace(rt: &HostRuntime, name: &[u8], content: &[u8]) {
    done(rt, b"replaced", file_io::replace_file(rt, name, content));
    read(rt, name);
}

// The same, with the file's name.
fn replaced(rt: &HostRuntime, name: &[u8], content: &[u8]) {
    test_printing::title(rt, name);
    replace(rt, name, content);
}

// A file of the first `length` bytes of 40,002.
fn long(rt: &HostRuntime, length: usize) {
    let bytes = [120u8; 40002];
    replaced(rt, b"long", file_io::first_bytes(&bytes, length));
}

// A file whose path has 4,095 bytes, so that no longer one can name another file beside it. Several slashes count as one.
fn long_path(rt: &HostRuntime) {
    let mut path = [47u8; 4095];
    test_buffers::put_bytes(&mut path, 0, b"folder");
    test_buffers::put_bytes(&mut path, 4089, b"inside");
    test_printing::title(rt, b"4,095 bytes of path");
    replace(rt, &path, b"not written");
}

// In a folder of their own, which is removed only if it is empty: replaced files leave no other file behind.
fn no_other_file(rt: &HostRuntime) {
    let _ = fs::create_dir(rt, "new");
    replaced(rt, b"new/card", b"first");
    replaced(rt, b"new/card", b"second");
    let _ = fs::remove_file(rt, "new/card");
    done(rt, b"empty", fs::remove_dir(rt, "new").is_ok());
}

// The same where a folder stands in the file's place.
fn no_other_file_on_a_fault(rt: &HostRuntime) {
    let _ = fs::create_dir(rt, "new");
    let _ = fs::create_dir(rt, "new/card");
    replaced(rt, b"new/card", b"not a folder");
    let _ = fs::remove_dir(rt, "new/card");
    done(rt, b"empty", fs::remove_dir(rt, "new").is_ok());
}

fn main(rt: HostRuntime) {
    named(&rt, b"none");
    named(&rt, b"short");
    named(&rt, b"folder");
    replaced(&rt, b"card", b"first");
    replaced(&rt, b"card", b"second and longer");
    replaced(&rt, b"card", b"");
    replaced(&rt, b"card", b"last");
    long(&rt, 40000);
    long(&rt, 40001);
    long(&rt, 40002);
    replaced(&rt, b"folder", b"not a folder");
    replaced(&rt, b"none/card", b"not written");
    long_path(&rt);
    named(&rt, b"folder/inside");
    no_other_file(&rt);
    no_other_file_on_a_fault(&rt);
}
