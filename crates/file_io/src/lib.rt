// What the programs share: files read and replaced whole, listings printed, faults told on standard error.
// Each function is safe and ends; what the system reads and writes no contract can say.
#![tactic(auto)]

ghost use Rattle.std.specs.Prelude.{◌≡◌, ◌≤◌, take, IfSome};
ghost use Rattle.file_io.specs.Counts.{IsPrefixLen};

use std::fs::{File, OpenOptions, Permissions};
use std::io::{ErrorKind, Read, Write};
use std::os::unix::fs::{OpenOptionsExt, PermissionsExt};
use std::random::RandomSource;
use std::str::from_utf8;
use std::{fs, io};
use text::Text;

// Writes a file's name and what is wrong with it on standard error.
pub fn tell(rt: &HostRuntime, path: &[u8], fault: &[u8]) {
    let _ = rt.stderr().write_all(path);
    let _ = rt.stderr().write_all(fault);
}

// The first `n` bytes, or all where there are fewer.
pub fn first_bytes(bytes: &[u8], n: usize) -> &[u8]
    ensures { result.now ≡ take n bytes.now }
{
    if bytes.len() < n {
        return bytes;
    }
    &bytes[..n]
}

// Whether a file that was read from has no more bytes: false where there are more or a read fails.
fn at_end(file: &mut File) -> bool {
    let mut more = [0u8; 1];
    matches!(file.read(&mut more), Ok(0))
}

// Reads until the buffer is full, the file ends or a read fails: how many bytes are at the start of the buffer.
fn read_full(file: &mut File, buffer: &mut [u8]) -> usize
    ensures { IsPrefixLen result buffer.new }
{
    let mut done = 0;
    while done < buffer.len() {
        let n = file.read(&mut buffer[done..]).unwrap_or(0);
        if n == 0 {
            break;
        }
        done += n;
    }
    done
}

// Opens a file to be read. The library opens paths of UTF-8 alone: any other cannot be opened.
pub fn opened(rt: &HostRuntime, path: &[u8]) -> io::Result<File> {
    match from_utf8(path) {
        Ok(text) => File::open(rt, text),
        Err(_) => Err(io::Error::from(ErrorKind::InvalidInput)),
    }
}

// Says on standard error that a file was not opened, by what the system then answers.
fn tell_unopened(rt: &HostRuntime, path: &[u8], error: io::Error) {
    if error.kind() == ErrorKind::NotFound {
        tell(rt, path, b": not found in this folder\n");
    } else {
        tell(rt, path, b": could not be opened\n");
    }
}

// Reads an open file into a buffer and closes it: how many of its bytes are in the buffer, none where its reading fails on the way. One with
// more bytes than the buffer fills it. Left free: which bytes are read, those of the buffer behind the count, and all of them after a read
// that failed.
fn content_at(mut file: File, buffer: &mut [u8]) -> Option<usize>
    ensures { IfSome result (λ n. IsPrefixLen n buffer.new) }
{
    let n = read_full(&mut file, buffer);
    if n < buffer.len() && !at_end(&mut file) {
        return None;
    }
    Some(n)
}

// Reads a file into a buffer. Where it cannot be opened, or its reading fails on the way, there is none, and standard error says so.
pub fn content_of(rt: &HostRuntime, path: &[u8], buffer: &mut [u8]) -> Option<usize>
    ensures { IfSome result (λ n. IsPrefixLen n buffer.new) }
{
    match opened(rt, path) {
        Ok(file) => {
            let content = content_at(file, buffer);
            if content.is_none() {
                tell(rt, path, b": could not be read whole\n");
            }
            content
        }
        Err(error) => {
            tell_unopened(rt, path, error);
            None
        }
    }
}

// The same, for a caller to whom a file that is not there is an empty one: how many of its bytes are in the buffer.
pub fn read_file(rt: &HostRuntime, path: &[u8], buffer: &mut [u8]) -> usize
    ensures { IsPrefixLen result buffer.new }
{
    content_of(rt, path, buffer).unwrap_or(0)
}

// Both of a file in a folder. The current folder has no name.
pub fn content_in(rt: &HostRuntime, folder: &[u8], name: &[u8], buffer: &mut [u8]) -> Option<usize>
    ensures { IfSome result (λ n. IsPrefixLen n buffer.new) }
{
    let path = paths::path_in(folder, name);
    content_of(rt, path.as_bytes(), buffer)
}

pub fn read_in(rt: &HostRuntime, folder: &[u8], name: &[u8], buffer: &mut [u8]) -> usize
    ensures { IsPrefixLen result buffer.new }
{
    content_in(rt, folder, name, buffer).unwrap_or(0)
}

// The same of a file that need not be there: standard error says nothing.
pub fn found_in(rt: &HostRuntime, folder: &[u8], name: &[u8], buffer: &mut [u8]) -> Option<usize>
    ensures { IfSome result (λ n. IsPrefixLen n buffer.new) }
{
    let path = paths::path_in(folder, name);
    let file = opened(rt, path.as_bytes()).ok()?;
    content_at(file, buffer)
}

// Puts letters that the system draws in the place of these bytes, of which there are at most six.
fn put_letters(rt: &HostRuntime, places: &mut [u8]) {
    let mut drawn = [0u8; 6];
    let _ = rt.fill_bytes(&mut drawn);
    for (place, n) in places.iter_mut().zip(drawn.iter()) {
        *place = b'a' + *n % 26;
    }
}

// Makes a file that only its owner reads, under a name that none has.
fn new_file(rt: &HostRuntime, path: &[u8]) -> io::Result<File> {
    match from_utf8(path) {
        Ok(text) => OpenOptions::new()
            .read(true)
            .write(true)
            .create_new(true)
            .mode(0o600)
            .open(rt, text),
        Err(_) => Err(io::Error::from(ErrorKind::InvalidInput)),
    }
}

// How many names are tried for a new file.
const MOST_TRIES: usize = 238328;

// Makes a new file, which `temporary` names but for its last six letters, and puts them there.
fn create_temporary(rt: &HostRuntime, temporary: &mut [u8]) -> io::Result<File> {
    if temporary.len() < 6 {
        return Err(io::Error::from(ErrorKind::InvalidInput));
    }
    let start = temporary.len() - 6;
    for _ in 0..MOST_TRIES {
        put_letters(rt, &mut temporary[start..]);
        match new_file(rt, temporary) {
            Ok(file) => return Ok(file),
            Err(error) => {
                if error.kind() != ErrorKind::AlreadyExists {
                    return Err(error);
                }
            }
        }
    }
    Err(io::Error::from(ErrorKind::AlreadyExists))
}

// Writes a new file whole, lets everybody read it, and closes it. Whether all of that was done but for the closing, whose fault is not told.
fn write_whole(mut file: File, content: &[u8]) -> bool {
    let written = file.write_all(content).is_ok();
    let readable = file.set_permissions(Permissions::from_mode(0o644)).is_ok();
    let kept = file.sync_all().is_ok();
    written && readable && kept
}

// Gives a file another name, in the place of a file that has it. Whether it did.
fn rename(rt: &HostRuntime, from: &[u8], to: &[u8]) -> bool {
    match (from_utf8(from), from_utf8(to)) {
        (Ok(old), Ok(new)) => fs::rename(rt, old, new).is_ok(),
        _ => false,
    }
}

// Removes a file. What fails there is not told.
fn remove(rt: &HostRuntime, path: &[u8]) {
    if let Ok(text) = from_utf8(path) {
        let _ = fs::remove_file(rt, text);
    }
}

// Puts a file in the place of `path` by way of a new one, which `temporary` names but for its last six letters.
fn replace_by(rt: &HostRuntime, path: &[u8], temporary: &mut [u8], content: &[u8]) -> bool {
    let Ok(file) = create_temporary(rt, temporary) else {
        return false;
    };
    if write_whole(file, content) && rename(rt, temporary, path) {
        return true;
    }
    remove(rt, temporary);
    false
}

// Puts a file of this content in the place of `path`, and answers whether it did. It is written under another name in the same
// folder and then renamed, so that on a fault an older file stays as it was.
pub fn replace_file(rt: &HostRuntime, path: &[u8], content: &[u8]) -> bool {
    let temporary = paths::temporary_path(path);
    let mut bytes = temporary.bytes;
    let len = temporary.len;
    replace_by(rt, path, &mut bytes[..len], content)
}

// The same, and standard error says where the file could not be put there.
pub fn replace_or_tell(rt: &HostRuntime, path: &[u8], content: &[u8]) -> bool {
    if replace_file(rt, path, content) {
        return true;
    }
    tell(rt, path, b": could not be written\n");
    false
}

// The same of a file in a folder.
pub fn replace_in(rt: &HostRuntime, folder: &[u8], name: &[u8], content: &[u8]) -> bool {
    let path = paths::path_in(folder, name);
    replace_or_tell(rt, path.as_bytes(), content)
}

// Does the work of a program with fleet.wbk and sheet.wsh of a folder. Of each one byte more is read than it may have, so that a longer file is
// refused and not cut.
pub fn with_files<F: FnOnce(&[u8], &[u8])>(rt: &HostRuntime, folder: &[u8], work: F)
    requires { F.IsAlwaysCallable work }
{
    let mut book = [0u8; 40001];
    let mut sheet = [0u8; 40001];
    let n = read_in(rt, folder, b"fleet.wbk", &mut book);
    let m = read_in(rt, folder, b"sheet.wsh", &mut sheet);
    work(&book[..n], &sheet[..m]);
}

// Says on standard error what is wrong with a file of a folder.
pub fn tell_in(rt: &HostRuntime, folder: &[u8], name: &[u8], fault: &[u8]) {
    let path = paths::path_in(folder, name);
    tell(rt, path.as_bytes(), fault);
}

// Says there that a file in a folder is as it was.
pub fn tell_kept(rt: &HostRuntime, folder: &[u8], name: &[u8]) {
    tell_in(rt, folder, name, b" is as it was\n");
}

// Replaces a file in a folder by the first bytes of a buffer, as many as the work of a program wrote there. Where it is refused, there is no
// such number, nothing is put there, and standard error says that an older file is as it was. Whether there is a listing to print.
pub fn replace_or_leave(
    rt: &HostRuntime,
    folder: &[u8],
    name: &[u8],
    buffer: &[u8],
    written: Option<usize>,
) -> bool {
    match written {
        Some(len) => replace_in(rt, folder, name, first_bytes(buffer, len)),
        None => {
            tell_kept(rt, folder, name);
            true
        }
    }
}

// Prints a text. Where standard output does not take all of it, standard error says so.
pub fn print(rt: &HostRuntime, t: Text) {
    if rt.write_all(t.as_bytes()).is_err() {
        tell(rt, b"standard output", b": could not be written whole\n");
    }
}

// Writes a text on standard error.
pub fn tell_text(rt: &HostRuntime, t: Text) {
    tell(rt, t.as_bytes(), b"");
}
