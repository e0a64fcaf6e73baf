// What a program is asked for: the folder to work in, which is its last argument, or else the current folder, which has no name; and a number
// before it. What the arguments are the system decides; no contract can say it.
#![tactic(auto)]

ghost use Rattle.std.specs.Prelude.{◌≡◌, ◌≤◌, ◌<◌, length, IfSome};
ghost use Rattle.arguments.specs.Numbers.{is_figure, number_in};

use std::env::{Env, FillError};

// Writes bytes on standard error.
fn tell(rt: &HostRuntime, bytes: &[u8]) {
    let _ = rt.stderr().write_all(bytes);
}

// Says on standard error how a program is called; `word` names the number that it takes, and is empty where it takes none.
fn usage(rt: &HostRuntime, program: &[u8], word: &[u8]) {
    tell(rt, b"usage: ");
    tell(rt, program);
    if !word.is_empty() {
        tell(rt, b" ");
        tell(rt, word);
    }
    tell(rt, b" [FOLDER]\n");
}

// Whether the program has an argument of this number.
fn has(rt: &HostRuntime, i: usize) -> bool {
    let mut none = [0u8; 0];
    !matches!(rt.arg(i, &mut none), Err(FillError::NotPresent))
}

// Puts argument `i`, the last, into a buffer: its length, 0 where it is not there. None where another is behind it, or where it is empty,
// begins with a minus or is longer than the buffer.
fn folder_at(rt: &HostRuntime, i: usize, name: &mut [u8]) -> Option<usize>
    requires { i < 3 }
    ensures { IfSome result (λ len. len ≤ length name.new) }
{
    if has(rt, i + 1) {
        return None;
    }
    if !has(rt, i) {
        return Some(0);
    }
    let len = rt.arg(i, name).ok()?;
    if len == 0 {
        return None;
    }
    if name[0] == b'-' {
        return None;
    }
    Some(len)
}

// Puts the name of the folder into a buffer: its length. Where there are two arguments or more, or one that is empty, begins with a minus or
// is longer than the buffer, standard error has the usage, and no folder is known. Left free: whether one is known, the bytes of the name and
// those behind it.
pub fn folder(rt: &HostRuntime, program: &[u8], name: &mut [u8]) -> Option<usize>
    ensures { IfSome result (λ len. len ≤ length name.new) }
{
    let asked = folder_at(rt, 1, name);
    if asked.is_none() {
        usage(rt, program, b"");
    }
    asked
}

// ---- A number, and a folder

// Whether a byte is a figure.
fn is_figure(byte: u8) -> bool
    ensures { result ≡ is_figure byte }
{
    if byte < b'0' {
        return false;
    }
    byte <= b'9'
}

// The number that a text says in decimal figures: none where it is empty, has another byte, or says more than 32 bits hold.
fn number_in(text: &[u8]) -> Option<u32>
    ensures { result ≡ number_in text.now }
{
    if text.is_empty() {
        return None;
    }
    let mut value: u64 = 0;
    for &byte in text {
        if !is_figure(byte) {
            return None;
        }
        value = 10 * value + (byte - b'0') as u64;
        if 4294967295 < value {
            return None;
        }
    }
    Some(value as u32)
}

// A number, and how many bytes the folder's name has.
#[derive(Clone, Copy)]
pub struct Task {
    pub number: u32,
    pub len: usize,
}

// The number of the first argument, which has at most 10 bytes.
fn first_number(rt: &HostRuntime) -> Option<u32> {
    let mut figures = [0u8; 10];
    let n = rt.arg(1, &mut figures).ok()?;
    number_in(&figures[..n])
}

// What both arguments ask for: the folder's name is put into a buffer.
fn asked_of(rt: &HostRuntime, name: &mut [u8]) -> Option<Task>
    ensures { IfSome result (λ asked. asked.len ≤ length name.new) }
{
    let number = first_number(rt)?;
    let len = folder_at(rt, 2, name)?;
    Some(Task { number, len })
}

// The number that the first argument says; the name of the folder, which is the second, is put into a buffer, and is empty where there is no
// second. Where there is no argument or a third, where the first is no number of 32 bits in at most 10 decimal figures, or where the second is
// empty, begins with a minus or is longer than the buffer, standard error has the usage, in which `word` names the number, and nothing is
// known. Left free: whether a task is known, the number, the bytes of the name and those behind it.
pub fn number_and_folder(
    rt: &HostRuntime,
    program: &[u8],
    word: &[u8],
    name: &mut [u8],
) -> Option<Task>
    ensures { IfSome result (λ asked. asked.len ≤ length name.new) }
{
    let asked = asked_of(rt, name);
    if asked.is_none() {
        usage(rt, program, word);
    }
    asked
}

// ---- The work of a program

// Does the work of a program in the folder that the arguments ask for.
pub fn in_folder<F: FnOnce(&HostRuntime, &[u8])>(rt: &HostRuntime, program: &[u8], work: F)
    requires { F.IsAlwaysCallable work }
{
    let mut name = [0u8; 4095];
    if let Some(len) = folder(rt, program, &mut name) {
        work(rt, &name[..len]);
    }
}

// The same of a work that takes a number, which `word` names.
pub fn in_folder_with<F: FnOnce(&HostRuntime, &[u8], u32)>(
    rt: &HostRuntime,
    program: &[u8],
    word: &[u8],
    work: F,
)
    requires { F.IsAlwaysCallable work }
{
    let mut name = [0u8; 4095];
    if let Some(asked) = number_and_folder(rt, program, word, &mut name) {
        work(rt, &name[..asked.len], asked.number);
    }
}
