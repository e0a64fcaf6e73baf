// Tables of cases for the test programs. A table is text: each line is a case, its name up to a colon, then its fields,
// each a word of a capital letter and what the field has.
#![tactic(auto)]

ghost use Rattle.std.specs.Prelude.{◌≡◌, ◌+◌, ◌≤◌, ◌<◌, min, length, drop};
ghost use Rattle.test_buffers.specs.Buffers.{Puts};
ghost use Rattle.test_tables.specs.Tables.{before, until, word, digits_after, field, fields};

use test_buffers::between;

// The first place from `at` on that has `mark`, or the end of the text.
pub fn find(text: &[u8], at: usize, mark: u8) -> usize
    requires { at ≤ length text.now }
    ensures value { result ≡ at + before mark (drop at text.now) }
    ensures lower_bound { (at ≤ result) × (result ≤ length text.now) }
{
    for i in at..text.len() {
        if text[i] == mark {
            return i;
        }
    }
    text.len()
}

// Where the line after the one at `at` starts.
pub fn next_line(text: &[u8], at: usize) -> usize
    requires { at < length text.now }
    ensures value { result ≡ min (length text.now) (at + before 10 (drop at text.now) + 1) }
    ensures lower_bound { (at < result) × (result ≤ length text.now) }
{
    let end = find(text, at, b'\n');
    if end < text.len() { end + 1 } else { end }
}

// The line that starts at `at`.
pub fn line(text: &[u8], at: usize) -> &[u8]
    requires { at ≤ length text.now }
    ensures { result.now ≡ until 10 (drop at text.now) }
{
    between(text, at, find(text, at, b'\n'))
}

// The name of a case: what stands before the first colon.
pub fn name(line: &[u8]) -> &[u8]
    ensures { result.now ≡ until 58 line.now }
{
    between(line, 0, find(line, 0, b':'))
}

// What stands behind the first place of a letter, up to a space or the end of the line: nothing where there is no such letter.
pub fn word(line: &[u8], letter: u8) -> &[u8]
    ensures { result.now ≡ word letter line.now }
{
    let at = find(line, 0, letter);
    if at < line.len() {
        return between(line, at + 1, find(line, at + 1, b' '));
    }
    between(line, at, at)
}

// A number in decimal digits.
fn number(digits: &[u8]) -> u64
    ensures { result ≡ digits_after 0 digits.now }
{
    let mut sum = 0;
    for digit in digits {
        sum = sum % 1000000000000 * 10 + test_buffers::wide(*digit) % 16;
    }
    sum
}

// The number behind a letter, or `other` where the line does not have the letter.
pub fn field(line: &[u8], letter: u8, other: u64) -> u64
    ensures { result ≡ field line.now letter other }
{
    let digits = word(line, letter);
    if digits.len() == 0 {
        return other;
    }
    number(digits)
}

// Puts fields, one for each letter, with so many bytes as the digit in `sizes` says. What the line does not have is taken from
// the line `others`.
pub fn put_fields(
    buffer: &mut [u8],
    at: usize,
    line: &[u8],
    letters: &[u8],
    sizes: &[u8],
    others: &[u8],
) -> usize
    ensures { Puts buffer.old at (fields line.now others.now letters.now sizes.now) buffer.new result }
{
    let mut next = at;
    for (i, letter) in letters.iter().enumerate() {
        let x = field(line, *letter, field(others, *letter, 0));
        let size = test_buffers::wide(test_buffers::byte_at(sizes, i)) % 16;
        next = test_buffers::put_number(buffer, next, x, size);
    }
    next
}
