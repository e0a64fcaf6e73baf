// Text under construction, given back by value with its length: bytes, decimal figures, and lines of a word and numbers.
//
// Helpers for other crates: Text::as_bytes, which asks nothing of its caller; those whose callers prove that there is room: Text::empty, with_bytes, with_number, with_line, with_pair.
#![tactic(auto)]

ghost use Rattle.std.specs.Prelude.{◌≡◌, [], ◌+◌, ◌≤◌, length};
ghost use Rattle.text.specs.Decimal.{decimal};
ghost use Rattle.text.specs.Lines.{number_line, pair_line};
ghost use Rattle.text.specs.Texts.{text_limit, bytes_of, Holds, Adds, FiguresOf};

mod pairs;

// The bytes of a text: more than the longest listing has.
pub const MOST_BYTES: usize = 4096;

// Decimal figures at the end of a buffer, from `at`.
#[derive(Clone, Copy)]
pub struct Figures {
    pub bytes: [u8; 20],
    pub at: usize,
}

// The figures of `n`, written two at a time from the last.
fn figures_of(n: u64) -> Figures
    ensures { FiguresOf n result }
{
    let mut bytes = [0u8; 20];
    let mut rest = n;
    let mut at = 20;
    while 100 <= rest {
        let two = (rest % 100) as usize;
        rest /= 100;
        at -= 2;
        bytes[at] = pairs::tens(two);
        bytes[at + 1] = pairs::units(two);
    }
    let last = rest as usize;
    if last < 10 {
        at -= 1;
        bytes[at] = pairs::units(last);
        return Figures { bytes, at };
    }
    at -= 2;
    bytes[at] = pairs::tens(last);
    bytes[at + 1] = pairs::units(last);
    Figures { bytes, at }
}

// Text: the first `len` bytes, of which 4,096 hold the longest listing. A text that begins empty has 0 in every byte after them.
#[derive(Clone, Copy)]
pub struct Text {
    pub bytes: [u8; MOST_BYTES],
    pub len: usize,
}

impl Text {
    // No text yet.
    pub fn empty() -> Text
        ensures { Holds [] result }
    {
        Text {
            bytes: [0u8; MOST_BYTES],
            len: 0,
        }
    }

    // The bytes that it holds.
    pub fn as_bytes(&self) -> &[u8]
        ensures { result.now ≡ bytes_of self.now }
    {
        if MOST_BYTES < self.len {
            return &self.bytes;
        }
        &self.bytes[..self.len]
    }

    // The text followed by `s`.
    pub fn with_bytes(self, s: &[u8]) -> Text
        requires { self.len + length s.now ≤ text_limit }
        ensures { Adds self s.now result }
    {
        let start = self.len;
        let mut bytes = self.bytes;
        buffers::put_bytes(&mut bytes, start, s);
        Text {
            bytes,
            len: start + s.len(),
        }
    }

    // The text followed by the figures of `n`, of which there are at most 20.
    pub fn with_number(self, n: u64) -> Text
        requires { self.len + 20 ≤ text_limit }
        ensures adds { Adds self (decimal n) result }
        ensures len_bound { result.len ≤ self.len + 20 }
    {
        let f = figures_of(n);
        let at = f.at;
        let bytes = f.bytes;
        self.with_bytes(&bytes[at..])
    }

    // The text followed by a line of a word and a number.
    pub fn with_line(self, word: &[u8], a: u64) -> Text
        requires { self.len + length word.now + 21 ≤ text_limit }
        ensures adds { Adds self (number_line word.now a) result }
        ensures len_bound { result.len ≤ self.len + length word.now + 21 }
    {
        let begun = self.with_bytes(word);
        let numbered = begun.with_number(a);
        numbered.with_bytes(b"\n")
    }

    // The text followed by a line of a word and two numbers.
    pub fn with_pair(self, word: &[u8], a: u64, b: u64) -> Text
        requires { self.len + length word.now + 42 ≤ text_limit }
        ensures adds { Adds self (pair_line word.now a b) result }
        ensures len_bound { result.len ≤ self.len + length word.now + 42 }
    {
        let begun = self.with_bytes(word);
        let first = begun.with_number(a);
        let spaced = first.with_bytes(b" ");
        let second = spaced.with_number(b);
        second.with_bytes(b"\n")
    }
}
