// CSV text read byte by byte: what each byte says of the fields and lines, and what the bytes of a field say of a number.
//
// Helpers for other crates that ask nothing of their caller: read_byte, ending, Cell::empty, progress, separator, mark_size.
// Cell::with_byte has a requirement, which its callers prove.
#![tactic(auto)]

ghost use Rattle.std.specs.Prelude.{◌≡◌, ◌<◌};
ghost use Rattle.csv_bytes.specs.Tokens.{token_number, numbered, reading_number, start_step, plain_step, quoted_step, closing_step, return_step, step, ending, as_comma, better, known_after, best_after, chosen, separator, mark_size};
ghost use Rattle.csv_bytes.specs.Cells.{no_bytes, class_of, after_space, after_sign, after_figure, shape_after, more, magnitude_after, with_byte, is_negative, is_number, progress};

// What a byte says: that it is part of a field, that a field or a line ends, or nothing. What the end of the text says. And what is wrong: text
// after a closing quote, a quote that is not closed.
#[derive(Clone, Copy, Debug, PartialEq, Eq)]
pub enum Token {
    Byte(u8),
    Field,
    Line,
    End,
    Nothing,
    Stray,
    Open,
}

// Where a byte stands: at the start of a field, inside a plain one, inside quotes, after a quote inside quotes, after a carriage return.
#[derive(Clone, Copy)]
pub enum Mode {
    Start,
    Plain,
    Quoted,
    Closing,
    Return,
}

// What a byte says, and the mode of the next byte.
#[derive(Clone, Copy)]
pub struct Step {
    pub token: Token,
    pub mode: Mode,
}

// A byte of a plain field.
fn plain_byte(separator: u8, b: u8) -> Step
    ensures { numbered result ≡ plain_step separator b }
{
    if b == separator {
        return Step {
            token: Token::Field,
            mode: Mode::Start,
        };
    }
    if b == b'\n' {
        return Step {
            token: Token::Line,
            mode: Mode::Start,
        };
    }
    if b == b'\r' {
        return Step {
            token: Token::Line,
            mode: Mode::Return,
        };
    }
    Step {
        token: Token::Byte(b),
        mode: Mode::Plain,
    }
}

// The first byte of a field.
fn start_byte(separator: u8, b: u8) -> Step
    ensures { numbered result ≡ start_step separator b }
{
    if b == b'"' {
        return Step {
            token: Token::Nothing,
            mode: Mode::Quoted,
        };
    }
    plain_byte(separator, b)
}

// A byte inside quotes.
fn quoted_byte(b: u8) -> Step
    ensures { numbered result ≡ quoted_step b }
{
    if b == b'"' {
        return Step {
            token: Token::Nothing,
            mode: Mode::Closing,
        };
    }
    Step {
        token: Token::Byte(b),
        mode: Mode::Quoted,
    }
}

// A byte after a quote inside quotes.
fn closing_byte(separator: u8, b: u8) -> Step
    ensures { numbered result ≡ closing_step separator b }
{
    if b == b'"' {
        return Step {
            token: Token::Byte(b'"'),
            mode: Mode::Quoted,
        };
    }
    if b == separator {
        return Step {
            token: Token::Field,
            mode: Mode::Start,
        };
    }
    if b == b'\n' {
        return Step {
            token: Token::Line,
            mode: Mode::Start,
        };
    }
    if b == b'\r' {
        return Step {
            token: Token::Line,
            mode: Mode::Return,
        };
    }
    Step {
        token: Token::Stray,
        mode: Mode::Closing,
    }
}

// A byte after a carriage return.
fn return_byte(separator: u8, b: u8) -> Step
    ensures { numbered result ≡ return_step separator b }
{
    if b == b'\n' {
        return Step {
            token: Token::Nothing,
            mode: Mode::Start,
        };
    }
    start_byte(separator, b)
}

// What a byte says, after those before it.
pub fn read_byte(separator: u8, mode: Mode, b: u8) -> Step
    ensures { numbered result ≡ step separator mode b }
{
    match mode {
        Mode::Start => start_byte(separator, b),
        Mode::Plain => plain_byte(separator, b),
        Mode::Quoted => quoted_byte(b),
        Mode::Closing => closing_byte(separator, b),
        Mode::Return => return_byte(separator, b),
    }
}

// What the end of the text says.
pub fn ending(mode: Mode) -> Token
    ensures { token_number result ≡ ending mode }
{
    match mode {
        Mode::Start => Token::End,
        Mode::Plain => Token::End,
        Mode::Quoted => Token::Open,
        Mode::Closing => Token::End,
        Mode::Return => Token::End,
    }
}

// What a byte can be in a number.
#[derive(Clone, Copy)]
pub enum Class {
    Space,
    Sign,
    Figure,
    Text,
}

// What the bytes of a field say of a number so far: nothing but spaces, a sign, figures, spaces after figures, or no number.
#[derive(Clone, Copy)]
pub enum Shape {
    Blank,
    Signed,
    Figures,
    Ended,
    Other,
}

// The bytes of a field so far: how many, and the number that they say.
#[derive(Clone, Copy)]
pub struct Cell {
    pub size: u32,
    pub shape: Shape,
    pub negative: bool,
    pub magnitude: u32,
}

fn class_of(b: u8) -> Class
    ensures { result ≡ class_of b }
{
    if b == b' ' {
        return Class::Space;
    }
    if b == b'+' {
        return Class::Sign;
    }
    if b == b'-' {
        return Class::Sign;
    }
    if b < b'0' {
        return Class::Text;
    }
    if b'9' < b {
        return Class::Text;
    }
    Class::Figure
}

fn after_space(shape: Shape) -> Shape
    ensures { result ≡ after_space shape }
{
    match shape {
        Shape::Blank => Shape::Blank,
        Shape::Signed => Shape::Other,
        Shape::Figures => Shape::Ended,
        Shape::Ended => Shape::Ended,
        Shape::Other => Shape::Other,
    }
}

fn after_sign(shape: Shape) -> Shape
    ensures { result ≡ after_sign shape }
{
    match shape {
        Shape::Blank => Shape::Signed,
        Shape::Signed => Shape::Other,
        Shape::Figures => Shape::Other,
        Shape::Ended => Shape::Other,
        Shape::Other => Shape::Other,
    }
}

fn after_figure(shape: Shape) -> Shape
    ensures { result ≡ after_figure shape }
{
    match shape {
        Shape::Blank => Shape::Figures,
        Shape::Signed => Shape::Figures,
        Shape::Figures => Shape::Figures,
        Shape::Ended => Shape::Other,
        Shape::Other => Shape::Other,
    }
}

fn shape_after(shape: Shape, class: Class) -> Shape
    ensures { result ≡ shape_after shape class }
{
    match class {
        Class::Space => after_space(shape),
        Class::Sign => after_sign(shape),
        Class::Figure => after_figure(shape),
        Class::Text => Shape::Other,
    }
}

// A number with one figure more, at most the largest of its type.
fn more(magnitude: u32, b: u8) -> u32
    ensures { result ≡ more magnitude b }
{
    let next = 10 * magnitude as u64 + (b % 48) as u64;
    if 4294967295 < next {
        return 4294967295;
    }
    next as u32
}

fn magnitude_after(magnitude: u32, class: Class, b: u8) -> u32
    ensures { result ≡ magnitude_after magnitude class b }
{
    match class {
        Class::Space => magnitude,
        Class::Sign => magnitude,
        Class::Figure => more(magnitude, b),
        Class::Text => magnitude,
    }
}

fn is_negative(negative: bool, b: u8) -> bool
    ensures { result ≡ is_negative negative b }
{
    if negative {
        return true;
    }
    b == b'-'
}

impl Cell {
    // A field without bytes.
    pub fn empty() -> Cell
        ensures { result ≡ no_bytes }
    {
        Cell {
            size: 0,
            shape: Shape::Blank,
            negative: false,
            magnitude: 0,
        }
    }

    // The field with one byte more.
    pub fn with_byte(self, b: u8) -> Cell
        requires { self.size < 4294967295 }
        ensures { result ≡ with_byte self b }
    {
        let class = class_of(b);
        let before = self.shape;
        let shape = shape_after(before, class);
        let negative = is_negative(self.negative, b);
        let magnitude = magnitude_after(self.magnitude, class, b);
        Cell {
            size: self.size + 1,
            shape,
            negative,
            magnitude,
        }
    }

    // Whether the field is a whole number.
    pub fn is_number(self) -> bool
        ensures { result ≡ is_number self }
    {
        let shape = self.shape;
        match shape {
            Shape::Blank => false,
            Shape::Signed => false,
            Shape::Figures => true,
            Shape::Ended => true,
            Shape::Other => false,
        }
    }
}

// How many bytes of a word a field has begun with, where it had `n` before this byte; more than the word has where it is another.
pub fn progress(word: &[u8], n: usize, b: u8) -> usize
    ensures { result ≡ progress word.now n b }
{
    if word.len() <= n {
        return word.len() + 1;
    }
    if word[n] == b {
        return n + 1;
    }
    word.len() + 1
}

// While the separator is looked for, a semicolon and a tab end a field as a comma does.
fn as_comma(b: u8) -> u8
    ensures { result ≡ as_comma b }
{
    if b == b';' {
        return b',';
    }
    if b == b'\t' {
        return b',';
    }
    b
}

// The better of two separators: a comma, else a semicolon, else a tab; `best` is 0 where there is none so far.
fn better(best: u8, b: u8) -> u8
    ensures { result ≡ better best b }
{
    if best == b',' {
        return b',';
    }
    if b == b',' {
        return b',';
    }
    if best == b';' {
        return b';';
    }
    b
}

// Where the reading is: before the header, in it, behind it.
#[derive(Clone, Copy, Debug, PartialEq, Eq)]
enum Reading {
    Before,
    Inside,
    Behind,
}

// Where the reading is after a token.
fn known_after(known: Reading, token: Token) -> Reading
    ensures { reading_number result ≡ known_after (reading_number known) (token_number token) }
{
    match known {
        Reading::Before => match token {
            Token::Byte(_) | Token::Field => Reading::Inside,
            _ => Reading::Before,
        },
        Reading::Inside => match token {
            Token::Line => Reading::Behind,
            _ => Reading::Inside,
        },
        Reading::Behind => Reading::Behind,
    }
}

// The best separator after a token of the byte b.
fn best_after(best: u8, known: Reading, token: Token, b: u8) -> u8
    ensures { result ≡ best_after best (reading_number known) (token_number token) b }
{
    match known {
        Reading::Before | Reading::Inside => match token {
            Token::Field => better(best, b),
            _ => best,
        },
        Reading::Behind => best,
    }
}

// A comma where there is no separator.
fn chosen(best: u8) -> u8
    ensures { result ≡ chosen best }
{
    if best == 0 {
        return b',';
    }
    best
}

// The separator of a CSV: that of its header, the first line with bytes or with a separator.
pub fn separator(csv: &[u8]) -> u8
    ensures { result ≡ separator csv.now }
{
    let mut best: u8 = 0;
    let mut known = Reading::Before;
    let mut mode = Mode::Start;
    for i in mark_size(csv)..csv.len() {
        let b = csv[i];
        let step = read_byte(b',', mode, as_comma(b));
        let token = step.token;
        best = best_after(best, known, token, b);
        known = known_after(known, token);
        if known == Reading::Behind {
            return chosen(best);
        }
        mode = step.mode;
    }
    chosen(best)
}

// How many bytes a byte-order mark takes, 0 where there is none.
pub fn mark_size(csv: &[u8]) -> usize
    ensures { result ≡ mark_size csv.now }
{
    if csv.len() < 3 {
        return 0;
    }
    if csv[0] != 239 {
        return 0;
    }
    if csv[1] != 187 {
        return 0;
    }
    if csv[2] != 191 {
        return 0;
    }
    3
}
