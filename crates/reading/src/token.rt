// The tokens of a line: bytes, words and numbers, with spaces between them.
ghost use Rattle.std.specs.Prelude.{◌≡◌, ℕ, ◌+◌, ◌<◌, ◌≤◌, ◌↔◌, IsTrue, IsOk, IfOk, IfErr, length, drop, take, slice_get, slice_index};

use std::error::Error;
use std::fmt;

// The place of the token that cannot be read.
#[derive(Clone, Copy, Debug, PartialEq, Eq)]
pub struct Unreadable(pub usize);

// Columns count from 1.
impl fmt::Display for Unreadable {
    fn fmt<W: fmt::Write>(&self, f: &mut fmt::Formatter<W>) -> fmt::Result {
        let column = self.0.saturating_add(1);
        write!(f, "cannot read the request at column {column}")
    }
}

impl Error for Unreadable {}

// Whether two slices have the same bytes.
pub fn same(left: &[u8], right: &[u8]) -> bool
    ensures { IsTrue result ↔ left.now ≡ right.now }
{
    left == right
}

// How many spaces the bytes start with.
fn count_spaces(bytes: &[u8]) -> usize
    ensures within { result ≤ length bytes.now }
    ensures spaces { (k : ℕ) → k < result → slice_index bytes.now k ≡ 32 }
{
    bytes
        .iter()
        .position(|byte| *byte != b' ')
        .unwrap_or(bytes.len())
}

// How many digits the bytes start with.
pub fn count_digits(bytes: &[u8]) -> usize
    ensures { result ≤ length bytes.now }
{
    bytes
        .iter()
        .position(|byte| !byte.is_ascii_digit())
        .unwrap_or(bytes.len())
}

// The value of digits, alone or behind a minus, where there are any and it is from -2^63 to 2^63 - 1. It is reckoned below
// zero, which has a value more. The last four bits of a digit's byte are its value.
fn value_of(number: &[u8]) -> Option<i64> {
    let (is_negative, digits) = match number {
        [b'-', digits @ ..] => (true, digits),
        digits => (false, digits),
    };
    if digits.is_empty() {
        return None;
    }
    let mut value: i64 = 0;
    for digit in digits {
        value = value.checked_mul(10)?.checked_sub(i64::from(*digit % 16))?;
    }
    if is_negative {
        Some(value)
    } else {
        value.checked_neg()
    }
}

// How many letters the bytes start with.
fn count_letters(bytes: &[u8]) -> usize {
    bytes
        .iter()
        .position(|byte| !byte.is_ascii_alphabetic())
        .unwrap_or(bytes.len())
}

// How many letters and hyphens the bytes start with.
fn count_hyphenated(bytes: &[u8]) -> usize {
    bytes
        .iter()
        .position(|byte| !byte.is_ascii_alphabetic() && *byte != b'-')
        .unwrap_or(bytes.len())
}

// A line and how far it is read: up to the start of its next token, or to its end.
#[derive(Clone, Copy)]
pub struct Line<'a> {
    pub bytes: &'a [u8],
    pub at: usize,
    ghost within: { at ≤ length bytes.now },
}

impl<'a> Line<'a> {
    // A line of which nothing is read.
    pub fn new(bytes: &'a [u8]) -> Line<'a>
        ensures { result.bytes.now ≡ bytes.now }
    {
        let mut line = Line { bytes, at: 0 };
        line.take(0);
        line
    }

    // How many bytes the whole line has. No more pieces than that can be read from it, since each has a byte at least.
    pub fn length(&self) -> usize
        ensures { result ≡ length self.now.bytes.now }
    {
        self.bytes.len()
    }

    // Where the next token starts.
    pub fn place(&self) -> usize
        ensures { result ≡ self.now.at }
    {
        self.at
    }

    // The next token as one that cannot be read.
    pub fn unreadable(&self) -> Unreadable
        ensures { result.0 ≡ self.now.at }
    {
        Unreadable(self.at)
    }

    // What is not read yet.
    pub fn rest(&self) -> &'a [u8]
        ensures { result.now ≡ drop self.now.at self.now.bytes.now }
    {
        &self.bytes[self.at..]
    }

    // Reads a token of as many bytes, or as there are, and the spaces behind it.
    pub fn take(&mut self, count: usize) -> &'a [u8]
        ensures part { result.now ≡ take count (drop self.old.at self.old.bytes.now) }
        ensures kept { self.new.bytes.now ≡ self.old.bytes.now }
        ensures forward { self.old.at + length result.now ≤ self.new.at }
        ensures spaces { (k : ℕ) → self.old.at + length result.now + k < self.new.at → slice_index (drop (self.old.at + length result.now) self.old.bytes.now) k ≡ 32 }
    {
        let start = self.at;
        let end = start + count.min(self.bytes.len() - start);
        self.at = end + count_spaces(&self.bytes[end..]);
        &self.bytes[start..end]
    }

    // Whether the next token is that byte.
    pub fn is_next(&self, byte: u8) -> bool
        ensures { IsTrue result ↔ (slice_get self.now.bytes.now self.now.at ≡ Some byte) }
    {
        self.rest().first() == Some(&byte)
    }

    // Whether the next token starts as a number does.
    pub fn is_number_next(&self) -> bool {
        matches!(self.rest(), [b'-' | b'0'..=b'9', ..])
    }

    // Reads the next token if it is that byte, and answers whether it is.
    pub fn accept(&mut self, byte: u8) -> bool
        ensures answer { IsTrue result ↔ (slice_get self.old.bytes.now self.old.at ≡ Some byte) }
        ensures kept { self.new.bytes.now ≡ self.old.bytes.now }
        ensures forward { self.old.at ≤ self.new.at }
        ensures moves { IsTrue result → self.old.at < self.new.at }
        ensures stays { ¬ IsTrue result → self.new.at ≡ self.old.at }
    {
        let is_next = self.is_next(byte);
        if is_next {
            self.take(1);
        }
        is_next
    }

    // Reads the next token, which is that byte.
    pub fn expect(&mut self, byte: u8) -> Result<(), Unreadable>
        ensures ok { IsOk result ↔ (slice_get self.old.bytes.now self.old.at ≡ Some byte) }
        ensures kept { self.new.bytes.now ≡ self.old.bytes.now }
        ensures forward { self.old.at ≤ self.new.at }
        ensures err { IfErr result (λ e. (e.0 ≡ self.old.at) × (self.new.at ≡ self.old.at)) }
    {
        if self.accept(byte) {
            Ok(())
        } else {
            Err(self.unreadable())
        }
    }

    // Reads the letters at the next token.
    pub fn word(&mut self) -> &'a [u8]
        ensures part { result.now ≡ take (length result.now) (drop self.old.at self.old.bytes.now) }
        ensures kept { self.new.bytes.now ≡ self.old.bytes.now }
        ensures forward { self.old.at + length result.now ≤ self.new.at }
    {
        self.take(count_letters(self.rest()))
    }

    // Reads the letters and hyphens at the next token.
    pub fn hyphenated(&mut self) -> &'a [u8]
        ensures part { result.now ≡ take (length result.now) (drop self.old.at self.old.bytes.now) }
        ensures kept { self.new.bytes.now ≡ self.old.bytes.now }
        ensures forward { self.old.at + length result.now ≤ self.new.at }
    {
        self.take(count_hyphenated(self.rest()))
    }

    // Whether the next token is that word.
    pub fn is_word_next(&self, word: &[u8]) -> bool {
        let mut ahead = *self;
        same(ahead.word(), word)
    }

    // Reads the next token, which is that word.
    pub fn expect_word(&mut self, word: &[u8]) -> Result<(), Unreadable>
        ensures kept { self.new.bytes.now ≡ self.old.bytes.now }
        ensures forward { self.old.at ≤ self.new.at }
        ensures err { IfErr result (λ e. e.0 ≡ self.old.at) }
    {
        let at = self.unreadable();
        if same(self.word(), word) {
            Ok(())
        } else {
            Err(at)
        }
    }

    // Reads a number from -2^63 to 2^63 - 1.
    pub fn number(&mut self) -> Result<i64, Unreadable>
        ensures kept { self.new.bytes.now ≡ self.old.bytes.now }
        ensures forward { self.old.at ≤ self.new.at }
        ensures err { IfErr result (λ e. e.0 ≡ self.old.at) }
    {
        let at = self.unreadable();
        let count = match self.rest() {
            [b'-', digits @ ..] => 1 + count_digits(digits),
            digits => count_digits(digits),
        };
        value_of(self.take(count)).ok_or(at)
    }

    // Reads a number that has no sign.
    pub fn digits(&mut self) -> Result<i64, Unreadable>
        ensures kept { self.new.bytes.now ≡ self.old.bytes.now }
        ensures forward { self.old.at ≤ self.new.at }
        ensures err { IfErr result (λ e. e.0 ≡ self.old.at) }
    {
        if self.is_next(b'-') {
            return Err(self.unreadable());
        }
        self.number()
    }

    // Reads an unsigned number. A negative one is handed on as the largest.
    pub fn unsigned(&mut self) -> Result<u64, Unreadable>
        ensures kept { self.new.bytes.now ≡ self.old.bytes.now }
        ensures forward { self.old.at ≤ self.new.at }
        ensures err { IfErr result (λ e. e.0 ≡ self.old.at) }
    {
        let number = self.number()?;
        Ok(u64::try_from(number).unwrap_or(u64::MAX))
    }

    // Reads a number from 0 to most; any other is unreadable.
    pub fn bounded(&mut self, most: u64) -> Result<u64, Unreadable>
        ensures kept { self.new.bytes.now ≡ self.old.bytes.now }
        ensures forward { self.old.at ≤ self.new.at }
        ensures ok { IfOk result (λ number. number ≤ most) }
        ensures err { IfErr result (λ e. e.0 ≡ self.old.at) }
    {
        let at = self.unreadable();
        let number = self.unsigned()?;
        if number <= most { Ok(number) } else { Err(at) }
    }

    // Reads a number that a place of a buffer may hold; any other is unreadable.
    pub fn value(&mut self) -> Result<u32, Unreadable>
        ensures kept { self.new.bytes.now ≡ self.old.bytes.now }
        ensures forward { self.old.at ≤ self.new.at }
        ensures err { IfErr result (λ e. e.0 ≡ self.old.at) }
    {
        let at = self.unreadable();
        let number = self.unsigned()?;
        u32::try_from(number).ok().ok_or(at)
    }

    // Whether the request goes on.
    pub fn has_more(&self) -> bool
        ensures { IsTrue result ↔ (self.now.at < length self.now.bytes.now) }
    {
        !self.rest().is_empty()
    }

    // The end of the request: any further token is unreadable.
    pub fn finish(&self) -> Result<(), Unreadable>
        ensures ok { IsOk result ↔ (self.now.at ≡ length self.now.bytes.now) }
        ensures err { IfErr result (λ e. e.0 ≡ self.now.at) }
    {
        if self.has_more() {
            Err(self.unreadable())
        } else {
            Ok(())
        }
    }
}
