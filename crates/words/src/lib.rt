// The lines of a text, the words of a line, and what they spell, for programs that read text.
#![tactic(auto)]

ghost use Rattle.std.specs.Prelude.{◌<◌, ◌≤◌, length, IfSome};
ghost use Rattle.std.specs.Iterator.{at_most};

// How many words of a line are told apart.
pub const MOST: usize = 10;

// The lines of a text, first to last, each without its line end.
#[derive(Clone, Copy)]
pub struct Lines<'a> {
    rest: &'a [u8],
}

impl<'a> Lines<'a> {
    pub fn of(text: &'a [u8]) -> Self {
        Lines { rest: text }
    }
}

impl<'a> Iterator for Lines<'a> {
    type Item = &'a [u8];

    ghost remaining = { λ s. at_most (length s.rest.now) };

    fn next(&mut self) -> Option<&'a [u8]> {
        let rest = self.rest;
        if rest.is_empty() {
            return None;
        }
        match rest.iter().position(|b| *b == b'\n') {
            Some(end) => {
                self.rest = &rest[end + 1..];
                Some(&rest[..end])
            }
            None => {
                self.rest = &[];
                Some(rest)
            }
        }
    }
}

// The words of a line, first to last: what stands between spaces, tabs and carriage returns.
#[derive(Clone, Copy)]
pub struct Words<'a> {
    rest: &'a [u8],
}

impl<'a> Words<'a> {
    pub fn of(line: &'a [u8]) -> Self {
        Words { rest: line }
    }
}

impl<'a> Iterator for Words<'a> {
    type Item = &'a [u8];

    ghost remaining = { λ s. at_most (length s.rest.now) };

    fn next(&mut self) -> Option<&'a [u8]> {
        let start = self.rest.iter().position(|b| !is_space(*b))?;
        let (_, found) = self.rest.split_at(start);
        let (_, after) = found.split_first()?;
        let more = after
            .iter()
            .position(|b| is_space(*b))
            .unwrap_or(after.len());
        let (word, rest) = found.split_at(1 + more);
        self.rest = rest;
        Some(word)
    }
}

// Whether a byte stands between words.
fn is_space(b: u8) -> bool {
    matches!(b, b' ' | b'\t' | b'\r')
}

// The first words of a line, no more than `MOST`.
#[derive(Clone, Copy)]
pub struct FirstWords<'a> {
    words: [&'a [u8]; MOST],
    count: usize,
    ghost within: { count ≤ 10 },
}

impl<'a> FirstWords<'a> {
    pub fn of(line: &'a [u8]) -> Self {
        let mut words = Words::of(line);
        FirstWords {
            words: std::array::from_fn(|_| words.next().unwrap_or_default()),
            count: Words::of(line).take(MOST).count(),
        }
    }

    pub fn as_slice(&self) -> &[&'a [u8]] {
        &self.words[..self.count]
    }
}

// The number that a word spells in decimal, where it fits 64 bits.
pub fn number(word: &[u8]) -> Option<usize> {
    if word.is_empty() {
        return None;
    }
    word.iter().try_fold(0usize, |value, c| {
        let digit = char::from(*c).to_digit(10)?;
        value.checked_mul(10)?.checked_add(digit as usize)
    })
}

// The byte that a word stands for: a number below 256, a direction by its letter, or another character for its own code.
pub fn byte(word: &[u8]) -> Option<u8> {
    if let Some(value) = number(word) {
        return u8::try_from(value).ok();
    }
    match word {
        b"S" => Some(1),
        b"N" => Some(2),
        b"E" => Some(3),
        b"W" => Some(4),
        [code] => Some(*code),
        _ => None,
    }
}

// The value of a hexadecimal digit in lower case.
fn hex_digit(c: u8) -> Option<u8>
    ensures { IfSome result (λ d. d < 16) }
{
    match c {
        b'0'..=b'9' => Some(c - b'0'),
        b'a'..=b'f' => Some(c - b'a' + 10),
        _ => None,
    }
}

// The byte that two hexadecimal digits spell.
pub fn hex_byte(word: &[u8]) -> Option<u8> {
    match word {
        [high, low] => Some(hex_digit(*high)? * 16 + hex_digit(*low)?),
        _ => None,
    }
}
