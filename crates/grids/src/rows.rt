// The rows of a text, line by line.
ghost use Rattle.std.specs.Prelude.{◌≡◌, ◌+◌, ◌≤◌, length, take, drop};
ghost use Rattle.grids.specs.Parts.{line_length, taken};
ghost use Rattle.grids.specs.Reading.{blank_letter, trim, lines_of, no_rows, take_row, take_line, take_lines};

use crate::wrong::Wrong;

// The rows so far: their characters by position, a space where a row has none; their lengths and the lines that they stand on; how many
// there are; and the first blank line after them.
#[derive(Clone, Copy)]
pub struct Rows {
    pub cells: [u8; 1024],
    pub lengths: [usize; 32],
    pub lines: [usize; 32],
    pub count: usize,
    pub blank: Option<usize>,
}

// The inner parts; some have a `requires`.

// How many characters come before the first line feed.
fn line_end(s: &[u8]) -> usize
    ensures value { result ≡ line_length s.now }
    ensures within { result ≤ length s.now }
{
    s.iter().position(|&b| b == b'\n').unwrap_or(s.len())
}

// The first line of a text, and what follows its line feed.
fn cut_line(s: &[u8]) -> (&[u8], &[u8])
    ensures line { result.0.now ≡ take (line_length s.now) s.now }
    ensures after { result.1.now ≡ drop (line_length s.now + 1) s.now }
{
    let (line, rest) = s.split_at(line_end(s));
    match rest.split_first() {
        Some((_, after)) => (line, after),
        None => (line, rest),
    }
}

// Whether a character is one that does not count at the end of a line.
fn is_blank(b: u8) -> bool
    ensures { result ≡ blank_letter b }
{
    b == b' ' || b == b'\t' || b == b'\r'
}

// A line without the spaces, tabs and carriage returns at its end.
fn trimmed(line: &[u8]) -> &[u8]
    ensures { result.now ≡ trim line.now }
{
    let mut row = line;
    while let Some((&last, before)) = row.split_last() {
        if !is_blank(last) {
            return row;
        }
        row = before;
    }
    row
}

impl Rows {
    pub fn new() -> Rows
        ensures { result ≡ no_rows }
    {
        Rows {
            cells: [b' '; 1024],
            lengths: [0; 32],
            lines: [0; 32],
            count: 0,
            blank: None,
        }
    }

    // Takes up a row.
    #[tactic(auto, unfolding(crate::specs::Reading::take_row))]
    fn take_row(&mut self, line: usize, row: &[u8]) -> Result<(), Wrong>
        ensures { taken result self.new ≡ take_row line row.now self.old }
    {
        let count = self.count;
        let length = row.len();
        if let Some(blank) = self.blank {
            return Err(Wrong::Blank(blank));
        }
        if 32 <= count {
            return Err(Wrong::Many(line));
        }
        if 32 < length {
            return Err(Wrong::Wide { line, length });
        }
        self.cells[32 * count..32 * count + length].copy_from_slice(row);
        self.lengths[count] = length;
        self.lines[count] = line;
        self.count = count + 1;
        Ok(())
    }

    // Takes up a line whose end is trimmed: a blank line, a comment or a row.
    #[tactic(auto, unfolding(crate::specs::Reading::take_line))]
    fn take_line(&mut self, line: usize, text: &[u8]) -> Result<(), Wrong>
        ensures { taken result self.new ≡ take_line line text.now self.old }
    {
        match text.first() {
            None => {
                if self.count != 0 && self.blank.is_none() {
                    self.blank = Some(line);
                }
                Ok(())
            }
            Some(b'#') => Ok(()),
            Some(_) => self.take_row(line, text),
        }
    }

    // Takes up every line.
    pub fn take_lines(&mut self, s: &[u8]) -> Result<(), Wrong>
        ensures { taken result self.new ≡ take_lines 0 (lines_of s.now) self.old }
    {
        let mut rest = s;
        let mut line = 0;
        while !rest.is_empty() {
            let (text, after) = cut_line(rest);
            line += 1;
            self.take_line(line, trimmed(text))?;
            rest = after;
        }
        Ok(())
    }
}
