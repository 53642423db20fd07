// What is wrong with a text, and how it is told.
use std::error::Error;
use std::fmt;

// Lines and columns count from 1.
#[derive(Clone, Copy, Debug, PartialEq, Eq, Hash)]
pub enum Wrong {
    // No row.
    Empty,
    // Fewer than three rows: how many.
    Few(usize),
    // A row after the 32nd: its line.
    Many(usize),
    // A blank line between rows: its line.
    Blank(usize),
    // A row of more than 32 characters.
    Wide {
        line: usize,
        length: usize,
    },
    // The second row has fewer than three characters.
    Narrow {
        line: usize,
        length: usize,
    },
    // A row with inner processors has another length than the second row, whose line and length follow.
    Length {
        line: usize,
        length: usize,
        second: usize,
        width: usize,
    },
    // The first or last row has another number of spares than it should: the column for its last spare, and the second row's line.
    Spares {
        line: usize,
        column: usize,
        second: usize,
    },
    // A character other than a space or a plus at a corner.
    Corner(Character),
    // A processor that is neither healthy nor faulty.
    Mark(Character),
    // A spare marked as dead.
    Dead(Character),
}

// A character of a text.
#[derive(Clone, Copy, Debug, PartialEq, Eq, Hash)]
pub struct Character {
    pub line: usize,
    pub column: usize,
    pub byte: u8,
}

// Its place and itself, as where it can be printed, else its number.
impl fmt::Display for Character {
    fn fmt<W: fmt::Write>(&self, f: &mut fmt::Formatter<W>) -> fmt::Result {
        let Character { line, column, byte } = *self;
        write!(f, "line {line}, column {column}: ")?;
        if byte < 32 || 126 < byte {
            write!(f, "byte {byte}")
        } else {
            write!(f, "'{}'", char::from(byte))
        }
    }
}

// Whether a letter says that a processor is faulty or dead.
fn is_fault_letter(b: u8) -> bool {
    matches!(b, b'X' | b'x' | b'D' | b'd')
}

impl fmt::Display for Wrong {
    fn fmt<W: fmt::Write>(&self, f: &mut fmt::Formatter<W>) -> fmt::Result {
        match *self {
            Wrong::Empty => write!(f, "the text is empty: it has no row"),
            Wrong::Few(rows) => write!(
                f,
                "too few rows: {rows}, but a text grid has at least 3, the first and the last of them spares"
            ),
            Wrong::Many(line) => write!(
                f,
                "line {line}: too many rows: an array has at most 30 rows between its spares"
            ),
            Wrong::Blank(line) => write!(f, "line {line}: a blank line between rows"),
            Wrong::Wide { line, length } => write!(
                f,
                "line {line}: {length} characters, but an array has at most 30 columns between its spares"
            ),
            Wrong::Narrow { line, length } => write!(
                f,
                "line {line}: {length} characters, but an array has at least 1 column between its spares"
            ),
            Wrong::Length {
                line,
                length,
                second,
                width,
            } => {
                write!(
                    f,
                    "line {line}: {length} characters, but line {second} has {width}"
                )
            }
            Wrong::Spares {
                line,
                column,
                second,
            } => write!(
                f,
                "line {line}: its last spare must be in column {column}, one before the end of line {second}"
            ),
            Wrong::Corner(c) => if is_fault_letter(c.byte) {
                write!(
                    f,
                    "line {}, column {}: a corner has no processor, so it cannot be faulty",
                    c.line, c.column
                )
            } else {
                write!(
                    f,
                    "{c} at a corner, where no processor is: write a space or '+' there"
                )
            },
            Wrong::Mark(c) => write!(f, "{c} is none of '.', 'X' and 'D'"),
            Wrong::Dead(c) => write!(
                f,
                "{c} at a spare, which cannot be dead: write 'X' for a faulty spare"
            ),
        }
    }
}

impl Error for Wrong {}
