// What a call answers, as text on standard output.
use crate::buffers::{self, Marked};
use array::{Refusal, Verdict};

// The descriptor of standard output.
const STDOUT_FILENO: i32 = 1;

pub fn say_bytes(text: &[u8]) {
    io::write_all(STDOUT_FILENO, text);
}

pub fn say(text: &str) {
    say_bytes(text.as_bytes());
}

pub fn say_digits(v: usize) {
    io::print_decimal(STDOUT_FILENO, v as u64);
}

// A space and a number.
pub fn say_number(v: usize) {
    say(" ");
    say_digits(v);
}

pub fn say_refusal(r: Refusal) {
    say("refused");
    say_number(usize::from(r.number()));
    say_number(r.place);
    say_number(r.second);
}

pub fn say_verdict(v: Verdict, accepted: &str) {
    match v {
        Ok(()) => say(accepted),
        Err(r) => say_refusal(r),
    }
}

// Says of a refused call whether every element that it may write still has its mark.
pub fn say_kept(kept: bool) {
    say(if kept { " kept" } else { " changed" });
}

// Whether k is a row (or column) of inner positions, of which there are `size`.
fn is_inner(k: usize, size: usize) -> bool {
    1 <= k && k <= size
}

// Whether k is a row (or column) of spares.
fn is_outer(k: usize, size: usize) -> bool {
    k == 0 || k - 1 == size
}

// The N and M of a wafer.
#[derive(Clone, Copy)]
pub struct Size {
    pub n: usize,
    pub m: usize,
}

impl Size {
    fn has_processor(self, x: usize, y: usize) -> bool {
        (is_inner(x, self.n) && (is_inner(y, self.m) || is_outer(y, self.m)))
            || (is_outer(x, self.n) && is_inner(y, self.m))
    }

    // What a grid without a fault has at a position.
    fn blank_mark(self, p: usize) -> u8 {
        if self.has_processor(p / 32, p % 32) {
            0
        } else {
            2
        }
    }

    // What a new grid has at a position: 0 where there is no such wafer.
    pub fn first_mark(self, p: usize) -> u8 {
        if is_inner(self.n, 30) && is_inner(self.m, 30) {
            self.blank_mark(p)
        } else {
            0
        }
    }

    // Whether a wafer is shown whole, and not by its differences.
    fn is_small(self) -> bool {
        self.n <= 4 && self.m <= 4
    }

    // Whether a position is shown where a wafer is shown whole.
    fn is_shown(self, p: usize) -> bool {
        let x = p / 32;
        let y = p % 32;
        (is_inner(x, self.n) || is_outer(x, self.n)) && (is_inner(y, self.m) || is_outer(y, self.m))
    }
}

// The buffers that a call may write.
#[derive(Clone, Copy)]
pub enum Shown {
    Grid,
    Directions,
    Places,
    Across,
    Down,
}

impl Shown {
    // What a buffer of a wafer without a fault has at a position.
    fn plain(self, size: Size, p: usize) -> usize {
        let x = p / 32;
        let y = p % 32;
        match self {
            Shown::Grid => usize::from(size.blank_mark(p)),
            Shown::Directions => 0,
            Shown::Places => cell(size, p),
            Shown::Across => letter(size.has_processor(x, y) && size.has_processor(x, y + 1)),
            Shown::Down => letter(size.has_processor(x, y) && size.has_processor(x + 1, y)),
        }
    }

    // The character that stands for an element; of a placement, its number.
    fn say_element(self, v: usize) {
        match self {
            Shown::Grid => say_digit(v),
            Shown::Directions => say(direction_letter(v)),
            Shown::Places => say_digits(v),
            Shown::Across | Shown::Down => say_switch(v),
        }
    }
}

// Where a placement without a fault puts the cell of a position, 0 where there is no cell.
fn cell(size: Size, p: usize) -> usize {
    if is_inner(p / 32, size.n) && is_inner(p % 32, size.m) {
        p
    } else {
        0
    }
}

// The letter between two processors where no path is near, 0 where one of them is missing.
fn letter(both: bool) -> usize {
    if both { usize::from(b'b') } else { 0 }
}

fn say_digit(v: usize) {
    if v < 10 { say_digits(v) } else { say("?") }
}

fn direction_letter(v: usize) -> &'static str {
    match v {
        0 => ".",
        1 => "S",
        2 => "N",
        3 => "E",
        4 => "W",
        _ => "?",
    }
}

fn say_switch(v: usize) {
    match u8::try_from(v) {
        Ok(0) => say("."),
        Ok(letter @ b'a'..=b'z') => say_bytes(&[letter]),
        _ => say("?"),
    }
}

// One element of a buffer that is shown whole.
fn show_inside(shown: Shown, size: Size, p: usize, v: usize) {
    if size.is_shown(p) {
        match (shown, p % 32) {
            (_, 0) if p != 0 => say("/"),
            (Shown::Places, y) if y != 0 => say(" "),
            _ => {}
        }
        shown.say_element(v);
    } else if v != shown.plain(size, p) {
        say(" stray");
        say_number(p);
    }
}

// One element of a buffer that is shown by its differences.
fn show_difference(shown: Shown, size: Size, p: usize, v: usize) {
    if v != shown.plain(size, p) {
        say_number(p);
        say(":");
        shown.say_element(v);
    }
}

// A buffer that a call may have written.
pub fn show<T: Marked + Into<usize>>(shown: Shown, size: Size, elements: &[T]) {
    say(" ");
    if buffers::is_kept(elements) {
        say("kept");
        return;
    }
    if !size.is_small() {
        say("blank");
    }
    for (p, v) in elements.iter().enumerate() {
        if size.is_small() {
            show_inside(shown, size, p, (*v).into());
        } else {
            show_difference(shown, size, p, (*v).into());
        }
    }
}

// The bytes of a file, each after a space, in hexadecimal.
pub fn show_bytes(bytes: &[u8]) {
    for b in bytes {
        say(" ");
        io::print_hex(STDOUT_FILENO, u64::from(*b), 2);
    }
}

// The bytes of a text, with a stroke for each line end.
pub fn show_text(bytes: &[u8]) {
    say(" ");
    for b in bytes {
        if *b == b'\n' {
            say("/");
        } else {
            say_bytes(&[*b]);
        }
    }
}
