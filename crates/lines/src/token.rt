// Tokens that borrow the text that they stand in, and the cursor that yields them.
ghost use Rattle.std.specs.Prelude.{◌≡◌, ◌+◌, ◌≤◌, length, take};
ghost use Rattle.lines.specs.Lines.{newlines};

// Where a token begins: the bytes before it, and the line, counted from 1.
#[derive(Clone, Copy, Debug, PartialEq)]
pub struct Place {
    pub offset: usize,
    pub line: usize,
}

// A field is a number where it begins with a digit or a minus, else a word; a word may be empty.
// Kept: text and place stand in each case, so that one pattern tells the sort of a token and takes its text.
#[derive(Clone, Copy, Debug)]
pub enum Token<'a> {
    Word(&'a [u8], Place),
    Number(&'a [u8], Place),
    LineEnd(&'a [u8], Place),
}

// A cursor in a text: the bytes before `at` are read, and `line` is the line that it stands in.
// Kept: the whole text with a place in it, since a token says at which byte it begins, and contracts name what was read.
#[derive(Drop)]
pub struct Tokens<'a> {
    pub(crate) text: &'a [u8],
    pub(crate) at: usize,
    pub(crate) line: usize,
    ghost inside: { at ≤ length text.now },
    ghost counted: { line ≡ 1 + newlines (take at text.now) },
}
