// The lines of a text, and the fields of a line: pieces of bytes between separators.
ghost use Rattle.std.specs.Prelude.{◌≡◌, ◌≤◌, not, length, drop};
ghost use Rattle.std.specs.Iterator.{at_most, YieldsFirstRef};
ghost use Rattle.std.specs.List.{position, prefix_len};
ghost use Rattle.word_lines.specs.Pieces.{separates};

// What ends a piece: a line feed ends a line, a blank a field. Two names are plainer than a closure, which would be a type parameter of
// every walk, with its laws in every contract.
#[derive(Clone, Copy)]
pub enum Separator {
    LineFeed,
    Blank,
}

impl Separator {
    pub fn separates(self, byte: u8) -> bool
        ensures { result ≡ separates self byte }
    {
        match self {
            Separator::LineFeed => byte == b'\n',
            Separator::Blank => byte == b' ' || byte == b'\t' || byte == b'\r',
        }
    }

    // The place of the first separator.
    fn place(self, bytes: &[u8]) -> Option<usize>
        ensures { result ≡ position (separates self) bytes.now }
    {
        bytes.iter().position(|byte| self.separates(*byte))
    }

    // How many bytes stand before the first separator.
    #[tactic(auto, using(crate::proofs::Finding::prefix_within))]
    fn piece_len(self, bytes: &[u8]) -> usize
        ensures before { result ≡ prefix_len (λ b. not (separates self b)) bytes.now }
        ensures within { result ≤ length bytes.now }
    {
        self.place(bytes).unwrap_or(bytes.len())
    }
}

// The bytes after the first, where there is one.
fn after_first(bytes: &[u8]) -> &[u8]
    ensures { result.now ≡ drop 1 bytes.now }
{
    match bytes {
        [] => bytes,
        [_, rest @ ..] => rest,
    }
}

// Hands out the pieces of a text one by one; a piece may be empty.
#[derive(Drop)]
pub struct Pieces<'a> {
    rest: &'a [u8],
    separator: Separator,
}

impl<'a> Pieces<'a> {
    ghost use Rattle.word_lines.specs.Walk.{text_left, separator_of};

    pub fn new(text: &'a [u8], separator: Separator) -> Pieces<'a>
        ensures whole { text_left result ≡ text.now }
        ensures by { separator_of result ≡ separator }
    {
        Pieces {
            rest: text,
            separator,
        }
    }
}

impl<'a> Iterator for Pieces<'a> {
    ghost use Rattle.word_lines.specs.Walk.{pieces_left, text_left};

    type Item = &'a [u8];

    ghost next_gives = { YieldsFirstRef pieces_left };

    ghost remaining = { λ s. at_most (length (text_left s)) };

    #[tactic(auto, using(crate::proofs::Cutting::next_piece))]
    fn next(&mut self) -> Option<&'a [u8]> {
        if self.rest.is_empty() {
            return None;
        }
        let (piece, after) = self.rest.split_at(self.separator.piece_len(self.rest));
        self.rest = after_first(after);
        Some(piece)
    }
}

// Hands out the fields of a line: its pieces between blanks that are not empty.
#[derive(Drop)]
pub struct Fields<'a> {
    pieces: Pieces<'a>,
}

impl<'a> Fields<'a> {
    ghost use Rattle.word_lines.specs.Pieces.{fields_of};
    ghost use Rattle.word_lines.specs.Walk.{fields_left};

    pub fn new(line: &'a [u8]) -> Fields<'a>
        ensures { fields_left result ≡ fields_of line.now }
    {
        Fields {
            pieces: Pieces::new(line, Separator::Blank),
        }
    }
}

impl<'a> Iterator for Fields<'a> {
    ghost use Rattle.word_lines.specs.Walk.{fields_left, line_left};

    type Item = &'a [u8];

    ghost next_gives = { YieldsFirstRef fields_left };

    ghost remaining = { λ s. at_most (length (line_left s)) };

    fn next(&mut self) -> Option<&'a [u8]> {
        self.pieces.find(|piece| !piece.is_empty())
    }
}
