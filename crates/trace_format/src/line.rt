// The lines that are written of a trace, to the front of a lent buffer.
ghost use Rattle.std.specs.Prelude.{◌≡◌, ◌+◌, ◌<◌, ◌≤◌, ◌∷◌, ◌++◌, length, IfOk, OnErr};
ghost use Rattle.arrayvec.specs.ArrayVec.{array_vec_len};
ghost use Rattle.trace_format.specs.Lines.{letter_of, mark_letter, words_of, text_of, HasLine};
ghost use Rattle.trace_format.specs.declared.line.Line.TheVariants as line;

use crate::fault::{ShortBuffer, Trouble};
use crate::record::Kind;
use arrayvec::ArrayVec;
use itoa::{Buffer, Integer};

// Whether the TLB had the page that was touched.
#[derive(Clone, Copy, PartialEq, Eq, Debug)]
pub enum Mark {
    Hit,
    Missed,
}

// What is said of a record, or of the fault that ends a trace.
#[derive(Clone, Copy, PartialEq, Eq, Debug)]
pub enum Line {
    Populated {
        frame: u32,
    },
    Released {
        frame: u32,
    },
    // the former attributes
    Protected {
        attributes: u16,
    },
    Touched {
        physical: u64,
        mark: Mark,
    },
    Tried {
        frame: u32,
    },
    Counted {
        nodes: u32,
        rows: u32,
        pages: u32,
        fills: u32,
    },
    // the number of the refusal
    Refused {
        kind: Kind,
        number: u32,
    },
    Faulted {
        trouble: Trouble,
        place: u32,
    },
}

// A buffer of this length takes any line.
pub const LINE_ROOM: usize = 64;

type Text = ArrayVec<u8, LINE_ROOM>;

impl Kind {
    // The letter that begins each line of such a record.
    fn letter(self) -> u8
        ensures { result ≡ letter_of self }
    {
        match self {
            Kind::Populate => b'p',
            Kind::Release => b'r',
            Kind::Protect => b'a',
            Kind::Touch => b't',
            Kind::Try => b'f',
            Kind::Census => b'c',
        }
    }
}

impl Mark {
    fn letter(self) -> u8
        ensures { result ≡ mark_letter self }
    {
        match self {
            Mark::Hit => b'h',
            Mark::Missed => b'w',
        }
    }
}

// A number in decimal, with no space.
fn push_number<I: Integer>(text: &mut Text, number: I)
    requires { array_vec_len text.old + I.MAX_STR_LEN ≤ 64 }
    ensures items { text.new.items ≡ text.old.items ++ I.text number }
    ensures len { array_vec_len text.new ≤ array_vec_len text.old + I.MAX_STR_LEN }
{
    let mut digits = Buffer::new();
    let _ = text.try_extend_from_slice(digits.format(number).as_bytes());
}

// A space, and a number in decimal.
fn push_figure<I: Integer>(text: &mut Text, number: I)
    requires { array_vec_len text.old + 1 + I.MAX_STR_LEN ≤ 64 }
    ensures items { text.new.items ≡ text.old.items ++ 32 ∷ I.text number }
    ensures len { array_vec_len text.new ≤ array_vec_len text.old + 1 + I.MAX_STR_LEN }
{
    text.push(b' ');
    push_number(text, number);
}

// A line of a letter and one figure.
fn one_figure<I: Integer>(letter: u8, number: I) -> Text
    requires { 2 + I.MAX_STR_LEN ≤ 64 }
    ensures items { result.items ≡ letter ∷ 32 ∷ I.text number }
    ensures len { array_vec_len result ≤ 2 + I.MAX_STR_LEN }
{
    let mut text = ArrayVec::new();
    text.push(letter);
    push_figure(&mut text, number);
    text
}

fn touched(physical: u64, mark: Mark) -> Text
    ensures items { result.items ≡ words_of (line.Touched physical mark) }
    ensures room { array_vec_len result < 64 }
{
    let mut text = one_figure(Kind::Touch.letter(), physical);
    text.push(b' ');
    text.push(mark.letter());
    text
}

fn counted(nodes: u32, rows: u32, pages: u32, fills: u32) -> Text
    ensures items { result.items ≡ words_of (line.Counted nodes rows pages fills) }
    ensures room { array_vec_len result < 64 }
{
    let mut text = one_figure(Kind::Census.letter(), nodes);
    push_figure(&mut text, rows);
    push_figure(&mut text, pages);
    push_figure(&mut text, fills);
    text
}

fn refused(kind: Kind, number: u32) -> Text
    ensures items { result.items ≡ words_of (line.Refused kind number) }
    ensures room { array_vec_len result < 64 }
{
    let mut text = ArrayVec::new();
    text.push(kind.letter());
    text.push(b' ');
    text.push(b'!');
    push_number(&mut text, number);
    text
}

fn faulted(trouble: Trouble, place: u32) -> Text
    ensures items { result.items ≡ words_of (line.Faulted trouble place) }
    ensures room { array_vec_len result < 64 }
{
    let mut text = one_figure(b'x', u32::from(trouble));
    push_figure(&mut text, place);
    text
}

// The line without its line feed.
fn words(line: Line) -> Text
    ensures items { result.items ≡ words_of line }
    ensures room { array_vec_len result < 64 }
{
    match line {
        Line::Populated { frame } => one_figure(Kind::Populate.letter(), frame),
        Line::Released { frame } => one_figure(Kind::Release.letter(), frame),
        Line::Protected { attributes } => one_figure(Kind::Protect.letter(), attributes),
        Line::Touched { physical, mark } => touched(physical, mark),
        Line::Tried { frame } => one_figure(Kind::Try.letter(), frame),
        Line::Counted {
            nodes,
            rows,
            pages,
            fills,
        } => counted(nodes, rows, pages, fills),
        Line::Refused { kind, number } => refused(kind, number),
        Line::Faulted { trouble, place } => faulted(trouble, place),
    }
}

// The line with its line feed.
fn text(line: Line) -> Text
    ensures { result.items ≡ text_of line }
{
    let mut text = words(line);
    text.push(b'\n');
    text
}

// Writes the line with its line feed to the front of the buffer; how many bytes it takes. A buffer of less than 64 bytes is left untouched.
pub fn write_line(line: Line, buffer: &mut [u8]) -> Result<usize, ShortBuffer>
    ensures ok { IfOk result (λ n. HasLine line buffer.old n buffer.new) }
    ensures room { IfOk result (λ n. (64 ≤ length buffer.old) × (n ≤ 64)) }
    ensures short { OnErr result (length buffer.old < 64) }
    ensures err { OnErr result (buffer.new ≡ buffer.old) }
{
    if buffer.len() < LINE_ROOM {
        return Err(ShortBuffer);
    }
    let text = text(line);
    let n = text.len();
    buffer[..n].copy_from_slice(text.as_slice());
    Ok(n)
}
