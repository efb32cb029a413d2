// A whole trace.
ghost use Rattle.std.specs.Prelude.{◌≡◌, ◌⊎◌, IfOk, OnOk, OnErr, IfSome, take};
ghost use Rattle.std.specs.Io.KnownBytes.{Appends, Keeps};
ghost use Rattle.trace_format.specs.Lines.{text_of};
ghost use Rattle.player.specs.Sent.{AppendsFront};
ghost use Rattle.player.specs.Play.{WritesPlay, WritesFront};

use crate::sending::send;
use crate::steps::step;
use frames::FrameAllocator;
use space::Space;
use std::alloc::Global;
use std::io;
use std::io::{Read, Write};
use tlb::Tlb;
use trace_format::{LINE_ROOM, Line, Reader, write_line};

// Bytes of an input behind these do not exist: a record across this border is cut.
pub const MOST_BYTES: usize = 65_536;

// Reads a trace, and plays it. Where the reading fails, nothing is written.
pub fn run<T: Tlb + Drop, F: FrameAllocator + Drop, R: Read, W: Write>(
    alloc: Global,
    tlb: T,
    frames: F,
    input: &mut R,
    out: &mut W,
) -> io::Result<()>
    ensures ok { OnOk result (IfSome (R.remaining input.old) (λ bytes.
        WritesPlay T.Tlb.meaning F.FrameAllocator.meaning tlb frames (take 65536 bytes) (W.contents out.old) (W.contents out.new))) }
    ensures err { OnErr result (IfSome (R.remaining input.old) (λ bytes. Keeps (W.contents out.old) (W.contents out.new)
        ⊎ WritesFront T.Tlb.meaning F.FrameAllocator.meaning tlb frames (take 65536 bytes) (W.contents out.old) (W.contents out.new))) }
{
    let bytes = first_bytes(alloc, input)?;
    play(tlb, frames, bytes.as_slice(), out)
}

fn first_bytes<R: Read>(alloc: Global, input: &mut R) -> io::Result<Vec<u8>>
    ensures { IfOk result (λ bytes. IfSome (R.remaining input.old) (λ all. bytes.items ≡ take 65536 all)) }
{
    let mut bytes = Vec::new(alloc);
    (&mut *input)
        .take(MOST_BYTES as u64)
        .read_to_end(&mut bytes)?;
    Ok(bytes)
}

// Carries out the records of a trace on a new space, and writes a line for each; the last line is that of the fault, where the trace has one. Where
// a write fails, a front of the lines of a front of the trace was written.
pub fn play<T: Tlb + Drop, F: FrameAllocator + Drop, W: Write>(
    tlb: T,
    frames: F,
    input: &[u8],
    out: &mut W,
) -> io::Result<()>
    ensures ok { OnOk result (WritesPlay T.Tlb.meaning F.FrameAllocator.meaning tlb frames (take 65536 input.now) (W.contents out.old) (W.contents out.new)) }
    ensures err { OnErr result (WritesFront T.Tlb.meaning F.FrameAllocator.meaning tlb frames (take 65536 input.now) (W.contents out.old) (W.contents out.new)) }
{
    let mut space = Space::new(tlb, frames);
    let mut reader = Reader::new(&input[..input.len().min(MOST_BYTES)]);
    loop {
        match reader.next() {
            Ok(Some(part)) => {
                let line = step(&mut space, part.record());
                send_line(out, line)?;
            }
            Ok(None) => return Ok(()),
            Err(fault) => {
                let line = Line::Faulted {
                    trouble: fault.trouble,
                    place: fault.place as u32,
                };
                return send_line(out, line);
            }
        }
    }
}

fn send_line<W: Write>(out: &mut W, line: Line) -> io::Result<()>
    ensures ok { OnOk result (Appends (W.contents out.old) (W.contents out.new) (text_of line)) }
    ensures err { OnErr result (AppendsFront (W.contents out.old) (W.contents out.new) (text_of line)) }
{
    let mut buffer = [0u8; LINE_ROOM];
    let Ok(n) = write_line(line, &mut buffer) else {
        unreachable!()
    };
    send(out, &buffer[..n])
}
