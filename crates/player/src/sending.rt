// Bytes to a writer, whose failures leave a front of them there.
ghost use Rattle.std.specs.Prelude.{◌≤◌, IfOk, OnOk, OnErr, length, take};
ghost use Rattle.std.specs.Io.KnownBytes.{Appends, Keeps};
ghost use Rattle.player.specs.Sent.{AppendsFront};

use std::io;
use std::io::{Error, ErrorKind, Write};

// Writes all the bytes. A failure leaves a front of them written.
pub(crate) fn send<W: Write>(out: &mut W, bytes: &[u8]) -> io::Result<()>
    ensures ok { OnOk result (Appends (W.contents out.old) (W.contents out.new) bytes.now) }
    ensures err { OnErr result (AppendsFront (W.contents out.old) (W.contents out.new) bytes.now) }
{
    let mut sent = 0;
    for _ in 0..u64::MAX {
        if sent == bytes.len() {
            return Ok(());
        }
        sent += write_some(out, &bytes[sent..])?;
    }
    Err(Error::from(ErrorKind::TimedOut))
}

// One write; how many of the bytes it wrote. One that is interrupted wrote none.
fn write_some<W: Write>(out: &mut W, bytes: &[u8]) -> io::Result<usize>
    ensures bound { IfOk result (λ n. n ≤ length bytes.now) }
    ensures ok { IfOk result (λ n. Appends (W.contents out.old) (W.contents out.new) (take n bytes.now)) }
    ensures err { OnErr result (Keeps (W.contents out.old) (W.contents out.new)) }
{
    match out.write(bytes) {
        Ok(0) => Err(Error::from(ErrorKind::WriteZero)),
        Ok(n) => Ok(n),
        Err(e) if e.kind() == ErrorKind::Interrupted => Ok(0),
        Err(e) => Err(e),
    }
}
