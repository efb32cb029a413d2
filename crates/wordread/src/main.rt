// Reads lines `form word offset` from standard input, and prints what the word says of the page at the offset.
#![tactic(auto)]

use std::io;
use std::io::{Read, Write};
use word_lines::respond;

fn main(rt: HostRuntime) -> io::Result<()> {
    let heap = rt.alloc();
    let mut input = Vec::new(heap);
    rt.stdin().read_to_end(&mut input)?;
    let text = respond(heap, input.as_slice())?;
    rt.stdout().write_all(text.as_bytes())
}
