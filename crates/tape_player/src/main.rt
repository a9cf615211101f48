// The tape player: plays the first 65,536 bytes of standard input as a tape, and writes its lines to standard output.
#![tactic(auto)]

use std::io;
use std::io::{Read, Write};

// The most that is read of a tape.
const TAPE_BYTES: u64 = 65536;

// Room for the lines of so long a tape: 24 bytes, and 192 for each of its 16,384 words.
const LINES_BYTES: usize = 3145752;

fn main(rt: HostRuntime) -> io::Result<()> {
    let mut tape = Vec::new(rt.alloc());
    rt.reader().take(TAPE_BYTES).read_to_end(&mut tape)?;
    let mut lines = vec![in rt.alloc(); 0u8; LINES_BYTES]?;
    let length = tape::run::run(&tape, &mut lines).unwrap_or(0);
    // The lines are never longer than the buffer that they are written to.
    let told = lines.get(..length as usize).unwrap_or(&[]);
    io::writer(&rt).write_all(told)
}
