// Plays the script on standard input and writes its lines to standard output: differential/README.md says what stands in both.
#![tactic(auto)]

use std::io;

// Stays: [2] a program is a crate of its own: this one plays any script, and vectors the one that is stored beside it for the gate.
fn main(rt: HostRuntime) -> io::Result<()> {
    script::run(&mut rt.reader(), &mut io::writer(&rt))
}
