// Plays the stored script, crates/vectors/stdin; the lines it must write are crates/vectors/stdout.
#![tactic(auto)]

use std::io;

// Stays: [2] a program is a crate of its own: this one plays the script that is stored beside it for the gate, and replay any.
fn main(rt: HostRuntime) -> io::Result<()> {
    script::run(&mut rt.reader(), &mut io::writer(&rt))
}
