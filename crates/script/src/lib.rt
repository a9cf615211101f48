// Plays a script of calls on the modules: differential/README.md has the records, the operations and the lines.
#![tactic(auto)]

mod allocator_ops;
mod bucket_ops;
mod coalescing_ops;
mod config_ops;
mod controller_ops;
mod desk;
mod digest;
mod ecn_ops;
mod line;
mod numeric_ops;
mod operation;
mod outcome;
mod pacer_ops;
mod peers_ops;
mod player;
mod queue_ops;
mod rate_ops;
mod rtt_ops;
mod scorer_ops;
mod station_ops;
mod words;

use arrayvec::ArrayVec;
use desk::Desk;
use line::LINE_BYTES;
use player::Modules;
use std::io;
use std::io::{ErrorKind, Read, Write};
use words::RECORD_BYTES;

// Records of a batch of input.
const BATCH_RECORDS: usize = 128;

const BATCH_BYTES: usize = BATCH_RECORDS * RECORD_BYTES;

const LINES_BYTES: usize = BATCH_RECORDS * LINE_BYTES;

// The most batches of a run. A proved loop has to end, and nothing says that the input does.
const MOST_BATCHES: u64 = 4294967296;

// Reads records from the input to its end, and answers each by a line on the output.
pub fn run(input: &mut impl Read, output: &mut impl Write) -> io::Result<()> {
    let mut modules = Modules::new().or(Err(ErrorKind::InvalidData))?;
    let mut desk = Desk::default();
    let mut batch = ArrayVec::<u8, BATCH_BYTES>::new();
    let mut lines = ArrayVec::<u8, LINES_BYTES>::new();
    for _ in 0..MOST_BATCHES {
        batch.clear();
        lines.clear();
        io::copy(&mut input.take(BATCH_BYTES as u64), &mut batch)?;
        modules.play_batch(&mut desk, batch.as_slice(), &mut lines)?;
        output.write_all(lines.as_slice())?;
        if !batch.is_full() {
            break;
        }
    }
    Ok(())
}
