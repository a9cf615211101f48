// What becomes of a record that is handed in.
ghost use Rattle.std.specs.Prelude.{◌≡◌};
ghost use Rattle.queue.specs.Fates.{is_full, fate_number};

use config::answer::Numbered;
use config::refusal::{ACCEPTED, QUEUE_FULL};

// What became of a record handed in: refused, at the tail, at the tail with the oldest pushed out, or in the place of the one with its key.
#[derive(Clone, Copy, Debug, PartialEq, Eq)]
pub enum Fate {
    Full,
    Joined,
    PushedOut,
    Replaced,
}

impl Fate {
    // Stays: [2] the test of one variant by `matches!`, as that of another enum in signals; std derives no such test.
    pub fn is_full(self) -> bool
        ensures { result ≡ is_full self }
    {
        matches!(self, Fate::Full)
    }
}

// 12 where the queue was full, which counts as an accepted call, else 0.
impl Numbered for Fate {
    ghost number_is = { fate_number };

    fn number(&self) -> u8 {
        if self.is_full() { QUEUE_FULL } else { ACCEPTED }
    }
}

// A record's fate, the slot that is its own (0 where it is refused) and the sequence number that it used up.
#[derive(Clone, Copy, Debug, PartialEq, Eq)]
pub struct Kept {
    pub fate: Fate,
    pub slot: u16,
    pub sequence: u64,
}
