// The same list of calls on one pacer through its public calls, which take it by value and give it back.
use bench::player;
use bench::player::Player;
use config::alone::Left;
use config::config::{CongestionConfig, Priority};
use config::ledger::Ledger;
use pacing::send_action::SendAction;
use pacing::writer_pacer_alone;
use queue::entry::InstanceKey;
use queue::fate::Fate;

// What stands in for a pacer that was turned down: control is off, and it needs no pool.
#[derive(Clone, Copy)]
struct Off {
    ledger: Ledger,
}

impl Player for Off {
    fn pacers() -> u8 {
        1
    }

    // Turned down for the record or the time, else since control is off.
    fn hand_in(
        self,
        time: u64,
        pool: &mut [u8],
        _i: u8,
        _class: Priority,
        _key: InstanceKey,
        sample: &[u8],
    ) -> Left<Self, Fate> {
        let verdict = writer_pacer_alone::check_hand_in(
            self.ledger,
            false,
            0,
            pool.len(),
            time,
            sample.len(),
        );
        Left {
            state: self,
            answer: verdict.map(|()| Fate::Full),
        }
    }

    // Nothing is sent.
    fn send(self, time: u64, pool: &[u8], _i: u8) -> Left<Self, SendAction> {
        match writer_pacer_alone::check_send(self.ledger, 0, pool.len(), time) {
            Err(refusal) => Left {
                state: self,
                answer: Err(refusal),
            },
            Ok(()) => Left {
                state: Off {
                    ledger: self.ledger.moved(time),
                },
                answer: Ok(SendAction::Empty),
            },
        }
    }
}

// The checksum of a list of calls on one new pacer, or on none where no pacer has the rate; the pacer numbers of the list are not read.
pub fn run(list: &[u64], pool: &mut [u8], bytes: &[u8], rate_bps: u32) -> u64 {
    match writer_pacer_alone::with_rate(0, CongestionConfig::default(), rate_bps) {
        Ok(alone) => player::run(alone, list, pool, bytes),
        Err(_) => player::run(
            Off {
                ledger: Ledger::new(0),
            },
            list,
            pool,
            bytes,
        ),
    }
}
