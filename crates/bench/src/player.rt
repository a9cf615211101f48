// A list of calls, packed into words, on what plays them; and the checksum of what they answer.
use crate::call::{self, Call, Kind, Record, mix};
use config::alone::{Alone, Left};
use config::answer::Numbered;
use config::config::{CongestionConfig, Priority};
use pacing::send_action::{SendAction, sent_bytes};
use pacing::writer_pacer_alone;
use pacing::writer_pacer_alone::ConfiguredPacer;
use queue::entry::InstanceKey;
use queue::fate::Fate;
use queue::pool;

// What plays the calls: pacers that are lent, or one that goes from call to call by value.
pub trait Player: Sized {
    // How many pacers it has; the numbers in the words are taken modulo that.
    fn pacers() -> u8;

    // A record to pacer i.
    fn hand_in(
        self,
        time: u64,
        pool: &mut [u8],
        i: u8,
        class: Priority,
        key: InstanceKey,
        sample: &[u8],
    ) -> Left<Self, Fate>;

    // What pacer i sends next.
    fn send(self, time: u64, pool: &[u8], i: u8) -> Left<Self, SendAction>;
}

// One pacer through its public calls, which take it by value and give it back.
impl Player for Alone<ConfiguredPacer> {
    fn pacers() -> u8 {
        1
    }

    // A hand-in by the public call of its class.
    fn hand_in(
        self,
        time: u64,
        pool: &mut [u8],
        _i: u8,
        class: Priority,
        key: InstanceKey,
        sample: &[u8],
    ) -> Left<Self, Fate> {
        match class {
            Priority::P0 | Priority::P1 => {
                writer_pacer_alone::enqueue(self, time, pool, class, sample)
            }
            Priority::P2 => writer_pacer_alone::enqueue_p2_keyed(self, time, pool, key, sample),
        }
    }

    fn send(self, time: u64, pool: &[u8], _i: u8) -> Left<Self, SendAction> {
        writer_pacer_alone::try_send(self, time, pool)
    }
}

// The checksum of a list of calls.
pub fn run<P: Player + Drop>(player: P, list: &[u64], pool: &mut [u8], bytes: &[u8]) -> u64 {
    let limits = pool::limits_of(CongestionConfig::default());
    let mut player = player;
    let mut time: u64 = 0;
    let mut sum: u64 = 0;
    for (k, word) in list.iter().enumerate() {
        let call = Call::from(*word);
        time = time.saturating_add(call.later);
        let i = call.pacer % P::pacers().max(1);
        match call.kind {
            Kind::HandIn => {
                let Record { class, key, length } = Record::from(*word);
                let sample = pool::shown(bytes, call::start_of(k), length);
                let left = player.hand_in(time, pool, i, class, key, sample);
                player = left.state;
                sum = mix(sum, left.answer.number());
            }
            Kind::Send => {
                let left = player.send(time, pool, i);
                player = left.state;
                sum = mix(sum, left.answer.number());
                let action = left.answer.unwrap_or(SendAction::Empty);
                sum = call::mix_action(sum, action, sent_bytes(limits, i, action, pool));
            }
        }
    }
    sum
}
