// A list of calls on four pacers, which are called in place.
use bench::player;
use bench::player::Player;
use config::alone::Left;
use config::config::{CongestionConfig, Priority};
use config::ledger::Ledger;
use config::refusal::Refusal;
use pacing::send_action::SendAction;
use pacing::writer_pacer::WriterPacer;
use pacing::{send_action, writer_pacer_alone};
use queue::entry::InstanceKey;
use queue::fate::Fate;
use queue::pool;
use queue::pool::Limits;

type Pacer = WriterPacer<128, 512, 128>;

#[derive(Drop)]
struct Four {
    ledger: Ledger,
    limits: Limits,
    pacers: [Pacer; 4],
}

impl Four {
    // Four new pacers of one rate.
    fn new(rate_bps: u32) -> Option<Four> {
        let limits = pool::limits_of(CongestionConfig::default());
        Some(Four {
            ledger: Ledger::new(0),
            limits,
            // Stays: [3] each may be turned down, and `array::from_fn` takes no step that may fail.
            pacers: [
                Pacer::new(0, limits, rate_bps)?,
                Pacer::new(0, limits, rate_bps)?,
                Pacer::new(0, limits, rate_bps)?,
                Pacer::new(0, limits, rate_bps)?,
            ],
        })
    }

    // The slots that a pool of four pacers has.
    fn slots(&self) -> usize {
        pool::slots(self.limits) * 4
    }

    // A checked hand-in to pacer i.
    fn take(
        &mut self,
        time: u64,
        pool: &mut [u8],
        i: u8,
        class: Priority,
        key: InstanceKey,
        sample: &[u8],
    ) -> Result<Fate, Refusal> {
        let (slots, length) = (self.slots(), sample.len());
        writer_pacer_alone::check_hand_in(self.ledger, true, slots, pool.len(), time, length)?;
        let pacer = self
            .pacers
            .get_mut(i as usize)
            .ok_or(Refusal::WriterUnknown)?;
        let kept = pacer.hand_in(class, key, length as u64);
        send_action::store(pool, self.limits, i, class, kept, sample);
        self.ledger = self.ledger.moved(time);
        Ok(kept.fate)
    }

    // A checked send attempt of pacer i.
    fn give(&mut self, time: u64, pool: &[u8], i: u8) -> Result<SendAction, Refusal> {
        writer_pacer_alone::check_send(self.ledger, self.slots(), pool.len(), time)?;
        let pacer = self
            .pacers
            .get_mut(i as usize)
            .ok_or(Refusal::WriterUnknown)?;
        let action = pacer.try_send(time);
        self.ledger = self.ledger.moved(time);
        Ok(action)
    }
}

impl Player for &mut Four {
    fn pacers() -> u8 {
        4
    }

    fn hand_in(
        self,
        time: u64,
        pool: &mut [u8],
        i: u8,
        class: Priority,
        key: InstanceKey,
        sample: &[u8],
    ) -> Left<Self, Fate> {
        let answer = self.take(time, pool, i, class, key, sample);
        Left {
            state: self,
            answer,
        }
    }

    fn send(self, time: u64, pool: &[u8], i: u8) -> Left<Self, SendAction> {
        let answer = self.give(time, pool, i);
        Left {
            state: self,
            answer,
        }
    }
}

// The checksum of a list of calls on four new pacers of one rate.
pub fn run(list: &[u64], pool: &mut [u8], bytes: &[u8], rate_bps: u32) -> u64 {
    match Four::new(rate_bps) {
        Some(mut four) => player::run(&mut four, list, pool, bytes),
        None => 0,
    }
}
