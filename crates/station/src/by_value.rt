// The calls of a station by value: each gives the station that it leaves, and the answer. Two lines each: one function over a closure for the
// call would have to say what the closure leaves of a lent pool too.
ghost use Rattle.std.specs.Prelude.{◌≡◌, length};
ghost use Rattle.station.specs.Station.{resumed_station, registered_station, eagain_station, nacks_station, tos_station, rtt_station, ticked_station, rated_station, handed_station, pool_handed, sent_station};

use crate::station::Station;
use config::alone::Left;
use config::config::Priority;
use pacing::send_action::SendAction;
use queue::entry::InstanceKey;
use queue::fate::Fate;

impl<const P0: usize, const P1: usize, const P2: usize> Station<P0, P1, P2> {
    // The same station with a call count that was kept elsewhere, as over a restart.
    pub fn resumed(mut self, calls: u64) -> Self
        ensures { result ≡ resumed_station self.entry calls }
    {
        self.ledger = self.ledger.resumed(calls);
        self
    }

    pub fn registered(mut self, time: u64, id: u64, class: Priority) -> Left<Self, ()>
        ensures { result ≡ registered_station self.entry time id class }
    {
        let answer = self.register(time, id, class);
        Left {
            state: self,
            answer,
        }
    }

    pub fn after_eagain(mut self, time: u64) -> Left<Self, ()>
        ensures { result ≡ eagain_station self.entry time }
    {
        let answer = self.on_eagain(time);
        Left {
            state: self,
            answer,
        }
    }

    pub fn after_nacks(mut self, time: u64, count: u32) -> Left<Self, ()>
        ensures { result ≡ nacks_station self.entry time count }
    {
        let answer = self.on_nacks(time, count);
        Left {
            state: self,
            answer,
        }
    }

    pub fn after_ecn_tos(mut self, time: u64, tos: u8) -> Left<Self, bool>
        ensures { result ≡ tos_station self.entry time tos }
    {
        let answer = self.on_ecn_tos(time, tos);
        Left {
            state: self,
            answer,
        }
    }

    // Stays: [5] the Rust's arguments of a sample and document 01's time; a struct of them would be made at each call and taken apart in it.
    pub fn after_rtt_sample(mut self, time: u64, peer_id: u32, rtt_ms: f32) -> Left<Self, ()>
        ensures { result ≡ rtt_station self.entry time peer_id rtt_ms }
    {
        let answer = self.on_rtt_sample(time, peer_id, rtt_ms);
        Left {
            state: self,
            answer,
        }
    }

    pub fn ticked(mut self, time: u64) -> Left<Self, bool>
        ensures { result ≡ ticked_station self.entry time }
    {
        let answer = self.tick(time);
        Left {
            state: self,
            answer,
        }
    }

    pub fn rated(mut self, time: u64, rate_bps: u32) -> Left<Self, ()>
        ensures { result ≡ rated_station self.entry time rate_bps }
    {
        let answer = self.set_rate(time, rate_bps);
        Left {
            state: self,
            answer,
        }
    }

    // Stays: [5] document 01's arguments of a hand-in, by the names that it gives them.
    pub fn handed(
        mut self,
        pool: &mut [u8],
        time: u64,
        i: u8,
        class: Priority,
        key: InstanceKey,
        sample: &[u8],
    ) -> Left<Self, Fate>
        ensures value { result ≡ handed_station self.entry (length pool.old) time i class key (length sample.now) }
        ensures pool_after { pool.new ≡ pool_handed self.entry (length pool.old) time i class key sample.now (length sample.now) pool.old }
    {
        let answer = self.hand_in(pool, time, i, class, key, sample);
        Left {
            state: self,
            answer,
        }
    }

    pub fn sent(mut self, pool: &[u8], time: u64, i: u8) -> Left<Self, SendAction>
        ensures { result ≡ sent_station self.entry (length pool.now) time i }
    {
        let answer = self.send(pool, time, i);
        Left {
            state: self,
            answer,
        }
    }
}
