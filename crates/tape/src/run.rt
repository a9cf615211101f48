// The run of a tape on a station of its own: each item is decoded, played on the station, and answered by a line.
#![tactic(auto, using(crate::proofs::Runs::kept_steps), unfolding(station::specs::Station::ticked_station, crate::specs::Run::fields_by, crate::specs::Run::tick_told, crate::specs::Run::rate_told, crate::specs::Run::played, crate::specs::Run::text_of, crate::specs::Run::ran_tape, crate::specs::Run::lines_left))]

ghost use Rattle.std.specs.Prelude.{◌≡◌, length, ltb, Ok, Some};
ghost use Rattle.signals.specs.RttEstimator.{any_inflated};
ghost use Rattle.station.specs.Station.{tos_station, ticked_station, sent_station, rated_station};
ghost use Rattle.tape.specs.Item.{body_at, items_of, Stands};
ghost use Rattle.tape.specs.Run.{tape_settings, new_player, advanced, action_fields, flagged, ticked, handed_by, sent_by, rated, played, lines_of, text_of, updates_of, seen, Remembered, Leaves, room_for, ran_tape, lines_left};
ghost use Rattle.tape.specs.Text.{added, line_text, updates_text};

use crate::item;
use crate::item::{Item, Items, Placed, Words};
use crate::text::{Fields, Lines};
use config::answer::Numbered;
use config::config::{CongestionConfig, EcnMode, Priority};
use config::refusal::{ACCEPTED, Refusal};
use pacing::send_action::SendAction;
use station::station::Station;
use std::num::f32_from_bits_with_nan;

// The pool of four writers at queue limits 2, 4 and 2.
const POOL_BYTES: usize = 47104;

// The clock stops at 2^63.
const CLOCK_STOP: u64 = 0x8000_0000_0000_0000;

// A station of its own, the clock in nanoseconds, and the pool, which is lent so that it is never moved.
// Whether a peer is inflated is remembered from the first tick that asks up to the next sample.
#[derive(Drop)]
struct Player<'a> {
    station: Station<2, 4, 2>,
    clock: u64,
    pool: &'a mut [u8],
    inflated: Option<bool>,
}

// The defaults, with queue limits 2, 4 and 2 and ECN opportunistic.
// Stays: [4] these are a tape's settings, which differ from the defaults, and `CongestionConfig` can have one `Default`.
fn settings() -> CongestionConfig
    ensures { result ≡ tape_settings }
{
    CongestionConfig {
        max_queue_p0: 2,
        max_queue_p1: 4,
        max_queue_p2: 2,
        ecn_mode: EcnMode::Opportunistic,
        ..CongestionConfig::default()
    }
}

fn advance(clock: u64, micros: u32) -> u64
    ensures { result ≡ advanced clock micros }
{
    clock
        .saturating_add(1000 * u64::from(micros))
        .min(CLOCK_STOP)
}

// What a send attempt came to.
fn action_fields(action: SendAction) -> Fields
    ensures { result ≡ action_fields action }
{
    match action {
        SendAction::Send {
            class,
            slot: _,
            sequence,
            length,
            forced: _,
        } => Fields::Sent {
            class,
            sequence,
            length,
        },
        SendAction::Empty => Fields::Empty,
        SendAction::RateLimited(wait) => Fields::Wait(wait),
    }
}

// A send attempt on a station; the pool stays. It is lent as `&mut` since the checker has no rule yet for a field lent as `&` beside another lent as `&mut`.
fn send_from(
    station: &mut Station<2, 4, 2>,
    pool: &mut [u8],
    clock: u64,
    pacer: u8,
) -> Result<SendAction, Refusal>
    ensures value { sent_station station.old (length pool.old) clock pacer ≡ record { state = station.new; answer = result } }
    ensures same_pool { pool.new ≡ pool.old }
{
    station.send(pool, clock, pacer)
}

impl Player<'_> {
    // Every item of a tape, in turn; of the peers nothing is remembered at first.
    // Stays: [5] each of these clauses names another text; that it stands behind the lines before is what `added` says.
    #[inline(never)]
    #[tactic(auto, using(crate::proofs::Runs::told_steps))]
    fn play_all(&mut self, tape: &[u8], lines: &mut Lines)
        ensures { lines.new ≡ added lines.old (text_of (lines_of tape.now (seen self.old) (items_of tape.now))) }
    {
        self.inflated = None;
        for placed in Items::new(tape) {
            self.play(tape, placed, lines);
        }
    }

    // One item of a tape, and its line.
    #[tactic(auto, using(crate::proofs::Runs::play_steps), unfolding(crate::specs::Run::played, crate::specs::Run::text_of))]
    fn play(&mut self, tape: &[u8], placed: Placed, lines: &mut Lines)
        requires stands { Stands tape.now placed }
        requires remembered { Remembered self.old.inflated self.old.station }
        ensures leaves { Leaves (played tape.now (seen self.old) placed.index placed.item) (seen self.new) lines.old lines.new }
        ensures remembered { Remembered self.new.inflated self.new.station }
    {
        let k = placed.index;
        match placed.item {
            Item::End => {}
            Item::Broken => lines.put_line(k, Refusal::KindUnknown.number(), Fields::Nothing),
            Item::Advance(micros) => self.clock = advance(self.clock, micros),
            Item::Register { class, id } => {
                let answer = self.station.register(self.clock, u64::from(id), class);
                lines.put_line(k, answer.number(), Fields::Nothing);
            }
            Item::Eagain => {
                let answer = self.station.on_eagain(self.clock);
                lines.put_line(k, answer.number(), Fields::Nothing);
            }
            Item::Tos(byte) => self.mark(byte, k, lines),
            Item::Nacks(count) => {
                let answer = self.station.on_nacks(self.clock, count);
                lines.put_line(k, answer.number(), Fields::Nothing);
            }
            Item::Rtt { peer, bits } => {
                let rtt_ms = f32_from_bits_with_nan(bits);
                let answer = self.station.on_rtt_sample(self.clock, peer, rtt_ms);
                self.inflated = None;
                lines.put_line(k, answer.number(), Fields::Nothing);
            }
            Item::Tick => self.tick(k, lines),
            Item::HandIn {
                pacer,
                class,
                length: bytes,
            } => {
                let words = Words { tape, first: k };
                self.hand_in(&words, pacer, class, bytes, lines)
            }
            Item::Send(pacer) => self.send(pacer, k, lines),
            Item::SetRate(rate_bps) => self.set_rate(rate_bps, k, lines),
        }
    }

    // A TOS byte, and whether it signals congestion.
    fn mark(&mut self, byte: u8, k: usize, lines: &mut Lines)
        requires { Remembered self.old.inflated self.old.station }
        ensures leaves { Leaves (flagged (seen self.old) k (tos_station self.old.station self.old.clock byte)) (seen self.new) lines.old lines.new }
        ensures remembered { Remembered self.new.inflated self.new.station }
    {
        match self.station.on_ecn_tos(self.clock, byte) {
            Ok(flag) => lines.put_line(k, ACCEPTED, Fields::Flag(flag)),
            Err(refusal) => lines.put_line(k, refusal.number(), Fields::Nothing),
        }
    }

    // The line of an accepted word that shared the rate out: every writer's budget.
    fn put_budgets(&self, k: usize, lines: &mut Lines)
        ensures { lines.new ≡ added lines.old (line_text k 0 (updates_text (updates_of self.now.station))) }
    {
        let station = &self.station;
        lines.put_updates(k, station.controller().table().writers());
    }

    // Whether a peer is inflated; the peers are asked where that is not remembered.
    fn any_inflated(&mut self) -> bool
        requires { Remembered self.old.inflated self.old.station }
        ensures value { result ≡ any_inflated self.old.station.controller.tracker }
        ensures remembers { self.new ≡ record self.old { inflated = Some result } }
    {
        let inflated = match self.inflated {
            Some(inflated) => inflated,
            None => self.station.controller().tracker().any_inflated(),
        };
        self.inflated = Some(inflated);
        inflated
    }

    // A tick, and every writer's budget where it changed the rate.
    fn tick(&mut self, k: usize, lines: &mut Lines)
        requires { Remembered self.old.inflated self.old.station }
        ensures leaves { Leaves (ticked (seen self.old) k (ticked_station self.old.station self.old.clock)) (seen self.new) lines.old lines.new }
        ensures remembered { Remembered self.new.inflated self.new.station }
    {
        let inflated = self.any_inflated();
        match self.station.tick_told(self.clock, inflated) {
            Ok(true) => self.put_budgets(k, lines),
            Ok(false) => lines.put_line(k, ACCEPTED, Fields::Unchanged),
            Err(refusal) => lines.put_line(k, refusal.number(), Fields::Nothing),
        }
    }

    // A hand-in of the bytes that stand behind its words.
    fn hand_in(&mut self, words: &Words, pacer: u8, class: Priority, bytes: u16, lines: &mut Lines)
        requires whole { length (body_at words.now.tape.now words.now.first class bytes) ≡ bytes }
        requires remembered { Remembered self.old.inflated self.old.station }
        ensures leaves { Leaves (handed_by words.now.tape.now (seen self.old) words.now.first pacer class bytes) (seen self.new) lines.old lines.new }
        ensures remembered { Remembered self.new.inflated self.new.station }
    {
        let key = words.key(class);
        let record = words.body(class, bytes);
        let answer = self
            .station
            .hand_in(self.pool, self.clock, pacer, class, key, record);
        lines.put_line(words.first, answer.number(), Fields::Nothing);
    }

    // A send attempt, and what it comes to.
    fn send(&mut self, pacer: u8, k: usize, lines: &mut Lines)
        requires { Remembered self.old.inflated self.old.station }
        ensures leaves { Leaves (sent_by (seen self.old) k (sent_station self.old.station (length self.old.pool.now) self.old.clock pacer)) (seen self.new) lines.old lines.new }
        ensures remembered { Remembered self.new.inflated self.new.station }
    {
        match send_from(&mut self.station, self.pool, self.clock, pacer) {
            Ok(action) => lines.put_line(k, ACCEPTED, action_fields(action)),
            Err(refusal) => lines.put_line(k, refusal.number(), Fields::Nothing),
        }
    }

    // A rate setting, and every writer's budget.
    fn set_rate(&mut self, rate_bps: u32, k: usize, lines: &mut Lines)
        requires { Remembered self.old.inflated self.old.station }
        ensures leaves { Leaves (rated (seen self.old) k (rated_station self.old.station self.old.clock rate_bps)) (seen self.new) lines.old lines.new }
        ensures remembered { Remembered self.new.inflated self.new.station }
    {
        match self.station.set_rate(self.clock, rate_bps) {
            Ok(()) => self.put_budgets(k, lines),
            Err(refusal) => lines.put_line(k, refusal.number(), Fields::Nothing),
        }
    }
}

// A tape on a station of its own, whose settings are never turned down; one without items needs none.
#[tactic(auto, using(crate::proofs::Runs::made_steps))]
fn play_tape(tape: &[u8], lines: &mut Lines) -> Result<(), Refusal>
    ensures value { result ≡ Ok tt }
    ensures lines_after { lines.new ≡ added lines.old (text_of (lines_of tape.now new_player (items_of tape.now))) }
{
    if Items::new(tape).next().is_none() {
        return Ok(());
    }
    let mut pool = [0u8; POOL_BYTES];
    // Stays: [1] a match: `?` would move the station twice more, and the set-up of a short tape took 1.5 times as long.
    match Station::new(settings(), 0) {
        Ok(station) => {
            let mut player = Player {
                station,
                clock: 0,
                pool: &mut pool,
                inflated: None,
            };
            player.play_all(tape, lines);
            Ok(())
        }
        Err(refusal) => Err(refusal),
    }
}

// Whether a buffer of so many bytes is too short for the lines of a tape of so many.
fn is_short(tape: usize, lines: usize) -> bool
    ensures { result ≡ ltb lines (room_for tape) }
{
    lines < 24 || (lines - 24) / 192 < item::words_of(tape)
}

// Plays a tape and writes its lines, whose length it tells; 8 where the buffer is shorter than 24 bytes and 192 for each word.
#[tactic(auto, using(crate::proofs::Runs::run_steps), unfolding(crate::specs::Run::ran_tape, crate::specs::Run::lines_left))]
pub fn run(tape: &[u8], lines: &mut [u8]) -> Result<u64, Refusal>
    ensures value { result ≡ ran_tape tape.now (length lines.old) }
    ensures lines_after { lines.new ≡ lines_left tape.now lines.old }
{
    Refusal::BufferTooShort.when(is_short(tape.len(), lines.len()))?;
    let mut told = Lines::new(lines);
    told.put_header();
    play_tape(tape, &mut told)?;
    Ok(told.length() as u64)
}
