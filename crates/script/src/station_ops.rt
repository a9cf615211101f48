// The station, over the settings, the byte buffer and the lent part of the pool.
use crate::allocator_ops::{updates_if, writers};
use crate::desk::Desk;
use crate::digest::{DIGEST_START, joined};
use crate::line::{Line, Shown};
use crate::operation::Operation;
use crate::outcome::Outcome;
use crate::pacer_ops::{Pacer, narrow, waiting};
use crate::peers_ops;
use crate::words::{Record, Unknown};
use config::answer::Numbered;
use config::config::Priority;
use config::refusal::Refusal;
use control::budget_allocator::BudgetAllocator;
use pacing::send_action::SendAction;
use queue::coalescing::hash_bytes;
use queue::entry::InstanceKey;
use queue::pool;
use queue::pool::Limits;
use station::station::{Station, sent_bytes};

#[derive(Clone, Copy)]
pub(crate) enum StationOperation {
    New { time: u64 },
    Register { time: u64, id: u64, class: Priority },
    Eagain { time: u64 },
    Tos { time: u64, tos: u8 },
    Nacks { time: u64, count: u32 },
    Rtt { time: u64, peer: u32, sample: f32 },
    Tick { time: u64 },
    SetRate { time: u64, rate: u32 },
    HandIn(HandedIn),
    Send { time: u64, i: u8 },
    Calls(u64),
    Place { i: u8 },
    Controller,
}

// What is handed in beside the bytes: when, to which pacer, in which class and under which key.
#[derive(Clone, Copy)]
pub(crate) struct HandedIn {
    time: u64,
    i: u8,
    class: Priority,
    key: InstanceKey,
}

// Places of a roster.
const PACER_PLACES: u64 = 4;

impl TryFrom<Record> for StationOperation {
    type Error = Unknown;

    fn try_from(r: Record) -> Result<Self, Unknown> {
        let time = r.a.into();
        let (id, class) = (r.b.into(), r.c.into());
        let (peer, sample) = (r.b.into(), r.c.into());
        let (i, tos, count, rate) = (r.b.into(), r.b.into(), r.b.into(), r.b.into());
        Ok(match r.operation {
            224 => Self::New { time },
            225 => Self::Register { time, id, class },
            226 => Self::Eagain { time },
            227 => Self::Tos { time, tos },
            228 => Self::Nacks { time, count },
            229 => Self::Rtt { time, peer, sample },
            230 => Self::Tick { time },
            231 => Self::SetRate { time, rate },
            232 => Self::HandIn(r.into()),
            233 => Self::Send { time, i },
            234 => Self::Calls(r.a.into()),
            235 => Self::Place {
                i: (r.a.0 % PACER_PLACES) as u8,
            },
            236 => Self::Controller,
            _ => return Err(Unknown),
        })
    }
}

impl From<Record> for HandedIn {
    fn from(r: Record) -> HandedIn {
        HandedIn {
            time: r.a.into(),
            i: r.b.into(),
            class: r.c.into(),
            key: InstanceKey::new(r.d.0, r.e.0),
        }
    }
}

// A station of the largest queues.
pub(crate) type FullStation = Station<128, 512, 128>;

// Before the first record.
pub(crate) fn first() -> Result<FullStation, Refusal> {
    FullStation::new(narrow(), 0)
}

impl Operation for StationOperation {
    type State = FullStation;

    fn play(self, station: &mut FullStation, desk: &mut Desk, line: Line) -> Result<Line, Refusal> {
        let outcome = match self {
            Self::New { time } => Outcome::remade(FullStation::new(desk.settings, time)?, station),
            Self::Register { time, id, class } => Outcome::plain(station.register(time, id, class)),
            Self::Eagain { time } => Outcome::plain(station.on_eagain(time)),
            Self::Tos { time, tos } => Outcome::flag(station.on_ecn_tos(time, tos)),
            Self::Nacks { time, count } => Outcome::plain(station.on_nacks(time, count)),
            Self::Rtt { time, peer, sample } => {
                Outcome::plain(station.on_rtt_sample(time, peer, sample))
            }
            Self::Tick { time } => Outcome::shared(station.tick(time)),
            Self::SetRate { time, rate } => Outcome::rate(station.set_rate(time, rate)),
            Self::HandIn(handed) => hand_in(station, desk, handed),
            Self::Send { time, i } => return Ok(send(station, desk, time, i, line)),
            Self::Calls(calls) => Outcome::remade(station.resumed(calls), station),
            Self::Place { i } => return Ok(line.with(Place::at(station, i))),
            Self::Controller => return Ok(with_controller(line, station)),
        };
        let quiet = line
            .with(outcome)
            .with(SendAction::Empty)
            .with(DIGEST_START);
        Ok(with_station(quiet, station, outcome.updated, desk.pool.all()))
    }

    fn nothing(line: Line) -> Line {
        line.with_zeros(43)
    }
}

// The bytes of the buffer go into the lent part of the pool.
fn hand_in(station: &mut FullStation, desk: &mut Desk, handed: HandedIn) -> Outcome {
    let (pool, bytes) = (desk.pool.lent_mut(), desk.bytes.as_slice());
    Outcome::plain(station.hand_in(pool, handed.time, handed.i, handed.class, handed.key, bytes))
}

// A send attempt, and its line: the action, and the bytes of a sent record as the lent part of the pool holds them.
fn send(station: &mut FullStation, desk: &Desk, time: u64, i: u8, line: Line) -> Line {
    let lent = desk.pool.lent();
    let answer = station.send(lent, time, i);
    let action = answer.unwrap_or(SendAction::Empty);
    let bytes = sent_bytes(station.config().pacer(), i, action, lent);
    let acted = line
        .with(answer.number())
        .with(false)
        .with(action)
        .with(hash_bytes(bytes));
    with_station(acted, station, false, desk.pool.all())
}

// The ledger, the rate, the score, the count of writers and their budgets; the places; and the digests of the controller, of
// the updates and of the bytes that wait.
fn with_station(line: Line, station: &FullStation, updated: bool, pool: &[u8]) -> Line {
    let controller = station.controller();
    let core = controller.core();
    let headed = line
        .with(station.ledger())
        .with(core.rate())
        .with(core.scorer().score())
        .with(station.roster().count());
    let limits = station.config().pacer().limits();
    with_places(with_budgets(headed, controller.allocator()), station)
        .with(with_controller(Line::default(), station).digest())
        .with(updates_if(updated, controller.allocator()))
        .with(waiting_bytes(limits, station, pool))
}

// Those of the table's first four rows; a blank row has 0.
fn with_budgets(line: Line, allocator: &BudgetAllocator) -> Line {
    let rows = allocator.table().rows();
    rows.iter()
        .take(4)
        .fold(line, |line, row| line.with(row.budget_bps))
}

// Of each place the bucket, P0's forced sends, and the digest of all that is shown of it.
fn with_places(line: Line, station: &FullStation) -> Line {
    let mut line = line;
    for i in 0..PACER_PLACES as u8 {
        let place = Place::at(station, i);
        line = match place.pacer {
            Some(pacer) => line
                .with(pacer.tokens())
                .with(pacer.metrics().force_sends_p0),
            None => line.with_zeros(5),
        };
        line = line.with(Line::default().with(place).digest());
    }
    line
}

// The controller and the digests of its tables.
fn with_controller(line: Line, station: &FullStation) -> Line {
    let controller = station.controller();
    line.with(station.config().controller().enabled)
        .with(*controller)
        .with(writers(controller.allocator()))
        .with(peers_ops::digest(controller.tracker()))
}

// A place of the roster: its number, its writer's id, and its pacer where a writer has it.
#[derive(Clone, Copy)]
struct Place<'a> {
    i: u8,
    id: u64,
    pacer: Option<&'a Pacer>,
}

impl Place<'_> {
    fn at(station: &FullStation, i: u8) -> Place<'_> {
        let roster = station.roster();
        let taken = i < roster.count();
        Place {
            i,
            id: roster.id(i),
            pacer: if taken { roster.pacer(i) } else { None },
        }
    }
}

// Its number, the writer's id, its pacer and what waits; of a place that no writer has, zeros.
impl Shown for Place<'_> {
    fn show(self, line: Line) -> Line {
        let headed = line.with(self.i).with(self.id);
        match self.pacer {
            Some(pacer) => headed.with(pacer).with(waiting(pacer)),
            None => headed.with_zeros(22).with(DIGEST_START),
        }
    }
}

// The digest of the digests of every waiting record's bytes, as the pool holds them; a place that no writer has holds nothing.
fn waiting_bytes(limits: Limits, station: &FullStation, pool: &[u8]) -> u64 {
    let mut digest = DIGEST_START;
    for i in 0..PACER_PLACES as u8 {
        if let Some(pacer) = Place::at(station, i).pacer {
            for class in [Priority::P0, Priority::P1, Priority::P2] {
                digest = joined_class(digest, limits, pacer, i, class, pool);
            }
        }
    }
    digest
}

fn joined_class(
    digest: u64,
    limits: Limits,
    pacer: &Pacer,
    i: u8,
    class: Priority,
    pool: &[u8],
) -> u64 {
    // Stays: [3] a queue is a ring, which has no slice to iterate over.
    (0..pacer.len(class)).fold(digest, |d, place| {
        let start = pool::slot_start(limits, i, class, pacer.slot(class, place));
        let length = pacer.entry_at(class, place).map_or(0, |e| e.entry.length);
        joined(d, &[hash_bytes(pool::shown(pool, start, length as usize))])
    })
}
