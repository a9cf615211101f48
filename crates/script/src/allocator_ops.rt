// The budget allocator, over the settings.
use crate::desk::Desk;
use crate::digest::{DIGEST_START, joined};
use crate::line::{Line, Shown};
use crate::operation::Operation;
use crate::outcome::Outcome;
use crate::words::{Record, Unknown};
use config::alone::Alone;
use config::config::{CongestionConfig, Priority};
use config::refusal::Refusal;
use control::budget_allocator::{BudgetAllocator, WriterInfo};
use control::budget_allocator_alone;
use control::budget_allocator_alone::ConfiguredAllocator;
use std::num::f32_to_bits_with_nan;

#[derive(Clone, Copy)]
pub(crate) enum AllocatorOperation {
    New,
    Register {
        id: u64,
        class: Priority,
    },
    RegisterWeighted {
        id: u64,
        class: Priority,
        weight: f32,
    },
    Unregister {
        id: u64,
    },
    Reallocate {
        rate: u32,
    },
    Calls(u64),
    Show {
        place: usize,
    },
}

// Places of a table of writers.
const WRITER_PLACES: u64 = 64;

impl TryFrom<Record> for AllocatorOperation {
    type Error = Unknown;

    // Stays: [2] the numbers and arguments are this suite's own; the gate refuses impls that a macro of ours would write.
    fn try_from(r: Record) -> Result<Self, Unknown> {
        let id = r.a.into();
        let class = r.b.into();
        Ok(match r.operation {
            192 => Self::New,
            193 => Self::Register { id, class },
            194 => Self::RegisterWeighted {
                id,
                class,
                weight: r.c.into(),
            },
            195 => Self::Unregister { id },
            196 => Self::Reallocate { rate: r.a.into() },
            197 => Self::Calls(r.a.into()),
            198 => Self::Show {
                place: (r.a.0 % WRITER_PLACES) as usize,
            },
            _ => return Err(Unknown),
        })
    }
}

// Before the first record.
pub(crate) fn first() -> Result<Alone<ConfiguredAllocator>, Refusal> {
    budget_allocator_alone::with_config(CongestionConfig::default())
}

impl Operation for AllocatorOperation {
    type State = Alone<ConfiguredAllocator>;

    fn play(
        self,
        alone: &mut Alone<ConfiguredAllocator>,
        desk: &mut Desk,
        line: Line,
    ) -> Result<Line, Refusal> {
        let outcome = match self {
            Self::New => {
                Outcome::remade(budget_allocator_alone::with_config(desk.settings)?, alone)
            }
            Self::Register { id, class } => Outcome::left(
                budget_allocator_alone::register(*alone, id, class),
                alone,
            ),
            Self::RegisterWeighted { id, class, weight } => Outcome::left(
                budget_allocator_alone::register_weighted(*alone, id, class, weight),
                alone,
            ),
            Self::Unregister { id } => {
                Outcome::told(budget_allocator_alone::unregister(*alone, id), alone)
            }
            Self::Reallocate { rate } => {
                Outcome::rated(budget_allocator_alone::reallocate(*alone, rate), alone)
            }
            Self::Calls(calls) => Outcome::remade(alone.resumed(calls), alone),
            Self::Show { place } => {
                let writer = alone.inner.allocator.table().writer_at(place);
                return Ok(line.with(place).with(writer));
            }
        };
        let allocator = &alone.inner.allocator;
        let line = line
            .with(outcome)
            .with(*allocator)
            .with(alone.ledger.calls());
        let updates = updates_if(outcome.updated, allocator);
        Ok(line.with(writers(allocator)).with(updates))
    }

    fn nothing(line: Line) -> Line {
        line.with_zeros(8).with(DIGEST_START).with(DIGEST_START)
    }
}

// The counts, the rate shared out last and the statistics.
impl Shown for BudgetAllocator {
    fn show(self, line: Line) -> Line {
        let stats = self.stats();
        line.with(self.table().count())
            .with(self.global_budget())
            .with(stats.reallocations)
            .with(stats.writers_registered)
            .with(stats.writers_unregistered)
            .with(stats.total_distributed_bps)
    }
}

// A blank row is all zeros.
impl Shown for WriterInfo {
    fn show(self, line: Line) -> Line {
        line.with(self.id)
            .with(u8::from(self.priority))
            .with(self.weight)
            .with(self.budget_bps)
    }
}

// The digest of the writers by class and then by id.
pub(crate) fn writers(allocator: &BudgetAllocator) -> u64 {
    let table = allocator.table();
    table
        .writers()
        .iter()
        .fold(DIGEST_START, |d, writer| joined_writer(d, writer))
}

// The digest of the updates that the rows tell, in their order, where a call told any; else of nothing.
pub(crate) fn updates_if(told: bool, allocator: &BudgetAllocator) -> u64 {
    if !told {
        return DIGEST_START;
    }
    let table = allocator.table();
    table
        .writers()
        .iter()
        .fold(DIGEST_START, |d, writer| joined_update(d, writer))
}

fn joined_writer(digest: u64, writer: &WriterInfo) -> u64 {
    joined(
        digest,
        &[
            writer.id,
            u8::from(writer.priority).into(),
            f32_to_bits_with_nan(writer.weight).into(),
            writer.budget_bps.into(),
        ],
    )
}

fn joined_update(digest: u64, writer: &WriterInfo) -> u64 {
    joined(
        digest,
        &[
            writer.id,
            writer.previous_bps.into(),
            writer.budget_bps.into(),
        ],
    )
}
