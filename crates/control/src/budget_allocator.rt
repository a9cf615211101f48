// Shares of the rate: a table of up to 64 writers by class and then by id, and what each gets of a rate.
#![tactic(auto, unfolding(crate::specs::BudgetAllocator::comes_before, crate::specs::BudgetAllocator::place_of, crate::specs::BudgetAllocator::place_for, crate::specs::BudgetAllocator::with_row, crate::specs::BudgetAllocator::without_row, crate::specs::BudgetAllocator::entered, crate::specs::BudgetAllocator::is_known, crate::specs::BudgetAllocator::without, crate::specs::BudgetAllocator::budget_of, crate::specs::BudgetAllocator::full_for, crate::specs::BudgetAllocator::weighed, crate::specs::BudgetAllocator::share_of, crate::specs::BudgetAllocator::reserve_of, crate::specs::BudgetAllocator::split_of, crate::specs::BudgetAllocator::urgent_part, crate::specs::BudgetAllocator::shares_of, crate::specs::BudgetAllocator::budget_for, crate::specs::BudgetAllocator::with_budget, crate::specs::BudgetAllocator::allotted_table, crate::specs::BudgetAllocator::registered, crate::specs::BudgetAllocator::unregistered, crate::specs::BudgetAllocator::reallocated, crate::specs::BudgetAllocator::weights_from, crate::specs::BudgetAllocator::left_from, crate::specs::BudgetAllocator::distributed_from))]

ghost use Rattle.std.specs.Prelude.{◌≡◌, ◌≤◌, ◌<◌};
ghost use Rattle.config.specs.PerClass.{value_at};
ghost use Rattle.control.specs.BudgetAllocator.{allocation_config_of, comes_before, taken_of, place_of, place_for, with_row, without_row, new_table, writers_of, entered, is_known, budget_of, without, full_for, writer_at, no_weights, weighed, weights_from, share_of, reserve_of, split_of, urgent_part, left_from, shares_of, budget_for, with_budget, allotted_table, distributed_from, one, registered, unregistered, reallocated};

use config::config::{CongestionConfig, Priority};
use config::per_class::PerClass;
use numeric::float::{max_f32, scaled_u32};

// Writers that the table holds.
const MOST_WRITERS: usize = 64;

// What a writer gets at least, in bytes per second.
const MIN_PER_WRITER: u32 = 1000;

// What the settings guarantee P0: a share of the rate, and bytes per second.
#[derive(Clone, Copy, Debug, PartialEq)]
pub struct AllocationConfig {
    pub p0_min_share: f32,
    pub p0_min_bps: u32,
}

impl From<CongestionConfig> for AllocationConfig {
    ghost from_gives = { λ config allocation. allocation ≡ allocation_config_of config };

    fn from(config: CongestionConfig) -> AllocationConfig {
        AllocationConfig {
            p0_min_share: config.p0_min_share,
            p0_min_bps: config.p0_min_bps,
        }
    }
}

// A writer: its class, its weight within the class, its budget, and the one before that.
#[derive(Clone, Copy, Debug, PartialEq)]
pub struct WriterInfo {
    pub id: u64,
    pub priority: Priority,
    pub weight: f32,
    pub budget_bps: u32,
    pub previous_bps: u32,
}

// A row that no writer has.
const BLANK: WriterInfo = WriterInfo {
    id: 0,
    priority: Priority::P0,
    weight: 0.0,
    budget_bps: 0,
    previous_bps: 0,
};

impl WriterInfo {
    // By class, then by id.
    // Stays: [4] an order by two fields of five: `PartialOrd` would have to agree with the derived `==`, which compares all.
    fn comes_before(&self, other: &WriterInfo) -> bool
        ensures { result ≡ comes_before self.now other.now }
    {
        (self.priority, self.id) < (other.priority, other.id)
    }

    // What a P0 writer takes of the rate before the other classes.
    fn urgent_part(&self, reserve: u32, total: f32) -> u32
        ensures { result ≡ urgent_part reserve total self.now }
    {
        match self.priority {
            Priority::P0 => share(reserve, self.weight, total),
            Priority::P1 | Priority::P2 => 0,
        }
    }

    // A writer's part of what its class has.
    fn budget_for(&self, shares: Shares) -> u32
        ensures { result ≡ budget_for shares self.now }
    {
        let total = shares.weights.at(self.priority);
        share(shares.budgets.at(self.priority), self.weight, total)
    }

    // The new budget; the old one is kept beside it.
    fn with_budget(&self, shares: Shares) -> WriterInfo
        ensures { result ≡ with_budget shares self.now }
    {
        WriterInfo {
            budget_bps: self.budget_for(shares),
            previous_bps: self.budget_bps,
            ..*self
        }
    }
}

// How many rows are taken: the count, held to the table's size.
// Stays: [2] a line over the size of its own table; the peers' is another's, and one for both would take the size along.
fn taken(count: u16) -> usize
    ensures { result ≡ taken_of count }
{
    usize::from(count).min(MOST_WRITERS)
}

// Writers by class and then by id, from row 0.
// Stays: [6] an array and a count: `rows` shows all 64 rows, blank ones too, and the library's vector of fixed room is not Copy and has no rows beyond its length.
#[derive(Clone, Copy, Debug, PartialEq)]
pub struct WriterTable {
    pub(crate) rows: [WriterInfo; 64],
    pub(crate) count: u16,
}

// No writers.
impl Default for WriterTable {
    ghost is_default = { λ table. table ≡ new_table };

    fn default() -> WriterTable {
        WriterTable {
            rows: [BLANK; 64],
            count: 0,
        }
    }
}

impl WriterTable {
    // The rows that are taken.
    pub fn writers(&self) -> &[WriterInfo]
        ensures { result.now ≡ writers_of self.now }
    {
        &self.rows[..taken(self.count)]
    }

    // The row of a writer, or the number of rows taken where it is not there.
    // Stays: [1] its definition (`place_of`), under theorems that pages name, gives the number of rows taken where the writer is not there.
    fn place_of(&self, id: u64) -> usize
        ensures { result ≡ place_of self.now id }
    {
        self.writers()
            .iter()
            .position(|row| row.id == id)
            .unwrap_or(taken(self.count))
    }

    // The row for a new writer: before the first that comes after it.
    fn place_for(&self, writer: WriterInfo) -> usize
        ensures place { result ≡ place_for self.now writer }
        ensures within { result ≤ taken_of self.now.count }
    {
        self.writers()
            .iter()
            .position(|row| writer.comes_before(row))
            .unwrap_or(taken(self.count))
    }

    // A writer takes a row; that row and those after it move on by one, up to the first free one.
    #[tactic(auto, using(crate::proofs::Rows::carry_on, std::proofs::lemmas::Grind::common_steps))]
    fn put_row(&mut self, place: usize, writer: WriterInfo)
        requires within { place ≤ taken_of self.old.count }
        requires room { taken_of self.old.count < 64 }
        ensures { self.new ≡ with_row self.old place writer }
    {
        let n = taken(self.count);
        let mut carried = writer;
        for row in &mut self.rows[place..=n] {
            carried = std::mem::replace(row, carried);
        }
    }

    // A row is given up; those after it move up by one, and a blank row comes last.
    #[tactic(auto, using(crate::proofs::Rows::carry_back, std::proofs::lemmas::Grind::common_steps))]
    fn drop_row(&mut self, place: usize)
        requires { place < 64 }
        ensures { self.new ≡ without_row self.old place }
    {
        let mut carried = BLANK;
        for k in (place..MOST_WRITERS).rev() {
            carried = std::mem::replace(&mut self.rows[k], carried);
        }
    }

    // A new writer takes its row; a full table takes none.
    fn enter(&mut self, writer: WriterInfo)
        ensures { self.new ≡ entered self.old writer }
    {
        let n = taken(self.count);
        if n < MOST_WRITERS {
            let place = self.place_for(writer);
            self.put_row(place, writer);
            self.count = n as u16 + 1;
        }
    }

    fn is_known(&self, id: u64) -> bool
        ensures { result ≡ is_known self.now id }
    {
        self.place_of(id) < taken(self.count)
    }

    // A writer that is there goes.
    fn remove(&mut self, id: u64)
        ensures { self.new ≡ without self.old id }
    {
        let n = taken(self.count);
        let place = self.place_of(id);
        if place < n {
            self.drop_row(place);
            self.count = n as u16 - 1;
        }
    }

    // Whether a writer is not there and there is no room for it.
    fn is_full_for(&self, id: u64) -> bool
        ensures { result ≡ full_for self.now id }
    {
        !self.is_known(id) && taken(self.count) >= MOST_WRITERS
    }

    pub fn count(&self) -> u16
        ensures { result ≡ self.now.count }
    {
        self.count
    }

    // All rows at once, for a reader of every update.
    pub fn rows(&self) -> &[WriterInfo; 64]
        ensures { result.now ≡ self.now.rows }
    {
        &self.rows
    }

    // The budget of a writer in bytes per second, where it is there.
    pub fn budget_of(&self, id: u64) -> Option<u32>
        ensures { result ≡ budget_of self.now id }
    {
        self.writers()
            .get(self.place_of(id))
            .map(|row| row.budget_bps)
    }

    // The writer in a row, blank where none stands.
    pub fn writer_at(&self, place: usize) -> WriterInfo
        ensures { result ≡ writer_at self.now place }
    {
        if place < taken(self.count) {
            self.rows[place]
        } else {
            BLANK
        }
    }

    // The weights, summed by class and then by id.
    fn weights(&self) -> PerClass<f32>
        ensures { result ≡ weights_from no_weights (writers_of self.now) }
    {
        let mut sums = PerClass::default();
        for row in self.writers() {
            let total = sums.at(row.priority) + row.weight;
            sums.set(row.priority, total);
        }
        sums
    }

    // What P0's writers leave of a rate.
    fn left(&self, rate_bps: u32, reserve: u32, total: f32) -> u32
        ensures { result ≡ left_from reserve total rate_bps (writers_of self.now) }
    {
        let mut left = rate_bps;
        for row in self.writers() {
            left = left.saturating_sub(row.urgent_part(reserve, total));
        }
        left
    }

    // What each class has to share out of a rate, and its weights.
    fn shares(&self, config: AllocationConfig, rate_bps: u32) -> Shares
        ensures { result ≡ shares_of config rate_bps (writers_of self.now) }
    {
        let weights = self.weights();
        let p0 = reserve(config, rate_bps);
        let left = self.left(rate_bps, p0, weights.p0);
        let p1 = split(left);
        Shares {
            weights,
            budgets: PerClass {
                p0,
                p1,
                p2: left.saturating_sub(p1),
            },
        }
    }

    // Every writer gets its budget.
    #[tactic(auto, using(std::proofs::lemmas::List::Edits::map_over_more, std::proofs::lemmas::Grind::common_steps), unfolding(crate::specs::BudgetAllocator::allotted_table))]
    fn allot(&mut self, shares: Shares)
        ensures { self.new ≡ allotted_table self.old shares }
    {
        let n = taken(self.count);
        for row in &mut self.rows[..n] {
            *row = row.with_budget(shares);
        }
    }

    // A sum with every writer's budget.
    fn distributed(&self, sum: u64) -> u64
        ensures { result ≡ distributed_from sum (writers_of self.now) }
    {
        let mut total = sum;
        for row in self.writers() {
            total = total.saturating_add(u64::from(row.budget_bps));
        }
        total
    }
}

// The weights of each class's writers together, and what each class has to share out, in bytes per second.
#[derive(Clone, Copy, Debug, PartialEq)]
pub struct Shares {
    pub weights: PerClass<f32>,
    pub budgets: PerClass<u32>,
}

// A weight's part of a budget, at least the least of a writer.
fn share(budget: u32, weight: f32, total: f32) -> u32
    ensures { result ≡ share_of budget weight total }
{
    scaled_u32(budget, weight / total).max(MIN_PER_WRITER)
}

// What P0 has to share out: its share of the rate, or more where it is guaranteed more.
fn reserve(config: AllocationConfig, rate_bps: u32) -> u32
    ensures { result ≡ reserve_of config rate_bps }
{
    scaled_u32(rate_bps, config.p0_min_share).max(config.p0_min_bps)
}

// P1's part of what P0's writers leave; the rest is P2's.
fn split(left: u32) -> u32
    ensures { result ≡ split_of left }
{
    scaled_u32(left, 0.7)
}

#[derive(Clone, Copy, Debug, PartialEq, Eq, Default)]
pub struct AllocationStats {
    pub reallocations: u64,
    pub writers_registered: u64,
    pub writers_unregistered: u64,
    pub total_distributed_bps: u64,
}

#[derive(Clone, Copy, Debug, PartialEq, Default)]
pub struct BudgetAllocator {
    pub(crate) table: WriterTable,
    pub(crate) global_budget_bps: u32,
    pub(crate) stats: AllocationStats,
}

// The steps: total, with no refusals.
impl BudgetAllocator {
    // A writer of weight 1.
    pub fn register(&mut self, id: u64, priority: Priority)
        ensures { self.new ≡ registered self.old id priority one }
    {
        self.register_weighted(id, priority, 1.0);
    }

    // A known id is replaced, budget and all; weights below 0.1 count as 0.1.
    pub fn register_weighted(&mut self, id: u64, priority: Priority, weight: f32)
        ensures { self.new ≡ registered self.old id priority weight }
    {
        self.table.remove(id);
        self.table.enter(WriterInfo {
            id,
            priority,
            weight: max_f32(weight, 0.1),
            ..BLANK
        });
        self.stats.writers_registered = self.stats.writers_registered.saturating_add(1);
    }

    // Whether the writer was there.
    pub fn unregister(&mut self, id: u64) -> bool
        ensures { (self.new, result) ≡ unregistered self.old id }
    {
        let found = self.table.is_known(id);
        if found {
            self.table.remove(id);
            self.stats.writers_unregistered = self.stats.writers_unregistered.saturating_add(1);
        }
        found
    }

    // A rate is shared out anew; each writer's row then tells its update.
    pub fn reallocate(&mut self, config: AllocationConfig, rate_bps: u32)
        ensures { self.new ≡ reallocated self.old config rate_bps }
    {
        let shares = self.table.shares(config, rate_bps);
        self.table.allot(shares);
        self.global_budget_bps = rate_bps;
        self.stats.reallocations = self.stats.reallocations.saturating_add(1);
        self.stats.total_distributed_bps = self.table.distributed(self.stats.total_distributed_bps);
    }

    pub fn is_full_for(&self, id: u64) -> bool
        ensures { result ≡ full_for self.now.table id }
    {
        self.table.is_full_for(id)
    }

    pub fn table(&self) -> &WriterTable
        ensures { result.now ≡ self.now.table }
    {
        &self.table
    }

    pub fn global_budget(&self) -> u32
        ensures { result ≡ self.now.global_budget_bps }
    {
        self.global_budget_bps
    }

    pub fn stats(&self) -> AllocationStats
        ensures { result ≡ self.now.stats }
    {
        self.stats
    }
}
