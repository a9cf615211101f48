// A token bucket: tokens are earned at a rate up to a capacity, and each send takes as many as the record has bytes.
ghost use Rattle.std.specs.Prelude.{◌≡◌};
ghost use Rattle.pacing.specs.TokenBucket.{credit, wait_of, made, refilled, tried, forced, rated, resized, told};

#[derive(Clone, Copy, Debug, PartialEq, Eq)]
pub struct TokenBucket {
    pub(crate) tokens: u64,
    pub(crate) capacity: u64,
    pub(crate) rate_bps: u32,
    pub(crate) last_refill: u64,
}

// What `nanos` nanoseconds earn at a rate.
fn credit_of(nanos: u64, rate_bps: u32) -> u64
    ensures { result ≡ credit nanos rate_bps }
{
    numeric::float::u64_of_f64(
        numeric::duration::as_secs_f64(nanos) * numeric::float::f64_of_u64(rate_bps as u64),
    )
}

// How long `bytes` tokens take to earn at a rate.
fn wait_of(bytes: u64, rate_bps: u32) -> u64
    ensures { result ≡ wait_of bytes rate_bps }
{
    numeric::duration::from_secs_f64(
        numeric::float::f64_of_u64(bytes) / numeric::float::f64_of_u64(rate_bps as u64),
    )
}

// The steps: total, with no refusals.
impl TokenBucket {
    // A full bucket.
    // Stays: [5] the struct of these three is `TokenBucket`; `new` makes it once they are checked.
    pub fn new(time: u64, rate_bps: u32, capacity: u64) -> TokenBucket
        ensures { result ≡ made time rate_bps capacity }
    {
        TokenBucket {
            tokens: capacity,
            capacity,
            rate_bps,
            last_refill: time,
        }
    }

    // The tokens that the elapsed time earns; a credit of 0 leaves the refill time.
    pub fn refill(self, time: u64) -> TokenBucket
        ensures { result ≡ refilled self time }
    {
        let elapsed = time.saturating_sub(self.last_refill);
        let add = credit_of(elapsed, self.rate_bps);
        if add > 0 {
            TokenBucket {
                tokens: self.tokens.saturating_add(add).min(self.capacity),
                last_refill: time,
                ..self
            }
        } else {
            self
        }
    }

    // Takes the tokens where they suffice, and none otherwise; and whether they were taken.
    pub fn try_consume(self, time: u64, bytes: u64) -> (TokenBucket, bool)
        ensures { result ≡ tried self time bytes }
    {
        let mut b = self.refill(time);
        let taken = b.tokens >= bytes;
        if taken {
            b.tokens -= bytes;
        }
        (b, taken)
    }

    // Takes the tokens, down to 0 where they do not suffice: an urgent record always goes.
    pub fn force_consume(self, time: u64, bytes: u64) -> TokenBucket
        ensures { result ≡ forced self time bytes }
    {
        let b = self.refill(time);
        TokenBucket {
            tokens: b.tokens.saturating_sub(bytes),
            ..b
        }
    }

    // Refills at the old rate, then takes the new one.
    pub fn set_rate(self, time: u64, rate_bps: u32) -> TokenBucket
        ensures { result ≡ rated self time rate_bps }
    {
        let b = self.refill(time);
        TokenBucket { rate_bps, ..b }
    }

    // A new capacity; tokens beyond it are lost.
    pub fn set_capacity(self, capacity: u64) -> TokenBucket
        ensures { result ≡ resized self capacity }
    {
        TokenBucket {
            tokens: self.tokens.min(capacity),
            capacity,
            ..self
        }
    }

    // The nanoseconds until `bytes` tokens are there; 0 where they are.
    pub fn time_until_available(self, time: u64, bytes: u64) -> (TokenBucket, u64)
        ensures { result ≡ told self time bytes }
    {
        let b = self.refill(time);
        if b.tokens >= bytes {
            (b, 0)
        } else {
            (b, wait_of(bytes - b.tokens, b.rate_bps))
        }
    }

    pub fn tokens(self) -> u64
        ensures { result ≡ self.tokens }
    {
        self.tokens
    }

    pub fn capacity(self) -> u64
        ensures { result ≡ self.capacity }
    {
        self.capacity
    }

    pub fn rate(self) -> u32
        ensures { result ≡ self.rate_bps }
    {
        self.rate_bps
    }

    pub fn last_refill(self) -> u64
        ensures { result ≡ self.last_refill }
    {
        self.last_refill
    }
}
