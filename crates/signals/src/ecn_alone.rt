// A processor used alone: `Alone::new(0, EcnProcessor::default())` is one with no call yet. Its calls take no times.
ghost use Rattle.std.specs.Prelude.{◌≡◌};
ghost use Rattle.signals.specs.EcnAlone.{tos_alone, ce_alone};

use crate::ecn::EcnProcessor;
use config::alone::{Alone, Left};

// Counts a packet by its TOS byte, and tells whether congestion is to be signalled.
pub fn process_tos(alone: Alone<EcnProcessor>, tos: u8) -> Left<Alone<EcnProcessor>, bool>
    ensures { result ≡ tos_alone alone tos }
{
    let ledger = alone.ledger;
    alone.after(ledger.check_counted(), ledger.counted(), |processor| {
        processor.process_tos(tos)
    })
}

// A single mark is signalled at once.
pub fn process_ce(alone: Alone<EcnProcessor>) -> Left<Alone<EcnProcessor>, bool>
    ensures { result ≡ ce_alone alone }
{
    let ledger = alone.ledger;
    alone.after(ledger.check_counted(), ledger.counted(), |processor| {
        processor.process_ce()
    })
}
