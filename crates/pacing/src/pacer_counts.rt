// What a pacer counts. Each count stops at the largest u64.
ghost use Rattle.std.specs.Prelude.{◌≡◌};
ghost use Rattle.pacing.specs.WriterPacer.{counted, hand_in_noted, sent_of, send_noted};

use crate::send_action::SendAction;
use config::config::Priority;
use config::per_class::PerClass;
use queue::fate::Fate;

// Records taken and sent by class, P1's that were pushed out, bytes sent, attempts that were told to wait, and P0's that went without tokens. P2's
// samples that were replaced or pushed out are counted in its queue.
#[derive(Clone, Copy, Debug, PartialEq, Eq, Default)]
pub struct PacerCounts {
    pub enqueued: PerClass<u64>,
    pub sent: PerClass<u64>,
    pub dropped_p1: u64,
    pub bytes_sent: u64,
    pub rate_limited: u64,
    pub force_sends_p0: u64,
}

// The Rust's metrics.
#[derive(Clone, Copy, Debug, PartialEq, Eq, Default)]
pub struct WriterPacerMetrics {
    pub enqueued_p0: u64,
    pub enqueued_p1: u64,
    pub enqueued_p2: u64,
    pub sent_p0: u64,
    pub sent_p1: u64,
    pub sent_p2: u64,
    pub dropped_p1: u64,
    pub coalesced_p2: u64,
    pub dropped_p2: u64,
    pub bytes_sent: u64,
    pub rate_limited: u64,
    pub force_sends_p0: u64,
}

// One more in the count of a class.
fn count_one(counts: &mut PerClass<u64>, class: Priority)
    ensures { counts.new ≡ counted counts.old class }
{
    counts.set(class, counts.at(class).saturating_add(1));
}

impl PacerCounts {
    // What a hand-in adds; a full queue adds nothing.
    pub(crate) fn note_hand_in(&mut self, class: Priority, fate: Fate)
        ensures { self.new ≡ hand_in_noted self.old class fate }
    {
        if fate.is_full() {
            return;
        }
        count_one(&mut self.enqueued, class);
        if matches!(class, Priority::P1) && matches!(fate, Fate::PushedOut) {
            self.dropped_p1 = self.dropped_p1.saturating_add(1);
        }
    }

    // What a record sent adds.
    fn note_sent(&mut self, class: Priority, length: u64)
        ensures { self.new ≡ sent_of self.old class length }
    {
        count_one(&mut self.sent, class);
        self.bytes_sent = self.bytes_sent.saturating_add(length);
    }

    // What a send attempt adds.
    pub(crate) fn note_send(&mut self, action: SendAction)
        ensures { self.new ≡ send_noted self.old action }
    {
        match action {
            SendAction::Send {
                class,
                length,
                forced,
                ..
            } => {
                self.note_sent(class, length);
                if forced {
                    self.force_sends_p0 = self.force_sends_p0.saturating_add(1);
                }
            }
            SendAction::Empty => {}
            SendAction::RateLimited(_) => self.rate_limited = self.rate_limited.saturating_add(1),
        }
    }
}
