// What a call on an allocator, a controller or a station came to.
use crate::line::{Line, Shown};
use crate::operation::taken;
use config::alone::Left;
use config::answer::Numbered;
use config::refusal::Refusal;

// The answer's number as a line shows it, that of a refusal or of a full queue; the flag that it gives, or false; and whether
// budgets were shared out. By default a call was accepted and told nothing.
// Stays: [1] the three that a line shows; a full queue's 12 is the number of an accepted call, so that a `Result` would not tell it.
#[derive(Clone, Copy, Default)]
pub(crate) struct Outcome {
    pub(crate) number: u8,
    pub(crate) told: bool,
    pub(crate) updated: bool,
}

impl Outcome {
    // What was made takes the state's place.
    pub(crate) fn remade<S: Drop>(made: S, state: &mut S) -> Outcome {
        *state = made;
        Outcome::default()
    }

    // Of an answer the number alone counts.
    pub(crate) fn plain<T: Numbered + Drop>(answer: Result<T, Refusal>) -> Outcome {
        Outcome {
            number: answer.number(),
            ..Outcome::default()
        }
    }

    // An answer that gives a flag.
    pub(crate) fn flag(answer: Result<bool, Refusal>) -> Outcome {
        Outcome {
            number: answer.map(|_| ()).number(),
            told: answer.unwrap_or(false),
            updated: false,
        }
    }

    // The same where the flag tells that budgets were shared out.
    pub(crate) fn shared(answer: Result<bool, Refusal>) -> Outcome {
        let outcome = Outcome::flag(answer);
        Outcome {
            updated: outcome.told,
            ..outcome
        }
    }

    // A rate is shared out where it is not turned down, which it tells.
    pub(crate) fn rate(answer: Result<(), Refusal>) -> Outcome {
        Outcome::shared(answer.map(|()| true))
    }

    // What a call by value leaves is taken over; of its answer the number alone counts.
    pub(crate) fn left<S: Drop, T: Numbered + Drop>(left: Left<S, T>, state: &mut S) -> Outcome {
        Outcome::plain(taken(left, state))
    }

    // The same of a call that gives a flag.
    pub(crate) fn told<S: Drop>(left: Left<S, bool>, state: &mut S) -> Outcome {
        Outcome::flag(taken(left, state))
    }

    // The same where the flag tells that budgets were shared out.
    pub(crate) fn shared_out<S: Drop>(left: Left<S, bool>, state: &mut S) -> Outcome {
        Outcome::shared(taken(left, state))
    }

    // The same of a rate, but that it is shared out is not told.
    pub(crate) fn rated<S: Drop>(left: Left<S, ()>, state: &mut S) -> Outcome {
        Outcome {
            told: false,
            ..Outcome::rate(taken(left, state))
        }
    }
}

// The number and the flag.
impl Shown for Outcome {
    fn show(self, line: Line) -> Line {
        line.with(self.number).with(self.told)
    }
}
