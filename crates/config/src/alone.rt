// A module used alone: its state under a ledger of its own. One shell for every call of every module.
ghost use Rattle.std.specs.Prelude.{◌≡◌, IfErr, OnOk};
ghost use Rattle.std.specs.Fn.{FnOnceReturnsAtMut};
ghost use Rattle.config.specs.Alone.{turned_down, taken, begun, resumed_alone};

use crate::ledger::Ledger;
use crate::refusal::Refusal;

// A module's state, and the count and the last time of the calls on it.
#[derive(Clone, Copy, Debug, PartialEq, Drop)]
pub struct Alone<M> {
    pub ledger: Ledger,
    pub inner: M,
}

// What a call leaves, and what it answers: nothing but the reason where it is turned down.
#[derive(Clone, Copy, Debug, PartialEq)]
pub struct Left<S, T> {
    pub state: S,
    pub answer: Result<T, Refusal>,
}

impl<M: Drop> Alone<M> {
    // A module with no call yet; the time of its making is its first last time.
    pub fn new(time: u64, inner: M) -> Alone<M>
        ensures { result ≡ begun time inner }
    {
        Alone {
            ledger: Ledger::new(time),
            inner,
        }
    }

    // The same with a call count that was kept elsewhere, as over a restart.
    pub fn resumed(self, calls: u64) -> Alone<M>
        ensures { result ≡ resumed_alone self calls }
    {
        Alone {
            ledger: self.ledger.resumed(calls),
            ..self
        }
    }

    // A call whose checks have answered: turned down it leaves all as it was, else the step's state under the new ledger.
    pub fn after<T: Drop, F: FnOnce(M) -> (M, T) + Drop>(
        self,
        verdict: Result<(), Refusal>,
        ledger: Ledger,
        step: F,
    ) -> Left<Alone<M>, T>
        requires { F.pre step self.inner }
        ensures refused { IfErr verdict (λ refusal. result ≡ turned_down self refusal) }
        ensures accepted { OnOk verdict ((r : M × T) × F.post step self.inner r × (result ≡ taken ledger r)) }
    {
        match verdict {
            Err(refusal) => Left {
                state: self,
                answer: Err(refusal),
            },
            Ok(()) => {
                let (inner, told) = step(self.inner);
                Left {
                    state: Alone { ledger, inner },
                    answer: Ok(told),
                }
            }
        }
    }

    // The same where the step changes the module in place: a large module is not moved for it.
    pub fn changed<T: Drop, F: FnOnce(&mut M) -> T + Drop>(
        self,
        verdict: Result<(), Refusal>,
        ledger: Ledger,
        step: F,
    ) -> Left<Alone<M>, T>
        requires { F.IsAlwaysCallable step }
        ensures refused { IfErr verdict (λ refusal. result ≡ turned_down self refusal) }
        ensures accepted { OnOk verdict ((m : M) × (t : T) × FnOnceReturnsAtMut F.FnOnce step self.inner t m × (result ≡ taken ledger (m, t))) }
    {
        let mut state = self;
        match verdict {
            Err(refusal) => Left {
                state,
                answer: Err(refusal),
            },
            Ok(()) => {
                let told = step(&mut state.inner);
                state.ledger = ledger;
                Left {
                    state,
                    answer: Ok(told),
                }
            }
        }
    }
}
