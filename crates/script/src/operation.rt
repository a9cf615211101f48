// What the suites have in common: an operation is read off a record, carried out on the suite's state, and answered by a line.
use crate::desk::Desk;
use crate::line::Line;
use crate::words::{Record, Unknown};
use config::alone::{Alone, Left};
use config::refusal::Refusal;

// An operation of a suite, with its arguments.
pub(crate) trait Operation: TryFrom<Record, Error = Unknown> {
    // What the suite's operations change, beside what lies on the desk.
    type State;

    // Carries the operation out, and adds to the line what it came to. Where something new is turned down the state stays.
    fn play(self, state: &mut Self::State, desk: &mut Desk, line: Line) -> Result<Line, Refusal>;

    // What stands in the line behind the reason where something new is turned down.
    fn nothing(line: Line) -> Line {
        line
    }
}

// Plays a record of a suite on its state, and answers the record's line.
pub(crate) fn played<O: Operation>(
    state: &mut O::State,
    desk: &mut Desk,
    record: Record,
) -> Result<Line, Unknown> {
    let operation = O::try_from(record)?;
    let line = match operation.play(state, desk, record.into()) {
        Ok(line) => line,
        Err(refusal) => O::nothing(Line::from(record).with(u8::from(refusal))),
    };
    Ok(line)
}

// Takes over what a call leaves, and gives what it answers.
pub(crate) fn taken<S: Drop, T>(left: Left<S, T>, state: &mut S) -> Result<T, Refusal> {
    let Left { state: now, answer } = left;
    *state = now;
    answer
}

// Takes over what was made, or a zero at time 0 where that was turned down; it gives nothing.
pub(crate) fn made_or_zero<M: Copy, T: Default>(
    made: Result<Alone<M>, Refusal>,
    zero: M,
    state: &mut Alone<M>,
) -> Result<T, Refusal> {
    *state = made.unwrap_or(Alone::new(0, zero));
    made.map(|_| T::default())
}

// Takes over what cannot be turned down; it gives nothing.
pub(crate) fn remade<S: Drop, T: Default>(made: S, state: &mut S) -> Result<T, Refusal> {
    *state = made;
    Ok(T::default())
}
