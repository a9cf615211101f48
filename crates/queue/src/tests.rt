// A queue is made by each of its two public calls: where the limit fits, and with nothing that waits, whatever blank is given.
use crate::entry::Entry;
use crate::queue::Queue;
use std::test::Fail;

fn holds(test: bool, told: &'static str) -> Result<(), &'static str> {
    if test { Ok(()) } else { Err(told) }
}

fn limit_of(queue: Option<Queue<Entry, 4>>) -> Option<u16> {
    queue.map(|queue| queue.limit())
}

#[test]
fn made_where_the_limit_fits() -> Result<(), Fail> {
    for (limit, wanted) in [
        (0, None),
        (1, Some(1)),
        (4, Some(4)),
        (5, None),
        (65535, None),
    ] {
        let made = Queue::new(Entry::new(7, 9), limit);
        holds(limit_of(made) == wanted, "new")?;
        holds(limit_of(Queue::with_limit(limit)) == wanted, "with_limit")?;
    }
    Ok(())
}

#[test]
fn the_blank_that_is_given_does_not_wait() -> Result<(), Fail> {
    let mut queue: Queue<Entry, 4> = Queue::new(Entry::new(7, 9), 2).ok_or("no queue")?;
    holds(queue.pop() == None, "nothing waits")?;
    holds(
        queue.join(Entry::new(1, 10)) == (0, None),
        "the first joins",
    )?;
    holds(
        queue.join(Entry::new(2, 20)) == (1, None),
        "the second joins",
    )?;
    let pushed_out = (0, Some(Entry::new(1, 10)));
    holds(
        queue.join(Entry::new(3, 30)) == pushed_out,
        "the third pushes the first out",
    )?;
    holds(queue.pop() == Some(Entry::new(2, 20)), "the second leaves")?;
    holds(queue.pop() == Some(Entry::new(3, 30)), "the third leaves")?;
    holds(queue.pop() == None, "nothing waits any more")?;
    Ok(())
}
