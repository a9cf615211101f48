// What there is one of for each class.
ghost use Rattle.std.specs.Prelude.{◌≡◌};
ghost use Rattle.config.specs.PerClass.{value_at, with_value};

use crate::config::Priority;

// A value for each class.
// Stays: [2] its three values have one type, while a pacer's three queues have three: each a capacity or an entry of its own.
#[derive(Clone, Copy, Debug, PartialEq, Eq, Default)]
pub struct PerClass<T> {
    pub p0: T,
    pub p1: T,
    pub p2: T,
}

impl<T: Copy + Drop> PerClass<T> {
    pub fn at(self, class: Priority) -> T
        ensures { result ≡ value_at self class }
    {
        // Stays: [2] here a class picks its value; in an array at the class's digit the three would lose the names that settings and specs call them by.
        match class {
            Priority::P0 => self.p0,
            Priority::P1 => self.p1,
            Priority::P2 => self.p2,
        }
    }

    // Another value for a class; the others keep theirs.
    pub fn set(&mut self, class: Priority, value: T)
        ensures { self.new ≡ with_value self.old class value }
    {
        // Stays: [2] as `at`.
        match class {
            Priority::P0 => self.p0 = value,
            Priority::P1 => self.p1 = value,
            Priority::P2 => self.p2 = value,
        }
    }
}
