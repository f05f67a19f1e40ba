//! Counts of steps that only clauses read.

ghost use Rattle.std.specs.Prelude.{◌≡◌, ◌+◌};

use std::marker::Model;
use std::mem;
use std::snapshot::Snapshot;

// A whole number: zero, or one more than a number of which only a snapshot is kept.
#[derive(Drop)]
enum Number {
    Zero,
    After(Snapshot<Number>),
}

// A count without an upper bound. It takes no memory.
#[derive(Drop)]
struct Count {
    number: Snapshot<Number>,
}

impl Model for Count {
    ghost use Rattle.std.specs.Prelude.{ℕ};

    ghost Value = { ℕ };

    ghost use Rattle.chacha_base.specs.Number.{value_of};

    ghost view = { λ c. value_of c.number.value };
}

impl Count {
    fn new() -> Count
        ensures { result ≡ 0 }
    {
        Count {
            number: Snapshot::of(&Number::Zero),
        }
    }

    fn add_one(&mut self)
        ensures { self.new ≡ self.old + 1 }
    {
        let before = mem::replace(&mut self.number, Snapshot::of(&Number::Zero));
        self.number = Snapshot::of(&Number::After(before));
    }
}

/// How many steps were taken: parallel calls of a backend (`par`), other calls for a block (`other`), and
/// quarter rounds on words or on vectors (`rounds`). The three numbers have no upper bound. They exist for clauses
/// alone: at run time the type has no size, and there is nothing to read.
pub struct Steps {
    par: Count,
    other: Count,
    rounds: Count,
}

// By hand, as one call: what a derive writes takes the fields apart wherever a value is dropped.
impl Drop for Steps {
    #[inline(always)]
    fn drop(self) {
        let Steps {
            par: _par,
            other: _other,
            rounds: _rounds,
        } = self;
    }
}

impl Model for Steps {
    ghost use Rattle.chacha_base.specs.Counts.{Counts};

    ghost Value = { Counts };

    ghost view = { λ s. record { par = s.par; other = s.other; rounds = s.rounds } };
}

impl Steps {
    /// No steps.
    pub fn new() -> Steps
        ensures { result ≡ record { par = 0; other = 0; rounds = 0 } }
    {
        Steps {
            par: Count::new(),
            other: Count::new(),
            rounds: Count::new(),
        }
    }

    pub(crate) fn add_par(&mut self)
        ensures { self.new ≡ record self.old { par = self.old.par + 1 } }
    {
        self.par.add_one();
    }

    pub(crate) fn add_other(&mut self)
        ensures { self.new ≡ record self.old { other = self.old.other + 1 } }
    {
        self.other.add_one();
    }

    pub(crate) fn add_round(&mut self)
        ensures { self.new ≡ record self.old { rounds = self.old.rounds + 1 } }
    {
        self.rounds.add_one();
    }
}

const _: () = prove!(size_of::<Steps>() == 0);
