ghost use Rattle.std.specs.Prelude.{◌≡◌, ℕ, ◌+◌};
ghost use Rattle.vc_base.specs.Steps.{count_owns};

use std::alloc::Global;
use std::marker::{Model, PhantomData};

/// A counter of steps, which costs nothing at run time. `L` is a mark that tells counters apart by type.
pub struct Steps<L> {
    marker: PhantomData<L>,
    ghost name: { ℕ },
    ghost count: { ℕ },
}

impl<L> Model for Steps<L> {
    ghost Value = { ℕ };

    ghost view = { λ s. s.count };

    ghost also_owns = { λ s. count_owns s.name s.count };
}

impl<L> Steps<L> {
    /// A counter at 0. It takes no memory and can't fail.
    pub fn new(_alloc: Global) -> Steps<L>
        ensures { result ≡ 0 }
    {
        Steps::start()
    }

    fn start() -> Steps<L>
        ensures { result ≡ 0 }
    {
        Steps {
            marker: PhantomData,
        }
    }

    /// One more step.
    pub fn tick(&mut self)
        ensures { self.new ≡ self.old + 1 }
    {}
}

impl<L> Drop for Steps<L> {
    fn drop(self) {
        let Self { marker: _ } = self;
    }
}
