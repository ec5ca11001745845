ghost use Rattle.std.specs.Prelude.{◌≡◌, ℕ, ◌+◌, true};
ghost use Rattle.std.specs.declared.cmp.Ordering.{Ordering as Answer};

use crate::Nodes;
use std::cmp::Ordering;
use vc_base::Steps;

/// Says where a node stands against what is sought. This project's own.
pub trait Guide<N: Nodes> {
    /// Where it stands: `Less` for a node before what is sought.
    ghost side_of: { Self → N → ℕ → Answer };

    /// Where a node stands, in one step. Condition: its name is there.
    fn side<L>(&self, nodes: &N, n: u32, steps: &mut Steps<L>) -> Ordering
        requires { (N.store nodes.now).has n ≡ true }
        ensures side { result ≡ side_of self.now nodes.now n }
        ensures step { steps.new ≡ steps.old + 1 };

    /// It depends on no link.
    ghost no_links: { (guide : Self) (a b : N) (n : ℕ) → N.stays a b
        → side_of guide b n ≡ side_of guide a n };
}
