//! The maximum that a run has reached.
ghost use Rattle.std.specs.Prelude.{MatchOption};
ghost use Rattle.cd_actor.specs.Maxima.{AreBelow, Reaches};

use cd_base::{LimitKind, Limits};

/// Which of the two sums has reached its maximum, the contexts first, and that sum. `None` exactly where both are below. Constant time.
pub fn reached(contexts: u64, facts: u64, limits: &Limits) -> Option<(LimitKind, u64)>
    ensures { MatchOption result
        (AreBelow contexts facts limits.now.max_contexts limits.now.max_facts)
        (λ x. Reaches contexts facts limits.now.max_contexts limits.now.max_facts x.0 x.1) }
{
    if contexts >= limits.max_contexts {
        Some((LimitKind::Contexts, contexts))
    } else if facts >= limits.max_facts {
        Some((LimitKind::Facts, facts))
    } else {
        None
    }
}
