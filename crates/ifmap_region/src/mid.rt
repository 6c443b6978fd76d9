//! The links that two graphs share.
ghost use Rattle.std.specs.Prelude.{◌≡◌, ℕ, Some, true, false, IfOk, OnOk, Contains};
ghost use Rattle.std.specs.HashSet.{contains};
ghost use Rattle.ifmap_region.specs.Flips.{Joins, IsFlipped};
ghost use Rattle.ifmap_region.specs.Hiding.{hides, same_ends, seen_unless_hidden};
ghost use Rattle.ifmap_region.specs.Marks.{mark_of, HasMarkedEnd};

use crate::flips::Flip;
use crate::link_source::LinkSource;
use crate::rows::{MarkRows, mark_in};
use ifmap_steps::Steps;
use std::alloc::{AllocError as NoMemory, Global};
use std::collections::HashSet;
use std::sync::ledger::Ledger;

// The ends of a link, as one goes along it.
#[derive(Clone, Copy, PartialEq, Eq, Hash)]
pub(crate) struct Ends {
    pub(crate) from: u64,
    pub(crate) to: u64,
}

// The links of a graph without some, each of which is named both ways round.
#[derive(Drop)]
pub(crate) struct Mid<'a, G> {
    pub(crate) graph: &'a G,
    pub(crate) hidden: HashSet<Ends>,
}

// Whether the flip is an added link that may be met from a number with a mark.
fn is_near(marks: &MarkRows, flip: &Flip) -> bool
    ensures added { result ≡ true → flip.now.added ≡ true }
    ensures near { result ≡ true → HasMarkedEnd marks.now.entries flip.now.a flip.now.b }
    ensures far { result ≡ false → flip.now.added ≡ true → (v w k : ℕ) → Joins flip.now v w
        → mark_of marks.now.entries v ≡ Some k → ⊥ }
{
    flip.added && (mark_in(marks, flip.a).is_some() || mark_in(marks, flip.b).is_some())
}

// The pairs of ends of the added links that have an end with a mark, both ways round. No walk meets
// the others before their ends are marked, so they need not be hidden, and cost no memory.
pub(crate) fn near_pairs(
    alloc: Global,
    marks: &MarkRows,
    flips: &[Flip],
) -> Result<HashSet<Ends>, NoMemory>
    ensures only { IfOk result (λ pairs. (v w : ℕ) → hides pairs v w ≡ true
        → IsFlipped flips.now true v w) }
    ensures near { IfOk result (λ pairs. (v w : ℕ) → hides pairs v w ≡ true
        → HasMarkedEnd marks.now.entries v w) }
    ensures each { IfOk result (λ pairs. (v w k : ℕ) → IsFlipped flips.now true v w
        → mark_of marks.now.entries v ≡ Some k → hides pairs v w ≡ true) }
    ensures turned { IfOk result (λ pairs. (v w : ℕ) → hides pairs v w ≡ true
        → hides pairs w v ≡ true) }
{
    let mut pairs = HashSet::new(alloc);
    for flip in flips {
        if is_near(marks, flip) {
            pairs.insert(Ends {
                from: flip.a,
                to: flip.b,
            })?;
            pairs.insert(Ends {
                from: flip.b,
                to: flip.a,
            })?;
        }
    }
    Ok(pairs)
}

impl<'a, G: LinkSource> LinkSource for Mid<'a, G> {
    ghost seen = { λ m. seen_unless_hidden m.hidden (G.seen m.graph.now) };

    fn count(&self, number: u64) -> u64 {
        self.graph.count(number)
    }

    fn at<L: Ledger>(&self, number: u64, i: u64, steps: &mut Steps<L>) -> Option<u64> {
        match self.graph.at(number, i, steps) {
            Some(other) => {
                let ends = Ends {
                    from: number,
                    to: other,
                };
                if self.hidden.contains(&ends) {
                    None
                } else {
                    Some(other)
                }
            }
            None => None,
        }
    }

    fn is_terminal(&self, number: u64) -> bool {
        self.graph.is_terminal(number)
    }
}
