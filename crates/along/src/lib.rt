// The arm by which a trace goes on from its last block: the heaviest, the first on ties, to an unlaid block on the same
// side of the split, if the arm is heavy enough by itself and for its block.
#![tactic(auto)]

ghost use Rattle.std.specs.Prelude.{◌≡◌, ℕ, ◌≤◌, ◌<◌, Some};
ghost use Rattle.limits.specs.Limits.{arms};
ghost use Rattle.rules.specs.Weights.{scale};
ghost use Rattle.records.specs.Tables.{ArmsWithin, Has};
ghost use Rattle.along.specs.Choosing.{fits_by, heavier, GoesOn};

use limits::ARMS;
use marks::Set;
use records::Graph;

// Whether a trace may go on from block n by arm q.
#[tactic(auto, unfolding(crate::specs::Choosing::fits_by))]
fn fits(g: &Graph, seen: &Set, likely: u64, low: u64, n: u16, q: usize) -> bool
    requires { (q < arms) × (likely ≤ scale) }
    ensures { result ≡ fits_by g.now seen.now likely low n q }
{
    let to = g.a.to[q];
    let w = g.a.weight[q];
    !marks::is_marked(seen, to)
        && cold::is_cold(g.b.marks_of(n)) == cold::is_cold(g.b.marks_of(to))
        && low <= w
        && weights::at_least(w, g.b.weight_of(n), likely)
}

// The heavier of the best arm so far and arm q, which comes later.
#[tactic(auto, unfolding(crate::specs::Choosing::heavier))]
fn better(weight: &[u64; ARMS], best: Option<usize>, q: usize) -> Option<usize>
    requires { ((x : ℕ) → best ≡ Some x → x < arms) × (q < arms) }
    ensures { result ≡ heavier weight.now best q }
{
    match best {
        Some(x) if weight[q] <= weight[x] => best,
        _ => Some(q),
    }
}

// The arm by which a trace goes on from block n, if any.
pub fn along(g: &Graph, seen: &Set, likely: u64, low: u64, n: u16) -> Option<usize>
    requires { ArmsWithin g.now.a arms × (likely ≤ scale) }
    ensures has { (q : ℕ) → result ≡ Some q → Has g.now.a n q }
    ensures goes_on { GoesOn g.now seen.now likely low n result }
{
    let first = g.a.first_of(n);
    let mut best = None;
    for q in first..first + g.a.count_of(n) {
        if fits(g, seen, likely, low, n, q) {
            best = better(&g.a.weight, best, q);
        }
    }
    best
}
