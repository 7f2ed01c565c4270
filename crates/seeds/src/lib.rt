// Where the next trace starts. A queue would hold stale entries, so this is a scan over the plain order by the start
// rule; and a table, kept up as blocks are laid, has the heaviest arm into each block from a laid one.
#![tactic(auto)]

ghost use Rattle.std.specs.Prelude.{◌≡◌, ◌≤◌};
ghost use Rattle.limits.specs.Limits.{blocks};
ghost use Rattle.rules.specs.Traces.{below};
ghost use Rattle.records.specs.Tables.{in_order};
ghost use Rattle.seeds.specs.Reached.{Notes, Noted, Entries};
ghost use Rattle.seeds.specs.Starts.{seed_by, startable_by, ahead, best_of, Among, StartsAt};

use limits::BLOCKS;
use marks::Set;
use records::{Arms, Blocks, Order};

// What laying block n adds to the table of the heaviest arms in from laid blocks. Arms to laid blocks are noted too:
// no start is looked for there.
pub fn note(a: &Arms, n: u16, reached: &mut [u64; BLOCKS])
    requires { Notes a.now n }
    ensures entries { Entries a.now n reached.old reached.new }
    ensures noted { Noted a.now n reached.old reached.new }
{
    let first = a.first_of(n);
    for q in first..first + a.count_of(n) {
        let k = usize::from(a.to[q]);
        reached[k] = reached[k].max(a.weight[q]);
    }
}

// Whether block x is less as a start than block y: by warm, then the heaviest arm in, then weight. By hand, since the
// derived order of a struct of the three made a search two fifths slower.
#[tactic(auto, using(std::proofs::lemmas::Bool::Decides::nat_tests), unfolding(rules::specs::Traces::below, crate::specs::Starts::seed_by))]
fn below(b: &Blocks, reached: &[u64; BLOCKS], x: u16, y: u16) -> bool
    ensures { result ≡ below (seed_by b.now reached.now x) (seed_by b.now reached.now y) }
{
    let cold = cold::is_cold(b.marks_of(x));
    if cold != cold::is_cold(b.marks_of(y)) {
        return cold;
    }
    let p = lists::at(reached, x, 0);
    let q = lists::at(reached, y, 0);
    if p != q {
        return p < q;
    }
    b.weight_of(x) < b.weight_of(y)
}

// The better of the best start so far and block n, which comes later in the plain order.
#[tactic(auto, unfolding(crate::specs::Starts::ahead))]
pub fn better(b: &Blocks, reached: &[u64; BLOCKS], best: Option<u16>, n: u16) -> Option<u16>
    ensures { result ≡ ahead (seed_by b.now reached.now) best n }
{
    match best {
        Some(x) if !below(b, reached, x, n) => best,
        _ => Some(n),
    }
}

// Whether block n is unlaid and weighs enough for a start.
#[tactic(auto, unfolding(crate::specs::Starts::startable_by))]
fn startable(b: &Blocks, seen: &Set, low: u64, n: u16) -> bool
    ensures { result ≡ startable_by b.now seen.now low n }
{
    !marks::is_marked(seen, n) && low <= b.weight_of(n)
}

// The best start among some blocks, the first on ties.
#[tactic(auto, unfolding(crate::specs::Starts::best_of))]
pub fn best_of(
    b: &Blocks,
    blocks: &[u16],
    seen: &Set,
    reached: &[u64; BLOCKS],
    low: u64,
) -> Option<u16>
    ensures { result ≡ best_of b.now seen.now reached.now low blocks.now }
{
    blocks
        .iter()
        .copied()
        .filter(|&n| startable(b, seen, low, n))
        .fold(None, |best, n| better(b, reached, best, n))
}

// The block of the plain order that starts the next trace.
pub fn next_seed(
    b: &Blocks,
    order: &Order,
    seen: &Set,
    reached: &[u64; BLOCKS],
    low: u64,
) -> Option<u16>
    requires { order.now.len ≤ blocks }
    ensures among { Among (in_order order.now) seen.now result }
    ensures starts_at { StartsAt b.now (in_order order.now) seen.now reached.now low result }
{
    best_of(b, &order.block[..order.len], seen, reached, low)
}
