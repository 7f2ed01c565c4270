// A trace that ends in a loop is turned as it ends, so that the loop is left by falling through. The part that turns
// starts where the last block's heaviest arm goes, and its best way out becomes its end. That arm must have more than
// four fifths of its target's weight: a loop that is seldom gone round stays as it is.
#![tactic(auto)]

ghost use Rattle.std.specs.Prelude.{length, ◌≡◌, [], ◌∷◌, ◌++◌, ℕ, ◌<◌, ◌≤◌, ◌==◌, get_or, take, drop, Some, None, position};
ghost use Rattle.std.specs.Option.{IfSome, option_map};
ghost use Rattle.std.specs.List.{list_any};
ghost use Rattle.limits.specs.Limits.{blocks, arms};
ghost use Rattle.rules.specs.Lists.{best};
ghost use Rattle.rules.specs.Graph.{is_walking};
ghost use Rattle.rules.specs.Rotate.{back_arm, worse};
ghost use Rattle.records.specs.declared.Blocks.{Blocks};
ghost use Rattle.records.specs.Tables.{ArmsWithin, leaves, block_at};
ghost use Rattle.marks.specs.Sets.{member};
ghost use Rattle.flow.specs.Lent.{Marks, arm_of};
ghost use Rattle.rotate.specs.Turning.{Below, way_of, liked, ways_at, ways_from, turns_by, Turns, Rotated};

use marks::Set;
use records::{Arms, Blocks, Graph, bits};

// A way out of the part: whether its target is preferred, its weight, and the place of its block in the part.
#[derive(Clone, Copy)]
pub struct Out {
    pub preferred: bool,
    pub weight: u64,
    pub index: usize,
}

// "The last block's heaviest arm, LAST on ties". A loop: what `max_by_key` promises leaves open which of equals it gives.
#[tactic(auto, using(crate::proofs::BackLaws::back_steps), unfolding(flow::specs::Lent::arm_of))]
fn back_arm(a: &Arms, n: u16) -> Option<usize>
    requires { ArmsWithin a.now arms }
    ensures held { IfSome result (λ (q : ℕ). q < arms) }
    ensures value { (of : Blocks) → arm_of a.now result ≡ back_arm (block_at of a.now n) }
{
    let f = a.first_of(n);
    let end = f + a.count_of(n);
    if f == end {
        return None;
    }
    let mut best = f;
    for q in f + 1..end {
        if a.weight[best] <= a.weight[q] {
            best = q;
        }
    }
    Some(best)
}

// Whether a block of the part is walking.
#[tactic(auto, unfolding(rules::specs::Graph::is_walking))]
fn walks(b: &Blocks, part: &[u16]) -> bool
    ensures { result ≡ list_any (λ (n : ℕ). is_walking (get_or b.now.marks n 0)) part.now }
{
    part.iter()
        .any(|&n| bits::has_mark(b.marks_of(n), bits::WALKING))
}

// Whether the part turns, to whose first block x the last one's arm goes back: "not the last block, not the entry;
// 5 x arm > 4 x target weight; no walking block".
#[tactic(auto, unfolding(crate::specs::Turning::turns_by))]
fn turns(b: &Blocks, entry: Option<u16>, arm: u64, x: u16, last: u16, part: &[u16]) -> bool
    ensures { result ≡ turns_by b.now entry arm x last part.now }
{
    x != last
        && entry != Some(x)
        && weights::over_four_fifths(arm, b.weight_of(x))
        && !walks(b, part)
}

// The first place of block x in the trace.
fn find(trace: &[u16], x: u16) -> Option<usize>
    ensures { result ≡ position (λ (y : ℕ). y == x) trace.now }
{
    trace.iter().position(|&y| y == x)
}

// Where the part of the trace starts that turns.
fn turning_place(g: &Graph, entry: Option<u16>, trace: &[u16]) -> Option<usize>
    requires { ArmsWithin g.now.a arms }
    ensures { Turns g.now entry trace.now result }
{
    let last = *trace.last()?;
    let q = back_arm(&g.a, last)?;
    let x = g.a.to[q];
    let p = find(trace, x)?;
    if turns(&g.b, entry, g.a.weight[q], x, last, &trace[p..]) {
        Some(p)
    } else {
        None
    }
}

// The blocks of the part, as a set.
#[tactic(auto, using(crate::proofs::PlaceLaws::mem_more), unfolding(rules::specs::Lists::mem, rules::specs::Lists::any))]
fn inside_of(part: &[u16]) -> Set
    requires { Below part.now }
    ensures { Marks result part.now }
{
    let mut inside = marks::none();
    for &n in part {
        marks::mark(&mut inside, n);
    }
    inside
}

impl Out {
    // "prefer targets unlaid or starting an earlier trace, then weight, then first": whether a later way is preferred.
    #[tactic(auto, using(std::proofs::lemmas::Bool::Decides::nat_tests), unfolding(rules::specs::Rotate::worse, crate::specs::Turning::way_of))]
    fn is_worse(&self, way: &Out) -> bool
        ensures { result ≡ worse (way_of self.now) (way_of way.now) }
    {
        (self.preferred, self.weight) < (way.preferred, way.weight)
    }
}

// The better of the best way out so far and one that comes later.
#[tactic(auto, unfolding(rules::specs::Lists::best))]
fn finer(so: Option<Out>, way: Out) -> Out
    ensures { Some (way_of result) ≡ best worse (option_map way_of so) (way_of way ∷ []) }
{
    let Some(o) = so else {
        return way;
    };
    if o.is_worse(&way) { way } else { o }
}

// A block that is not laid or starts an earlier trace.
fn is_liked(seen: &Set, starts: &Set, n: u16) -> bool
    ensures { result ≡ liked seen.now starts.now n }
{
    !marks::is_marked(seen, n) || marks::is_marked(starts, n)
}

// The best way out so far, with those of block n, which stands at `index` in the part.
#[tactic(auto, using(crate::proofs::OutLaws::exit_steps))]
fn exits_at(
    a: &Arms,
    seen: &Set,
    starts: &Set,
    inside: &Set,
    n: u16,
    index: usize,
    so: Option<Out>,
) -> Option<Out>
    requires { ArmsWithin a.now arms }
    ensures { option_map way_of result ≡ best worse (option_map way_of so) (ways_at (liked seen.now starts.now) (member inside.now) index (leaves a.now n)) }
{
    let f = a.first_of(n);
    let c = a.count_of(n);
    if 2 < c {
        return so;
    }
    let mut found = so;
    for q in f..f + c {
        let t = a.to[q];
        if marks::is_marked(inside, t) {
            continue;
        }
        let way = Out {
            preferred: is_liked(seen, starts, t),
            weight: a.weight[q],
            index,
        };
        found = Some(finer(found, way));
    }
    found
}

// The best way out of the part.
#[tactic(auto, using(crate::proofs::OutLaws::left_steps), unfolding(crate::proofs::OutLaws::left))]
fn best_exit(a: &Arms, seen: &Set, starts: &Set, inside: &Set, part: &[u16]) -> Option<Out>
    requires { ArmsWithin a.now arms }
    ensures { option_map way_of result ≡ best worse None (ways_from a.now (liked seen.now starts.now) (member inside.now) 0 part.now) }
{
    let mut found = None;
    for (i, &n) in part.iter().enumerate() {
        found = exits_at(a, seen, starts, inside, n, i, found);
    }
    found
}

// What follows the first k of a part comes before these: turned round whole and then each by itself, for the library's
// `rotate_left` makes the archive ask whoever links it for one function more, `memmove`.
fn turn(part: &mut [u16], k: usize)
    requires { k ≤ length part.old }
    ensures { part.new ≡ drop k part.old ++ take k part.old }
{
    part.reverse();
    let back = part.len() - k;
    part[..back].reverse();
    part[back..].reverse();
}

// The trace, as it ends; `seen` has the blocks that are laid, its own too, and `starts` the first blocks of the traces
// before it.
#[tactic(auto, using(crate::proofs::RotateLaws::turn_steps))]
pub fn rotate(g: &Graph, seen: &Set, starts: &Set, entry: Option<u16>, trace: &mut [u16])
    requires arms { ArmsWithin g.now.a arms }
    requires below { Below trace.old }
    ensures len { length trace.new ≡ length trace.old }
    ensures rotated { Rotated g.now seen.now starts.now entry trace.old trace.new }
{
    let Some(p) = turning_place(g, entry, trace) else {
        return;
    };
    let part = &mut trace[p..];
    let inside = inside_of(part);
    if let Some(out) = best_exit(&g.a, seen, starts, &inside, part) {
        turn(part, out.index + 1);
    }
}
