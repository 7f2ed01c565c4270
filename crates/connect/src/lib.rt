// The traces put one after the other. From each unused trace in turn, the next one is that which an arm of the last block
// enters at its first block, as long as there is one that is unused; traces stay whole.
#![tactic(auto)]

ghost use Rattle.std.specs.Prelude.{◌≡◌, ◌++◌, ℕ, ◌+◌, ◌≤◌, ◌<◌, length};
ghost use Rattle.std.specs.Option.{option_map};
ghost use Rattle.std.proofs.Math.Seq.{slice};
ghost use Rattle.limits.specs.Limits.{blocks, arms};
ghost use Rattle.rules.specs.Join.{looser};
ghost use Rattle.records.specs.Tables.{ArmsWithin, in_order};
ghost use Rattle.connect.specs.Joined.{empty, begin_of, end_of, Stretch, Joinable, JoinedBy};
ghost use Rattle.connect.specs.Links.{link_in, tighter, leads_by, Headed, Unused, BestBy};
ghost use Rattle.connect.specs.Following.{Heads, Begins, Followed};

use limits::BLOCKS;
use marks::Set;
use records::{Graph, Order};

// Traces as they are found: the first `len`, of which each begins where the one before it ends, and trace k ends before
// place `ends[k]` of the order. The tables have a length beside them, since no heap is used.
#[derive(Drop)]
pub struct Traces {
    pub order: [u16; BLOCKS],
    pub ends: [u16; BLOCKS],
    pub len: usize,
}

impl Traces {
    // No trace.
    pub fn empty() -> Self
        ensures { result ≡ empty }
    {
        Traces {
            order: [0; BLOCKS],
            ends: [0; BLOCKS],
            len: 0,
        }
    }

    // Where trace k begins.
    #[tactic(auto, unfolding(crate::specs::Joined::begin_of), using(crate::proofs::TraceLaws::begin_before))]
    pub fn begin(&self, k: usize) -> usize
        requires { k ≤ blocks }
        ensures { result ≡ begin_of self.now.ends k }
    {
        if k == 0 {
            return 0;
        }
        self.ends[k - 1] as usize
    }

    // The blocks of trace k.
    fn trace(&self, k: usize) -> &[u16]
        requires { Stretch self.now.ends k }
        ensures { result.now ≡ slice (begin_of self.now.ends k) (end_of self.now.ends k) self.now.order }
    {
        &self.order[self.begin(k)..self.ends[k] as usize]
    }
}

// An arm to the first block of a trace: its weight, and the trace's length and index.
#[derive(Clone, Copy)]
pub struct Link {
    pub weight: u64,
    pub long: usize,
    pub index: u16,
}

// By block number the index of the trace that starts there.
#[tactic(auto, using(crate::proofs::HeadLaws::begins_low))]
fn heads(found: &Traces) -> [Option<u16>; BLOCKS]
    requires { Joinable found.now }
    ensures { Heads found.now result }
{
    let mut head = [None; BLOCKS];
    for k in 0..found.len {
        let n = found.order[found.begin(k)];
        head[n as usize] = Some(k as u16);
    }
    head
}

// ---- the trace that follows

// Whether link a is less than link b: by weight, then the longer trace, then the earlier.
#[tactic(auto, using(std::proofs::lemmas::Bool::Decides::nat_tests), unfolding(rules::specs::Join::looser, crate::specs::Links::link_in))]
fn looser(a: Link, b: Link) -> bool
    ensures { result ≡ looser (link_in a) (link_in b) }
{
    (a.weight, a.long, b.index) < (b.weight, b.long, a.index)
}

// The better of the best link so far and one that comes later.
#[tactic(auto, unfolding(crate::specs::Links::tighter))]
fn better(best: Option<Link>, other: Option<Link>) -> Option<Link>
    ensures { option_map link_in result ≡ tighter (option_map link_in best) (option_map link_in other) }
{
    let Some(b) = other else {
        return best;
    };
    let Some(a) = best else {
        return other;
    };
    if looser(a, b) { other } else { best }
}

// The trace that arm q leads to, if it is unused and on the same side of the split.
#[tactic(auto, using(crate::proofs::LinkLaws::lead_steps))]
fn leads(
    g: &Graph,
    found: &Traces,
    head: &[Option<u16>; BLOCKS],
    used: &Set,
    cold: bool,
    q: usize,
) -> Option<Link>
    requires { (q < arms) × Headed found.now.ends head.now }
    ensures { option_map link_in result ≡ leads_by g.now found.now.ends head.now used.now cold q }
{
    let n = g.a.to[q];
    let index = lists::at(head, n, None)?;
    if marks::is_marked(used, index) {
        return None;
    }
    let there = cold::is_cold(g.b.marks_of(n));
    let across = cold != there;
    if across {
        return None;
    }
    Some(Link {
        weight: g.a.weight[q],
        long: found.trace(index as usize).len(),
        index,
    })
}

// The best of the unused traces that block n's arms lead to, if any.
#[tactic(auto, using(crate::proofs::LinkLaws::choice_steps))]
fn next_trace(
    g: &Graph,
    found: &Traces,
    head: &[Option<u16>; BLOCKS],
    used: &Set,
    n: u16,
) -> Option<Link>
    requires { ArmsWithin g.now.a arms × Headed found.now.ends head.now }
    ensures unused { Unused head.now used.now (option_map link_in result) }
    ensures best_by { BestBy g.now found.now.ends head.now used.now n result }
{
    let cold = cold::is_cold(g.b.marks_of(n));
    let first = g.a.first_of(n);
    let mut best = None;
    for q in first..first + g.a.count_of(n) {
        best = better(best, leads(g, found, head, used, cold, q));
    }
    best
}

// ---- one trace after the other

// A trace put behind the blocks that are laid. No twin of a text that is put: another struct, with a contract of its own.
#[tactic(auto, using(crate::proofs::TraceLaws::put_behind), unfolding(records::specs::Tables::in_order))]
fn copy(o: &mut Order, trace: &[u16])
    requires { o.old.len + length trace.now ≤ blocks }
    ensures order_after { in_order o.new ≡ in_order o.old ++ trace.now }
    ensures len { o.new.len ≡ o.old.len + length trace.now }
{
    let end = o.len + trace.len();
    o.block[o.len..end].copy_from_slice(trace);
    o.len = end;
}

// Trace `from` and what follows it, trace by trace, put behind the blocks that are laid.
fn follow(
    g: &Graph,
    found: &Traces,
    head: &[Option<u16>; BLOCKS],
    used: &mut Set,
    o: &mut Order,
    from: u16,
)
    requires arms { ArmsWithin g.now.a arms }
    requires begins { Begins found.now head.now used.old o.old from }
    ensures { Followed g.now found.now used.old o.old from used.new o.new }
{
    let mut at = from;
    loop {
        marks::mark(used, at);
        let trace = found.trace(at as usize);
        copy(o, trace);
        let last = trace[trace.len() - 1];
        let Some(link) = next_trace(g, found, head, used, last) else {
            return;
        };
        at = link.index;
    }
}

// The blocks of the traces in the order in which they are joined.
pub fn connect(g: &Graph, found: &Traces) -> Order
    requires { ArmsWithin g.now.a arms × Joinable found.now }
    ensures { JoinedBy g.now found.now result }
{
    let head = heads(found);
    let mut used = marks::none();
    let mut o = Order {
        block: [0; BLOCKS],
        len: 0,
    };
    for from in 0..found.len {
        if !marks::is_marked(&used, from as u16) {
            follow(g, found, &head, &mut used, &mut o, from as u16);
        }
    }
    o
}
