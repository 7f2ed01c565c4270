// Runs of blocks that mostly follow each other, found in four rounds and put one after the other.
#![tactic(auto)]

ghost use Rattle.std.specs.Prelude.{◌≡◌, ◌+◌, ◌≤◌};
ghost use Rattle.rules.specs.Weights.{scale, floor};
ghost use Rattle.rules.specs.Join.{connect};
ghost use Rattle.rules.specs.Traces.{entered_weight, no_traces, entry_trace, traces};
ghost use Rattle.rules.specs.Graph as graph;
ghost use Rattle.records.specs.declared.Graph.{Graph};
ghost use Rattle.records.specs.Tables.{tabled, in_order, Carried};
ghost use Rattle.traces.specs.Held.{Held, Holds, Steps, Adds, Added};
ghost use Rattle.traces.specs.Growing.{Kept, Turned};
ghost use Rattle.traces.specs.Rounds.{Plain, filled, all_rounds, all_traced};

use connect::Traces;
use limits::BLOCKS;
use marks::Set;
use records::{Graph, Order};

// What a graph without an entry is entered by.
const ONCE: u64 = 10000;

// "as (likely, often)"
#[derive(Clone, Copy)]
pub struct Round {
    pub likely: u64,
    pub often: u64,
}

// "Rounds (4000,5000), (2000,2000), (1000,500), (0,0)"
const ROUNDS: [Round; 4] = [
    Round {
        likely: 4000,
        often: 5000,
    },
    Round {
        likely: 2000,
        often: 2000,
    },
    Round {
        likely: 1000,
        often: 500,
    },
    Round {
        likely: 0,
        often: 0,
    },
];

// What a round asks of an arm: its share of its block's weight, and its weight, which it asks of a start too.
#[derive(Clone, Copy)]
pub struct Bar {
    pub likely: u64,
    pub low: u64,
    ghost small: { likely ≤ scale },
}

impl Round {
    fn bar(&self, entered: u64) -> Bar
        requires { (self.now.likely ≤ scale) × (self.now.often ≤ scale) }
        ensures likely { result.likely ≡ self.now.likely }
        ensures low { result.low ≡ floor entered self.now.often }
    {
        Bar {
            likely: self.likely,
            low: weights::floor(entered, self.often),
        }
    }
}

// What has grown so far: the blocks that are laid, those that start a trace, by block number the heaviest arm in from
// what is laid, and the traces. The entry stays.
#[derive(Drop)]
pub struct Growth {
    pub entry: Option<u16>,
    pub seen: Set,
    pub starts: Set,
    pub reached: [u64; BLOCKS],
    pub made: Traces,
}

impl Growth {
    // Nothing is laid.
    fn new(entry: Option<u16>) -> Self
        ensures { (g : Graph) → entry ≡ graph.entry (tabled g) → Held g no_traces result }
    {
        Growth {
            entry,
            seen: marks::none(),
            starts: marks::none(),
            reached: [0; BLOCKS],
            made: Traces::empty(),
        }
    }
}

// The trace from a block that is not laid, behind those found, and turned as it ends. The place behind it: it goes up with
// the blocks, and no count of them is known before the loop ends.
fn trace(g: &Graph, bar: Bar, from: u16, w: &mut Growth) -> usize
    requires sound { Carried g.now }
    requires adds { Adds g.now w.old from }
    ensures kept { Kept w.old w.new }
    ensures turned { Turned g.now bar.likely bar.low from w.old w.new result }
{
    let start = w.made.begin(w.made.len);
    let mut n = from;
    let mut at = start;
    loop {
        marks::mark(&mut w.seen, n);
        w.made.order[at] = n;
        at += 1;
        seeds::note(&g.a, n, &mut w.reached);
        let Some(q) = along::along(g, &w.seen, bar.likely, bar.low, n) else {
            rotate::rotate(g, &w.seen, &w.starts, w.entry, &mut w.made.order[start..at]);
            return at;
        };
        n = g.a.to[q];
    }
}

// One trace more, from a block that is not laid, behind those found.
#[tactic(auto, using(crate::proofs::AddLaws::add_steps))]
fn add_trace(g: &Graph, bar: Bar, from: u16, w: &mut Growth)
    requires sound { Carried g.now }
    requires adds { Adds g.now w.old from }
    ensures added { Added g.now bar.likely bar.low from w.old w.new }
    ensures len { w.new.made.len ≡ w.old.made.len + 1 }
{
    let end = trace(g, bar, from, w);
    let k = w.made.len;
    let first = w.made.order[w.made.begin(k)];
    marks::mark(&mut w.starts, first);
    w.made.ends[k] = end as u16;
    w.made.len = k + 1;
}

// Traces behind those found, for as long as a block of the plain order can start one.
fn fill(g: &Graph, plain: &Order, bar: Bar, w: &mut Growth)
    requires sound { Carried g.now }
    requires plain { Plain g.now plain.now }
    requires holds { Holds g.now w.old }
    ensures { Steps g.now (filled (tabled g.now) bar.likely bar.low) w.old w.new }
{
    while let Some(from) = seeds::next_seed(&g.b, plain, &w.seen, &w.reached, bar.low) {
        add_trace(g, bar, from, w);
    }
}

// "Round one starts at the entry": its trace, where there is an entry, with nothing laid before.
fn enter(g: &Graph, entered: u64, w: &mut Growth)
    requires sound { Carried g.now × (entered ≡ entered_weight (tabled g.now)) }
    requires held { Held g.now no_traces w.old }
    ensures { Held g.now (entry_trace (tabled g.now)) w.new }
{
    if let Some(from) = w.entry {
        add_trace(g, ROUNDS[0].bar(entered), from, w);
    }
}

// The traces of all rounds behind those found.
fn rounds(g: &Graph, plain: &Order, entered: u64, w: &mut Growth)
    requires sound { Carried g.now × (entered ≡ entered_weight (tabled g.now)) }
    requires plain { Plain g.now plain.now }
    requires holds { Holds g.now w.old }
    ensures { Steps g.now (all_rounds (tabled g.now)) w.old w.new }
{
    for r in &ROUNDS {
        fill(g, plain, r.bar(entered), w);
    }
}

// "entry weight (ONCE if no entry)"
fn entered_weight(g: &Graph, entry: Option<u16>) -> u64
    requires { Carried g.now × (entry ≡ graph.entry (tabled g.now)) }
    ensures { result ≡ entered_weight (tabled g.now) }
{
    match entry {
        Some(n) => g.b.weight_of(n),
        None => ONCE,
    }
}

// All traces, with nothing laid before.
fn find(g: &Graph, plain: &Order, w: &mut Growth)
    requires sound { Carried g.now }
    requires plain { Plain g.now plain.now }
    requires held { Held g.now no_traces w.old }
    ensures { Held g.now (all_traced (tabled g.now)) w.new }
{
    let entered = entered_weight(g, w.entry);
    enter(g, entered, w);
    rounds(g, plain, entered, w);
}

// The blocks in the order of their traces, joined.
pub fn traces(g: &Graph) -> Order
    requires { Carried g.now }
    ensures { (in_order result ≡ connect (tabled g.now) (traces (tabled g.now))) × (result.len ≡ g.now.blocks) }
{
    let plain = walks::order(g);
    let mut w = Growth::new(g.entry());
    find(g, &plain, &mut w);
    connect::connect(g, &w.made)
}
