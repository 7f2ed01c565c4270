// How each block of an order is left, and the bridges this takes: the order as it is laid.
#![tactic(auto)]

ghost use Rattle.std.specs.Prelude.{◌≡◌, ◌+◌, ◌≤◌, ◌<◌, get_or};
ghost use Rattle.limits.specs.Limits.{blocks, arms, numbers};
ghost use Rattle.rules.specs.declared.Leaving.TheVariants.{Exchanged};
ghost use Rattle.rules.specs.Exits as rule;
ghost use Rattle.rules.specs.Exits.{indirect, exit_of};
ghost use Rattle.records.specs.Tables.{leaves, in_order};
ghost use Rattle.exits.specs.Lays.{leaving_of, goes_to, source_of, BridgeWithin, Left, next_at, cold_at, with_arm, with_place, with_bridge, Unlaid, Layable, Lays};

use limits::{ARMS, BLOCKS, NUMBERS};
use records::{Arms, Graph, Order};
use rules::Leaving;

// What is laid: the graph of its blocks and bridges, the exit digits by block number, how many bridges there are, and the place of the
// cold part's first block.
#[derive(Drop)]
pub struct Laid {
    pub graph: Graph,
    pub exits: [u8; BLOCKS],
    pub bridges: usize,
    pub split: Option<usize>,
}

impl Laid {
    ghost use Rattle.exits.specs.Lays.{empty};

    #[tactic(auto, unfolding(crate::specs::Lays::empty))]
    pub fn empty() -> Self
        ensures { result ≡ empty }
    {
        Laid {
            graph: Graph::empty(),
            exits: [0; BLOCKS],
            bridges: 0,
            split: None,
        }
    }
}

// How a block is left, with its exit digit.
#[derive(Drop)]
pub struct Exit {
    pub digit: u8,
    pub how: Leaving,
}

// Where it goes is in a register: ends 3 and 4. Ends are numbers here and below, since `indirect`, `edges` and `exit_of` of the
// rules compare them.
#[tactic(auto, unfolding(rules::specs::Exits::indirect))]
fn leaves_indirectly(end: u8) -> bool
    ensures { result ≡ indirect end }
{
    3 <= end && end <= 4
}

// A block with one arm: nothing where its target is laid next, else a jump.
#[tactic(auto, unfolding(crate::specs::Lays::leaving_of, rules::specs::Lists::pick))]
fn one(end: u8, next: bool) -> Leaving
    ensures { result ≡ leaving_of end 1 next next }
{
    if leaves_indirectly(end) || next {
        Leaving::Nothing
    } else {
        Leaving::Jump
    }
}

// A block with two arms or more, by whether the first and the second go to the next block.
#[tactic(auto, unfolding(crate::specs::Lays::leaving_of, rules::specs::Lists::pick))]
fn two(end: u8, first: bool, second: bool) -> Leaving
    ensures { result ≡ leaving_of end 2 first second }
{
    if leaves_indirectly(end) {
        return Leaving::Nothing;
    }
    match (end, first, second) {
        (5, true, _) | (6, _, true) => Leaving::Nothing,
        (5, false, _) => Leaving::Bridge { arm: 0 },
        (6, _, false) => Leaving::Bridge { arm: 1 },
        (_, _, true) => Leaving::Branch,
        (_, true, false) => Leaving::Exchanged,
        (_, false, false) => Leaving::Bridge { arm: 1 },
    }
}

#[tactic(auto, unfolding(crate::specs::Lays::leaving_of, rules::specs::Lists::pick))]
fn edges(end: u8, arms: usize, first: bool, second: bool) -> Leaving
    ensures { result ≡ leaving_of end arms first second }
{
    match arms {
        0 => Leaving::Nothing,
        1 => one(end, first),
        _ => two(end, first, second),
    }
}

// "0 nothing, 1 jump to arm 0, 2 branch taken on true, 3 exchanged"; a bridged branch keeps its 2.
#[tactic(auto, unfolding(rules::specs::Exits::exit_of))]
fn digit(end: u8, how: Leaving) -> u8
    ensures { result ≡ exit_of end how }
{
    match how {
        Leaving::Nothing => 0,
        Leaving::Jump => 1,
        Leaving::Branch => 2,
        Leaving::Exchanged => 3,
        Leaving::Bridge { arm: _ } => if end == 2 { 2 } else { 0 },
    }
}

// Arm j of the c arms from arm f on goes to the next block.
#[tactic(auto, unfolding(crate::specs::Lays::goes_to, rules::specs::Graph::names))]
fn goes(to: &[u16; ARMS], f: usize, c: usize, j: usize, next: Option<u16>) -> bool
    requires { f + c ≤ arms }
    ensures { result ≡ goes_to to.now f c j next }
{
    j < c && next == Some(to[f + j])
}

// How block n is left where `next` is laid next.
#[tactic(auto, using(crate::proofs::Decisions::leaving_is))]
fn leaving(g: &Graph, n: u16, next: Option<u16>) -> Exit
    requires { get_or g.now.a.first n 0 + get_or g.now.a.count n 0 ≤ arms }
    ensures how_value { result.how ≡ rule.edges next (get_or g.now.b.ends n 0) (leaves g.now.a n) }
    ensures digit_value { result.digit ≡ exit_of (get_or g.now.b.ends n 0) result.how }
{
    let f = g.a.first_of(n);
    let c = g.a.count_of(n);
    let end = g.b.end_of(n);
    let how = edges(
        end,
        c,
        goes(&g.a.to, f, c, 0, next),
        goes(&g.a.to, f, c, 1, next),
    );
    Exit {
        digit: digit(end, how),
        how,
    }
}

// The block laid after place i: nothing follows the last of a part.
#[tactic(auto, unfolding(crate::specs::Lays::next_at, rules::specs::Graph::names, records::specs::Tables::in_order))]
fn next_of(o: &Order, split: Option<usize>, i: usize) -> Option<u16>
    requires { (o.now.len ≤ blocks) × (i < o.now.len) }
    ensures { result ≡ next_at (in_order o.now) split i }
{
    let k = i + 1;
    if split == Some(k) {
        return None;
    }
    o.block[..o.len].get(k).copied()
}

// Place i of the order is in its cold part.
#[tactic(auto, unfolding(crate::specs::Lays::cold_at))]
fn is_cold(split: Option<usize>, i: usize) -> bool
    ensures { result ≡ cold_at split i }
{
    split.is_some_and(|s| s <= i)
}

// The first two of c arms change places.
#[tactic(auto, unfolding(crate::specs::Lays::source_of))]
fn swapped(c: usize, j: usize) -> usize
    ensures { result ≡ source_of Exchanged c j }
{
    match j {
        0 if 2 <= c => 1,
        1 if 2 <= c => 0,
        _ => j,
    }
}

// Which of c arms stands at j as the block is left.
#[tactic(auto, using(crate::proofs::LeftArms::source_below), unfolding(crate::specs::Lays::source_of))]
fn source(how: Leaving, c: usize, j: usize) -> usize
    ensures value { result ≡ source_of how c j }
    ensures within { j < c → result < c }
{
    match how {
        Leaving::Exchanged => swapped(c, j),
        _ => j,
    }
}

// Arm q is arm x of `from`.
#[tactic(auto, unfolding(crate::specs::Lays::with_arm))]
fn put_arm(from: &Arms, x: usize, to: &mut Arms, q: usize)
    requires { (x < arms) × (q < arms) }
    ensures { to.new ≡ with_arm to.old q from.now x }
{
    to.to[q] = from.to[x];
    to.args[q] = from.args[x];
    to.weight[q] = from.weight[x];
}

// The arms of block n, as it leaves them where a bridge would be numbered `new`: written from arm q on.
fn leave(from: &Arms, n: u16, how: Leaving, new: u16, to: &mut Arms, q: usize)
    requires from_bound { get_or from.now.first n 0 + get_or from.now.count n 0 ≤ arms }
    requires to_bound { q + get_or from.now.count n 0 ≤ arms }
    requires bridge_within { BridgeWithin (get_or from.now.count n 0) how }
    ensures { Left from.now n how new to.old q to.new }
{
    let f = from.first_of(n);
    let c = from.count_of(n);
    for j in 0..c {
        put_arm(from, f + source(how, c, j), to, q + j);
    }
    if let Leaving::Bridge { arm } = how {
        // "the block's arm becomes a plain one"
        to.to[q + arm] = new;
        to.args[q + arm] = 0;
    }
}

// Block n is laid next, with the c arms that follow the last.
#[tactic(auto, unfolding(crate::specs::Lays::with_place))]
fn put_place(laid: &mut Laid, n: u16, c: usize, digit: u8)
    requires { (n < blocks) × (laid.old.graph.blocks < blocks) × (laid.old.graph.arms + c ≤ arms) }
    ensures { laid.new ≡ with_place laid.old n c digit }
{
    let k = n as usize;
    laid.graph.b.listed[laid.graph.blocks] = n;
    laid.graph.a.first[k] = laid.graph.arms as u16;
    laid.graph.a.count[k] = c as u16;
    laid.exits[k] = digit;
    laid.graph.blocks += 1;
    laid.graph.arms += c;
    laid.graph.b.place[k] = laid.graph.blocks as u16;
}

// A bridge is laid next, which takes this arm of block n.
#[tactic(auto, unfolding(crate::specs::Lays::with_bridge))]
fn put_bridge(from: &Arms, n: u16, arm: usize, cold: bool, laid: &mut Laid)
    requires { (get_or from.now.first n 0 + arm < arms) × (numbers + laid.old.bridges < blocks) × (laid.old.graph.blocks < blocks) × (laid.old.graph.arms < arms) }
    ensures { laid.new ≡ with_bridge from.now (get_or from.now.first n 0 + arm) cold laid.old }
{
    let x = from.first_of(n) + arm;
    let new = NUMBERS + laid.bridges;
    // bridges are "cold only in the cold part"
    laid.graph.b.marks[new] = if cold { 2 } else { 0 };
    laid.graph.b.ends[new] = 0;
    laid.graph.b.weight[new] = from.weight[x];
    put_arm(from, x, &mut laid.graph.a, laid.graph.arms);
    put_place(laid, new as u16, 1, 1);
    laid.bridges += 1;
}

// The order as it is laid, its cold part from place `split` on: its blocks, each with its bridge behind it.
pub fn lay(g: &Graph, o: &Order, split: Option<usize>, laid: &mut Laid)
    requires layable { Layable g.now o.now split }
    requires unlaid { Unlaid laid.old }
    ensures { Lays g.now o.now split laid.new }
{
    laid.graph.blocks = 0;
    laid.graph.arms = 0;
    laid.bridges = 0;
    laid.graph.b.marks = g.b.marks;
    laid.graph.b.ends = g.b.ends;
    laid.graph.b.weight = g.b.weight;
    for i in 0..o.len {
        let n = o.block[i];
        let e = leaving(g, n, next_of(o, split, i));
        let new = (NUMBERS + laid.bridges) as u16;
        leave(&g.a, n, e.how, new, &mut laid.graph.a, laid.graph.arms);
        put_place(laid, n, g.a.count_of(n), e.digit);
        if let Leaving::Bridge { arm } = e.how {
            put_bridge(&g.a, n, arm, is_cold(split, i), laid);
        }
    }
}
