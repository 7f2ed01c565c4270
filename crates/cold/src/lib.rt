// Cold blocks: what only they lead to is cold too, and they go last. The ways into a block are two counts by block
// number, made once: its arms in, and those of them from cold blocks. A block joins when both are the same, and its
// own arms then count as cold: they are walked that once, and never to ask whether it joins.
#![tactic(auto)]

pub mod ways;

ghost use Rattle.std.specs.Prelude.{◌≡◌, None, ◌+◌, ◌≤◌, length, get_or};
ghost use Rattle.limits.specs.Limits.{blocks};
ghost use Rattle.rules.specs.Lists.{pick};
ghost use Rattle.rules.specs.Graph.{is_cold, entry};
ghost use Rattle.rules.specs.Split.{splits};
ghost use Rattle.records.specs.Tables.{tabled, in_order, Carried};
ghost use Rattle.cold.specs.Sides.{any_cold, on_side, Gathered, Roomy, Divides, Parted};
ghost use Rattle.cold.specs.Sweeps.{joining, Chilling, Chilled, Sweeps, Swept, Settled};
ghost use Rattle.cold.specs.Spreading.{SpreadFrom};

use limits::BLOCKS;
use records::{Blocks, Graph, Order, bits};
use ways::Ways;

// An order with the cold blocks last, and where they start, if it is split.
#[derive(Drop)]
pub struct Parts {
    pub order: Order,
    pub split: Option<usize>,
}

// By the name that the rules give it: a call with the bit is no plainer.
#[tactic(auto, unfolding(rules::specs::Graph::is_cold))]
pub fn is_cold(marks: u8) -> bool
    ensures { result ≡ is_cold marks }
{
    bits::has_mark(marks, bits::COLD)
}

fn any_cold(g: &Graph) -> bool
    requires { g.now.blocks ≤ blocks }
    ensures { result ≡ any_cold g.now }
{
    g.b.listed[..g.blocks]
        .iter()
        .any(|&k| is_cold(g.b.marks_of(k)))
}

// The entry of a graph that is split: it is warm, and some block is cold.
fn splits(g: &Graph) -> Option<u16>
    requires { Roomy g.now }
    ensures { result ≡ pick (splits (tabled g.now)) (entry (tabled g.now)) None }
{
    g.entry()
        .filter(|&e| !is_cold(g.b.marks_of(e)) && any_cold(g))
}

// The blocks of an order that are cold, or those that are not, put behind the blocks of `out`.
fn gather(b: &Blocks, o: &Order, cold: bool, out: &mut Order)
    requires len_le_blocks { o.now.len ≤ blocks }
    requires block_bound { out.old.len + length (on_side b.now.marks cold (in_order o.now)) ≤ blocks }
    ensures { Gathered (on_side b.now.marks cold (in_order o.now)) out.old out.new }
{
    for &k in &o.block[..o.len] {
        if is_cold(b.marks_of(k)) == cold {
            out.block[out.len] = k;
            out.len += 1;
        }
    }
}

// "Warm, then cold, each in order", where there is a warm entry and a cold block; else the order as it is.
pub fn partition(g: &Graph, o: Order) -> Parts
    requires { Divides g.now o }
    ensures { Parted g.now o result }
{
    if splits(g).is_none() {
        return Parts {
            order: o,
            split: None,
        };
    }
    let mut order = Order {
        block: [0; BLOCKS],
        len: 0,
    };
    gather(&g.b, &o, false, &mut order);
    let split = Some(order.len);
    gather(&g.b, &o, true, &mut order);
    Parts { order, split }
}

// Whether block k joins the cold ones: it is not the entry and not cold, and its arms in, at least one, are all from
// cold blocks.
#[tactic(auto, unfolding(crate::specs::Sweeps::joining))]
fn joins(g: &Graph, ways: &Ways, entry: u16, k: u16) -> bool
    ensures { result ≡ joining k entry (get_or g.now.b.marks k 0) (get_or ways.now.ins k 0) (get_or ways.now.cold k 0) }
{
    let ins = lists::at(&ways.ins, k, 0);
    let cold = lists::at(&ways.cold, k, 0);
    k != entry && !is_cold(g.b.marks_of(k)) && 0 < ins && ins == cold
}

// Block k turned cold, if it joins: its mark, and its arms counted among those from cold blocks. Whether it turned.
fn chill(g: &mut Graph, ways: &mut Ways, entry: u16, k: u16) -> bool
    requires { Chilling g.old k ways.old }
    ensures { Chilled g.old ways.old k entry g.new ways.new result }
{
    let turns = joins(g, ways, entry, k);
    if turns {
        g.b.marks[k as usize] += 2;
        ways::add_arms(&g.a, k, &mut ways.cold);
    }
    turns
}

// One sweep over the listed blocks, in place: whether one joined the cold ones.
fn sweep(g: &mut Graph, ways: &mut Ways, entry: u16) -> bool
    requires { Sweeps g.old ways.old }
    ensures { Swept entry g.old g.old.blocks g.new ways.new result }
{
    let mut joined = false;
    for i in 0..g.blocks {
        let k = g.b.listed[i];
        joined |= chill(g, ways, entry, k);
    }
    joined
}

// Every block that joins turned cold: sweeps until one changes nothing.
fn cool(g: &mut Graph, entry: u16)
    requires { Carried g.old }
    ensures { Settled entry g.old g.new }
{
    let mut ways = Ways::count(g);
    while sweep(g, &mut ways, entry) {}
}

// "What only cold blocks lead to is cold": with a warm entry and some cold block, a block that is not the entry gets
// mark 1 where all its arms in, at least one, come from cold blocks. Else the marks stay as they are.
pub fn spread(g: &mut Graph)
    requires { Carried g.old }
    ensures { SpreadFrom g.old g.new }
{
    if let Some(e) = splits(g) {
        cool(g, e);
    }
}
