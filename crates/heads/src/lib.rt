// Heads: where a loop is entered from behind, whose blocks are padded.
//
// The first place is never one, and neither is a block that weighs less than the hottest weight divided by 100, rounded
// down.
#![tactic(auto)]

ghost use Rattle.std.specs.Prelude.{◌≡◌, ◌||◌, ℕ, ◌<◌, get_or};
ghost use Rattle.rules.specs.Heads.{hottest};
ghost use Rattle.records.specs.Tables.{tabled};
ghost use Rattle.marks.specs.Sets.{member};
ghost use Rattle.walks.specs.Walking.{Walkable};
ghost use Rattle.cycles.specs.Pieces.{Linkable, Gatherable};
ghost use Rattle.heads.specs.Heading.{behind, arms_back, back_to, heads, head_to, HeadsOf};

use limits::BLOCKS;
use marks::Set;
use records::{Blocks, Graph};

// What the hottest weight is divided by, for the least weight of a head.
const ALIGN_THRESHOLD: u64 = 100;

// The greatest weight of a block.
fn hottest(g: &Graph) -> u64
    requires { Walkable g.now }
    ensures { result ≡ hottest (tabled g.now) }
{
    let mut hot: u64 = 0;
    for &m in &g.b.listed[..g.blocks] {
        hot = hot.max(g.b.weight_of(m));
    }
    hot
}

// Whether an arm of block c at place p, counted from 1, goes back to t or stays: t stands no later, and is of its piece.
#[tactic(auto, unfolding(crate::specs::Heading::behind))]
fn goes_back(b: &Blocks, piece: &[u16; BLOCKS], c: u16, p: usize, t: u16) -> bool
    ensures { result ≡ behind b.now.place piece.now c p t }
{
    b.place_of(t) <= p && lists::at(piece, t, 0) == lists::at(piece, c, 0)
}

// Where the arms of the block at place i go back to is marked.
fn mark_arms(g: &Graph, piece: &[u16; BLOCKS], i: usize, back: &mut Set)
    requires { Gatherable g.now × (i < g.now.blocks) }
    ensures { (m : ℕ) → member back.new m ≡ member back.old m || arms_back g.now piece.now i (get_or g.now.a.count (get_or g.now.b.listed i 0) 0) m }
{
    let c = g.b.listed[i];
    let first = g.a.first_of(c);
    for j in 0..g.a.count_of(c) {
        let t = g.a.to[first + j];
        if goes_back(&g.b, piece, c, i + 1, t) {
            marks::mark(back, t);
        }
    }
}

// The blocks that an arm enters from behind.
fn mark_back(g: &Graph, piece: &[u16; BLOCKS]) -> Set
    requires { Gatherable g.now }
    ensures { (m : ℕ) → member result m ≡ back_to g.now piece.now g.now.blocks m }
{
    let mut back = marks::none();
    for i in 0..g.blocks {
        mark_arms(g, piece, i, &mut back);
    }
    back
}

#[tactic(auto, unfolding(crate::specs::Heading::heads))]
fn is_head(b: &Blocks, back: &Set, floor: u64, m: u16) -> bool
    ensures { result ≡ heads b.now.weight back.now floor m }
{
    floor <= b.weight_of(m) && marks::is_marked(back, m)
}

// The listed blocks past the first that are heads.
fn mark_heads(g: &Graph, back: &Set, floor: u64) -> Set
    requires { Walkable g.now }
    ensures { (m : ℕ) → member result m ≡ head_to g.now.b.listed (heads g.now.b.weight back.now floor) g.now.blocks m }
{
    let mut set = marks::none();
    for i in 1..g.blocks {
        let m = g.b.listed[i];
        if is_head(&g.b, back, floor, m) {
            marks::mark(&mut set, m);
        }
    }
    set
}

// The blocks that are heads in the listed order.
pub fn heads(g: &Graph) -> Set
    requires { Linkable g.now }
    ensures { HeadsOf g.now result }
{
    let piece = cycles::cycles(g);
    let back = mark_back(g, &piece);
    mark_heads(g, &back, hottest(g) / ALIGN_THRESHOLD)
}
