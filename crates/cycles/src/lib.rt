// Which blocks are in one piece of the graph: each can reach the other.
//
// Two walks, after Kosaraju: the first along the arms, for the order in which blocks are finished (`walks::finished`);
// the second against them, from the last that was finished on, and what it reaches from one block is one piece.
#![tactic(auto)]

ghost use Rattle.std.specs.Prelude.{◌≡◌, List, ℕ, suc, ◌+◌, ◌≤◌, ◌<◌, length, get_or, None};
ghost use Rattle.limits.specs.Limits.{blocks, arms};
ghost use Rattle.lists.specs.Marked.{marked};
ghost use Rattle.rules.proofs.Membership.{In};
ghost use Rattle.records.specs.Tables.{tabled, in_order};
ghost use Rattle.stack.specs.Frames.{stack_of};
ghost use Rattle.cycles.specs.Inward.{Lists, HasLists, added, entered, ins};
ghost use Rattle.cycles.specs.Gathering.{blocks_on, Gathered, Collected, Sorted};
ghost use Rattle.cycles.specs.Pieces.{Gatherable, PiecesOf};

use limits::{ARMS, BLOCKS};
use records::{Arms, Graph, Order};
use stack::{Popped, Room, Stack};

// An arm in: the block that it leaves, and where the list goes on.
#[derive(Clone, Copy)]
struct Way {
    from: u16,
    next: Option<u16>,
}

// The arms into each block, as lists through the first `len` ways: `head` has by block number where its list starts. No heap
// is used, so the lists go through one table.
#[derive(Drop)]
struct Inward {
    head: [Option<u16>; BLOCKS],
    ways: [Way; ARMS],
    len: usize,
}

impl Inward {
    // One more arm in, from block m to block t.
    fn link(&mut self, m: u16, t: u16)
        requires { (self.old.len < arms) × (m < blocks) × (t < blocks) }
        ensures { (self.new.len ≡ self.old.len + 1) × ((f : ℕ → List ℕ) → Lists self.old f → Lists self.new (added f m t)) }
    {
        let next = self.head[t as usize];
        self.ways[self.len] = Way { from: m, next };
        self.head[t as usize] = Some(self.len as u16);
        self.len += 1;
    }
}

// The arms of block m.
fn link_arms(a: &Arms, m: u16, t: &mut Inward)
    requires fits { (get_or a.now.first m 0 + get_or a.now.count m 0 ≤ arms) × (t.old.len + get_or a.now.count m 0 ≤ arms) × (m < blocks) }
    requires goes { (j : ℕ) → j < get_or a.now.count m 0 → get_or a.now.to (get_or a.now.first m 0 + j) 0 < blocks }
    ensures { (t.new.len ≡ t.old.len + get_or a.now.count m 0) × ((f : ℕ → List ℕ) → Lists t.old f → Lists t.new (entered f m a.now.to (get_or a.now.first m 0) (get_or a.now.count m 0))) }
{
    let first = a.first_of(m);
    for j in 0..a.count_of(m) {
        t.link(m, a.to[first + j]);
    }
}

// The arms of the listed blocks, each in the list of the block that it goes to; no block has a list before.
fn link_all(g: &Graph, t: &mut Inward)
    requires { Gatherable g.now × (t.old.len ≡ 0) × ((y : ℕ) → get_or t.old.head y None ≡ None) }
    ensures { Lists t.new (ins g.now g.now.blocks) }
{
    for &m in &g.b.listed[..g.blocks] {
        link_arms(&g.a, m, t);
    }
}

// Of a block's list, the blocks that are in no piece: they are in this one, and on the stack.
fn gather<'s>(
    t: &Inward,
    block: u16,
    number: u16,
    mut stack: Stack<'s>,
    piece: &mut [u16; BLOCKS],
) -> Stack<'s>
    requires { HasLists t.now × (0 < number) × (length (stack_of stack) ≤ marked piece.old blocks) }
    ensures counts { length (stack_of result) + marked piece.old blocks ≡ length (stack_of stack.entry) + marked piece.new blocks }
    ensures gathers { (f : ℕ → List ℕ) → Lists t.now f → Gathered (f block) number piece.old (blocks_on (stack_of stack.entry)) piece.new (blocks_on (stack_of result)) }
{
    let mut next = lists::at(&t.head, block, None);
    while let Some(k) = next {
        let way = t.ways[k as usize];
        next = way.next;
        if lists::at(piece, way.from, 0) > 0 {
            continue;
        }
        piece[way.from as usize] = number;
        stack = stack.push(way.from, 0);
    }
    stack
}

// The piece of a block that is in none, under its own number and 1: all that lead to it and are in no piece.
fn collect(t: &Inward, root: u16, room: &mut Room, piece: &mut [u16; BLOCKS])
    requires { HasLists t.now × (root < blocks) × (get_or piece.old root 0 ≡ 0) }
    ensures { (f : ℕ → List ℕ) → Lists t.now f → Collected f root (suc root) piece.old piece.new }
{
    let number = root + 1;
    piece[root as usize] = number;
    let mut stack = Stack::new(room).push(root, 0);
    loop {
        let Popped { stack: rest, top } = stack.pop();
        let Some(f) = top else {
            return;
        };
        stack = gather(t, f.block, number, rest, piece);
    }
}

// The piece of each block of an order in turn that is in none yet.
fn sort(t: &Inward, o: &Order) -> [u16; BLOCKS]
    requires { HasLists t.now × (o.now.len ≤ blocks) × ((x : ℕ) → In x (in_order o.now) → x < blocks) }
    ensures { (f : ℕ → List ℕ) → Lists t.now f → Sorted f (in_order o.now) (length (in_order o.now)) result }
{
    let mut piece = [0; BLOCKS];
    let mut room = stack::EMPTY;
    for &root in &o.block[..o.len] {
        if lists::at(&piece, root, 0) > 0 {
            continue;
        }
        collect(t, root, &mut room, &mut piece);
    }
    piece
}

// By block number the piece that it is in, 0 for a number that is not listed: pieces are only compared, and 0 with the others,
// so that an Option would be no plainer.
pub fn cycles(g: &Graph) -> [u16; BLOCKS]
    requires { Gatherable g.now }
    ensures { PiecesOf (tabled g.now) result }
{
    let o = walks::finished(g);
    let mut t = Inward {
        head: [None; BLOCKS],
        ways: [Way {
            from: 0,
            next: None,
        }; ARMS],
        len: 0,
    };
    link_all(g, &mut t);
    sort(&t, &o)
}
