// Depth-first walks over a graph, the last arm of a block first, on a stack of their own.
#![tactic(auto)]

ghost use Rattle.std.specs.Prelude.{◌≡◌, ℕ, ◌+◌, ◌≤◌, ◌<◌, ◌∷◌, [], ◌++◌, length, reverse};
ghost use Rattle.limits.specs.Limits.{blocks};
ghost use Rattle.rules.specs.PlainOrder as rules;
ghost use Rattle.rules.proofs.PlainVisit.{nothing};
ghost use Rattle.rules.proofs.TwoWalks as kosaraju;
ghost use Rattle.records.specs.Tables.{Carried, tabled, in_order};
ghost use Rattle.walks.specs.Walking.{Walkable, Begins, LeadsIn, Counted, Shows, Visits, entered, unmarked, all_visited};

use limits::BLOCKS;
use marks::Set;
use records::{Graph, Order};
use stack::{Frame, Popped, Room, Stack};

// What a walk has seen, and what it has finished, the last last.
#[derive(Drop)]
pub struct Walk {
    pub seen: Set,
    pub done: Order,
}

impl Walk {
    #[tactic(auto, using(marks::proofs::SetLaws::size_none), unfolding(records::specs::Tables::in_order, rules::specs::Lists::mem, rules::specs::Lists::any))]
    pub fn new() -> Self
        ensures { Counted 0 result × Shows nothing result }
    {
        Walk {
            seen: marks::none(),
            done: Order {
                block: [0; BLOCKS],
                len: 0,
            },
        }
    }
}

fn push(o: &mut Order, block: u16)
    requires { o.old.len < blocks }
    ensures { (in_order o.new ≡ in_order o.old ++ block ∷ []) × (o.new.len ≡ o.old.len + 1) }
{
    o.block[o.len] = block;
    o.len += 1;
}

// Where the last of a block's arms goes that is not started.
fn leads_to(g: &Graph, f: Frame) -> Option<u16>
    requires { Begins g.now.a f.block }
    ensures { LeadsIn g.now.a f result }
{
    let n = g.a.count_of(f.block);
    let next = f.arm as usize;
    if n <= next {
        return None;
    }
    let first = g.a.first_of(f.block);
    Some(g.a.to[first + (n - 1 - next)])
}

// The walk from one block, which does nothing where that is marked: a removal from the stack for each arm and for each
// block that is finished.
pub fn visit(g: &Graph, root: u16, room: &mut Room, w: &mut Walk)
    requires { Begins g.now.a root × Counted 0 w.old }
    ensures { Counted 0 w.new × Visits g.now.a root w.old w.new }
{
    if marks::is_marked(&w.seen, root) {
        return;
    }
    marks::mark(&mut w.seen, root);
    let mut stack = Stack::new(room).push(root, 0);
    loop {
        let Popped { stack: rest, top } = stack.pop();
        let Some(f) = top else {
            return;
        };
        let Some(t) = leads_to(g, f) else {
            push(&mut w.done, f.block);
            stack = rest;
            continue;
        };
        stack = rest.push(f.block, f.arm + 1);
        if marks::is_marked(&w.seen, t) {
            continue;
        }
        marks::mark(&mut w.seen, t);
        stack = stack.push(t, 0);
    }
}

// The walk from the entry, if there is one; nothing is walked before.
fn reach(g: &Graph, w: &mut Walk)
    requires { Walkable g.now × Counted 0 w.old × Shows nothing w.old }
    ensures { Counted 0 w.new × Shows (entered (tabled g.now)) w.new }
{
    let Some(entry) = g.entry() else {
        return;
    };
    let mut room = stack::EMPTY;
    visit(g, entry, &mut room, w);
}

// The walk from each listed block in turn; nothing is walked before.
fn visit_all(g: &Graph, w: &mut Walk)
    requires { Walkable g.now × Counted 0 w.old × Shows nothing w.old }
    ensures { Counted 0 w.new × Shows (all_visited (tabled g.now)) w.new }
{
    let mut room = stack::EMPTY;
    for &n in &g.b.listed[..g.blocks] {
        visit(g, n, &mut room, w);
    }
}

// The last first.
fn reverse(o: &mut Order)
    requires { o.old.len ≤ blocks }
    ensures { (in_order o.new ≡ reverse (in_order o.old)) × (o.new.len ≡ o.old.len) }
{
    o.block[..o.len].reverse();
}

// Behind an order the listed blocks that are not marked.
fn unreached(g: &Graph, seen: &Set, o: &mut Order)
    requires { (g.now.blocks ≤ blocks) × (o.old.len + length (unmarked g.now seen.now) ≤ blocks) }
    ensures { (in_order o.new ≡ in_order o.old ++ unmarked g.now seen.now) × (o.new.len ≡ o.old.len + length (unmarked g.now seen.now)) }
{
    for &n in &g.b.listed[..g.blocks] {
        if marks::is_marked(seen, n) {
            continue;
        }
        push(o, n);
    }
}

// Depth-first from the entry, last arm first, in reverse finishing order; then the unreached blocks as listed.
pub fn order(g: &Graph) -> Order
    requires { Carried g.now }
    ensures { (in_order result ≡ rules.order (tabled g.now)) × (result.len ≡ g.now.blocks) }
{
    let mut w = Walk::new();
    reach(g, &mut w);
    reverse(&mut w.done);
    unreached(g, &w.seen, &mut w.done);
    w.done
}

// The first walk of `cycles`: from each listed block in turn, what is finished, the last first.
pub fn finished(g: &Graph) -> Order
    requires { Walkable g.now }
    ensures { (in_order result ≡ kosaraju.finished (tabled g.now)) × (result.len ≡ g.now.blocks) }
{
    let mut w = Walk::new();
    visit_all(g, &mut w);
    reverse(&mut w.done);
    w.done
}
