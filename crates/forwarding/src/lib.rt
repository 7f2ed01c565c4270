// Arms to blocks that only pass control on go where those lead.
#![tactic(auto)]

ghost use Rattle.std.specs.Prelude.{◌≡◌, ℕ, ◌+◌, ◌≤◌, ◌<◌, false, get_or, EachIndex};
ghost use Rattle.limits.specs.Limits.{blocks, arms};
ghost use Rattle.rules.specs.Graph.{numbers_of};
ghost use Rattle.rules.specs.Forward.{through, leaves_at, goal, entered};
ghost use Rattle.rules.proofs.Membership.{In};
ghost use Rattle.records.specs.Tables.{block_at, tabled, Apart, ArmsWithin, Carried};
ghost use Rattle.forwarding.specs.Forwards.{ForwardedFrom};
ghost use Rattle.forwarding.specs.Steps.{passing, plain, ours_of, Goals, hop_of, differ, differing, turn_of, moved_of, turned, Reached, Leads, useless_of, dead_of, cleared};

use limits::BLOCKS;
use records::bits::{ADDRESSED, DEAD, NAMED, PARAMETERS, has_mark};
use records::{Arms, Blocks, Graph, faults};

// ---- marks

// No mark that keeps a block: not the entry, no dead end, no parameters, no name.
#[tactic(auto, unfolding(crate::specs::Steps::plain, rules::specs::Graph::is_dead, rules::specs::Graph::has_parameters, rules::specs::Graph::is_named))]
fn plain_marks(marks: u8) -> bool
    ensures { result ≡ plain marks }
{
    !faults::is_entry(marks)
        && !has_mark(marks, DEAD)
        && !has_mark(marks, PARAMETERS)
        && !has_mark(marks, NAMED)
}

// ---- goals

// Where arms to a block may go instead, by its number.
type Onward = [Option<u16>; BLOCKS];

// Whether a block is a way through: no instruction, and one arm without arguments. An end and what an arm has are numbers
// here and below, as the rules' graph has them (`through`, `ours`).
#[tactic(auto, unfolding(crate::specs::Steps::passing))]
fn passes(end: u8, marks: u8, count: usize, args: u8) -> bool
    ensures { result ≡ passing end marks count args }
{
    if end != 0 {
        return false;
    }
    if count != 1 {
        return false;
    }
    if args != 0 {
        return false;
    }
    plain_marks(marks)
}

// Where block n leads, if it is a way through.
#[tactic(auto, using(crate::proofs::GoalLaws::way_is))]
fn through(b: &Blocks, a: &Arms, n: u16) -> Option<u16>
    ensures { result ≡ through (block_at b.now a.now n) }
{
    let q = lists::at(&a.first, n, 0);
    if passes(
        b.end_of(n),
        b.marks_of(n),
        a.count_of(n),
        lists::at(&a.args, q, 0),
    ) {
        return Some(lists::at(&a.to, q, 0));
    }
    None
}

// The first block from `start` on that is no way through, if there is one along that many arms.
#[tactic(auto, using(crate::proofs::GoalLaws::chain_steps), unfolding(rules::specs::Forward::leaves_at))]
fn leaves_at(g: &Graph, start: u16, steps: usize) -> Option<u16>
    requires { Carried g.now × In start (numbers_of (tabled g.now)) }
    ensures { result ≡ leaves_at (tabled g.now) steps start }
{
    let mut at = start;
    // The steps are only counted.
    for _left in (0..steps).rev() {
        let Some(next) = through(&g.b, &g.a, at) else {
            return Some(at);
        };
        at = next;
    }
    None
}

// Where arms to block n may go instead: a chain leaves within as many steps as there are blocks.
#[tactic(auto, using(crate::proofs::GoalLaws::chain_steps))]
fn goal(g: &Graph, n: u16) -> Option<u16>
    requires { Carried g.now × In n (numbers_of (tabled g.now)) }
    ensures { result ≡ goal (tabled g.now) n }
{
    let next = through(&g.b, &g.a, n)?;
    leaves_at(g, next, g.blocks)
}

// The goals of all listed blocks.
fn goals(g: &Graph) -> Onward
    requires { Carried g.now }
    ensures { Goals g.now result g.now.blocks }
{
    let mut onward = [None; BLOCKS];
    for i in 0..g.blocks {
        let k = g.b.listed[i];
        onward[k as usize] = goal(g, k);
    }
    onward
}

// ---- moves

// Whether a block's arms can be sent elsewhere by rewriting them alone.
#[tactic(auto, unfolding(crate::specs::Steps::ours_of))]
fn ours(end: u8, count: usize) -> bool
    ensures { result ≡ ours_of end count }
{
    count == 1 && end <= 2 || count == 2 && end == 2 || 1 <= count && end == 3
}

// Where an arm to block `here` goes on to: its goal, unless one of its block's arms `to` goes there already.
#[tactic(auto, unfolding(crate::specs::Steps::hop_of))]
fn hop(onward: &Onward, to: &[u16], here: u16) -> u16
    ensures { result ≡ hop_of onward.now to.now here }
{
    let Some(m) = lists::at(onward, here, None) else {
        return here;
    };
    if to.contains(&m) {
        return here;
    }
    m
}

#[tactic(auto, unfolding(crate::specs::Steps::differ))]
fn changed(here: u16, next: u16) -> usize
    ensures { result ≡ differ here next }
{
    if here == next { 0 } else { 1 }
}

// The arms `to` that leave a block with this end, each in turn; how many moved.
fn move_block(onward: &Onward, end: u8, to: &mut [u16]) -> usize
    ensures { (result ≡ differing to.old to.new) × (to.new ≡ turn_of onward.now end to.old) }
{
    if !ours(end, to.len()) {
        return 0;
    }
    let mut moved = 0;
    for j in 0..to.len() {
        let here = to[j];
        let next = hop(onward, to, here);
        to[j] = next;
        moved += changed(here, next);
    }
    moved
}

// The arms of all blocks, block by block; how many moved.
#[tactic(auto, using(crate::proofs::StepLaws::few_moves), unfolding(crate::specs::Steps::turns_of, crate::specs::Steps::moved_of))]
fn move_arms(onward: &Onward, g: &mut Graph) -> usize
    requires { (g.old.blocks ≤ blocks) × ArmsWithin g.old.a arms }
    ensures { (result ≡ moved_of onward.now g.old.b g.old.a g.old.blocks) × (g.new ≡ turned onward.now g.old g.old.blocks) }
{
    let mut moved = 0;
    for i in 0..g.blocks {
        let k = g.b.listed[i];
        let f = g.a.first_of(k);
        let c = g.a.count_of(k);
        moved += move_block(onward, g.b.end_of(k), &mut g.a.to[f..f + c]);
    }
    moved
}

// ---- clearing

// The blocks that arms with these targets go to are reached too.
fn reach(to: &[u16], reached: &mut [bool; BLOCKS])
    requires { EachIndex to.now (λ j. get_or to.now j 0 < blocks) }
    ensures { Reached to.now reached.old reached.new }
{
    for &k in to {
        reached[k as usize] = true;
    }
}

// Whether an arm goes there, by block number.
#[tactic(auto, using(crate::proofs::ReachLaws::entered_steps), unfolding(records::specs::Tables::tabled))]
fn reach_all(g: &Graph) -> [bool; BLOCKS]
    requires { Leads g.now }
    ensures { (x : ℕ) → get_or result x false ≡ entered (tabled g.now) x }
{
    let mut reached = [false; BLOCKS];
    for i in 0..g.blocks {
        let k = g.b.listed[i];
        let f = g.a.first_of(k);
        reach(&g.a.to[f..f + g.a.count_of(k)], &mut reached);
    }
    reached
}

// Whether a block is of no use any more: it has a goal, no arm in, and its address is not taken.
#[tactic(auto, unfolding(crate::specs::Steps::useless_of, rules::specs::Graph::is_addressed))]
fn useless(goal: Option<u16>, reached: bool, marks: u8) -> bool
    ensures { result ≡ useless_of goal reached marks }
{
    goal.is_some() && !reached && !has_mark(marks, ADDRESSED)
}

// The marks of a dead end.
#[tactic(auto, unfolding(crate::specs::Steps::dead_of, rules::specs::Graph::is_dead, rules::specs::Graph::bit))]
fn dead(marks: u8) -> u8
    ensures { result ≡ dead_of marks }
{
    if has_mark(marks, DEAD) {
        marks
    } else {
        marks + (1 << DEAD)
    }
}

// The blocks that are of no use any more become dead ends without arms, and weigh nothing.
#[tactic(auto, unfolding(crate::specs::Steps::cleared, crate::specs::Steps::clear_of, rules::specs::Lists::pick))]
fn clear(onward: &Onward, reached: &[bool; BLOCKS], g: &mut Graph)
    requires { (g.old.blocks ≤ blocks) × ((i : ℕ) → i < g.old.blocks → get_or g.old.b.listed i 0 < blocks) }
    ensures { g.new ≡ cleared onward.now reached.now g.old g.old.blocks }
{
    for i in 0..g.blocks {
        let k = g.b.listed[i] as usize;
        if useless(onward[k], reached[k], g.b.marks[k]) {
            g.b.marks[k] = dead(g.b.marks[k]);
            g.b.weight[k] = 0;
            g.a.count[k] = 0;
        }
    }
}

// Goals are fixed first, then the arms move; last, what no arm goes to any more is cleared. How many arms moved.
pub fn forward(g: &mut Graph) -> usize
    requires sound { Carried g.old }
    requires apart { Apart g.old }
    ensures { ForwardedFrom g.old g.new result }
{
    let onward = goals(g);
    let moved = move_arms(&onward, g);
    let reached = reach_all(g);
    clear(&onward, &reached, g);
    moved
}
