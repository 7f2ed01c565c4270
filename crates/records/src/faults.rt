// What is refused, by the few numbers that decide it: each function is a line or two of document 01's table. Places are
// counted from 1 and 0 says that there is none, since the rules' place_of and entry_of count so.
ghost use Rattle.std.specs.Prelude.{◌≡◌, ◌<◌};
ghost use Rattle.limits.specs.Limits.{arms};
ghost use Rattle.rules.specs.Graph.{is_entry};
ghost use Rattle.rules.specs.Refusals.{too_many};
ghost use Rattle.records.specs.Faults.{block_fault, arm_fault, entry_next, first_next};

use crate::bits;
use limits::MOST_ARMS;
use rules::Fault;

// By the name that the rules give it, as is_cold of `cold`: a call with the bit is no plainer.
#[tactic(auto, unfolding(rules::specs::Graph::is_entry))]
pub fn is_entry(marks: u8) -> bool
    ensures { result ≡ is_entry marks }
{
    bits::has_mark(marks, bits::ENTRY)
}

// Blocks by 5, 6: where the number is listed already, where the entry is, the marks.
#[tactic(auto, unfolding(crate::specs::Faults::block_fault))]
pub fn block_fault(place: usize, entry: usize, marks: u8) -> Option<Fault>
    ensures { result ≡ block_fault place entry marks }
{
    if 0 < place {
        return Some(Fault::ListedBefore);
    }
    if is_entry(marks) && 0 < entry {
        return Some(Fault::SecondEntry);
    }
    None
}

// Arms by 7, 4, 8: where from and to are listed, where the last arm's from is, how many arms came before.
#[tactic(auto, unfolding(crate::specs::Faults::arm_fault))]
pub fn arm_fault(from: usize, to: usize, last: usize, arms: usize) -> Option<Fault>
    ensures { result ≡ arm_fault from to last arms }
{
    if from == 0 || to == 0 {
        return Some(Fault::NotListed);
    }
    if from < last {
        return Some(Fault::OutOfOrder);
    }
    if MOST_ARMS <= arms {
        return Some(Fault::TooManyArms);
    }
    None
}

#[tactic(auto, unfolding(crate::specs::Faults::entry_next))]
pub fn entry_next(entry: usize, marks: u8, i: usize) -> usize
    requires { i < arms }
    ensures { result ≡ entry_next entry marks i }
{
    if is_entry(marks) { i + 1 } else { entry }
}

// The first arm of a block with `count` arms before, the first at `first`, when arm j is its next.
#[tactic(auto, unfolding(crate::specs::Faults::first_next))]
pub fn first_next(first: u16, count: u16, j: usize) -> u16
    requires { j < arms }
    ensures { result ≡ first_next first count j }
{
    if count == 0 { j as u16 } else { first }
}

// By the number of the end, as `too_many` of the rules.
#[tactic(auto, unfolding(rules::specs::Refusals::too_many))]
pub fn too_many(end: u8, arms: usize) -> bool
    ensures { result ≡ too_many end arms }
{
    match end {
        0 | 1 => 1 < arms,
        2 | 6 => 2 < arms,
        _ => false,
    }
}
