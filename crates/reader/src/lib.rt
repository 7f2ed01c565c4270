// A file read into a graph that is lent, with refusals 1 to 9 as document 01 gives them: the first record that is refused
// ends the reading. The graph's tables are zeros before; where the file is refused nothing is said of what they hold.
#![tactic(auto)]

ghost use Rattle.std.specs.Prelude.{◌≡◌, ◌≤◌, ◌<◌, ℕ, List};
ghost use Rattle.limits.specs.Limits.{blocks, arms};
ghost use Rattle.records.specs.Tables.{no_blocks, no_arms, ArmsWithin};
ghost use Rattle.reader.specs.Reads.{listed, added, InRecords, BlocksRead, Behind, ArmsRead, PanicOf, Reads};

use limits::{MOST_BYTES, RECORD};
use records::{Arms, Blocks, Graph, faults, fields};
use rules::{Fault, Record, Refusal};

// Lists block `number` at place i.
fn list(b: &mut Blocks, i: usize, number: u16, marks: u8, end: u8, weight: u64)
    requires { (i < blocks) × (number < blocks) }
    ensures { b.new ≡ listed b.old i number marks end weight }
{
    let n = usize::from(number);
    b.place[n] = (i + 1) as u16;
    b.listed[i] = number;
    b.marks[n] = marks;
    b.ends[n] = end;
    b.weight[n] = weight;
}

// The block records that s begins with, and how many they are.
fn read_blocks(s: &[u8], b: &mut Blocks) -> Result<usize, Refusal>
    requires { InRecords s.now × (b.old ≡ no_blocks) }
    ensures { BlocksRead s.now b.new result }
{
    let n = s.len() / RECORD;
    let mut entry = 0;
    for i in 0..n {
        let at = RECORD * i;
        match fields::decode(&s[at..at + RECORD]) {
            Record::Block {
                number,
                marks,
                end,
                weight,
            } => {
                if let Some(fault) = faults::block_fault(b.place_of(number), entry, marks) {
                    return Err(Refusal { fault, place: i });
                }
                entry = faults::entry_next(entry, marks, i);
                list(b, i, number, marks, end, weight);
            }
            Record::Arm { .. } => return Ok(i),
            Record::Outside => return Err(Refusal {
                fault: Fault::OutsideLayout,
                place: i,
            }),
        }
    }
    Ok(n)
}

// Adds arm j, which leaves block `from` and is its last.
fn add(a: &mut Arms, j: usize, from: u16, to: u16, args: u8, weight: u64)
    requires { (j < arms) × (from < blocks) × ArmsWithin a.old j }
    ensures { a.new ≡ added a.old j from to args weight }
{
    let n = usize::from(from);
    let count = a.count[n];
    a.first[n] = faults::first_next(a.first[n], count, j);
    a.count[n] = count + 1;
    a.to[j] = to;
    a.args[j] = args;
    a.weight[j] = weight;
}

// The records of t, which a file has behind its first `blocks`, these blocks: they have to be arms.
fn read_arms(t: &[u8], blocks: usize, b: &Blocks, a: &mut Arms) -> Result<(), Refusal>
    requires { ((s : List ℕ) × Behind s t.now blocks b.now) × (a.old ≡ no_arms) }
    ensures { (s : List ℕ) → Behind s t.now blocks b.now → ArmsRead s blocks b.now a.new result }
{
    let mut last = 0;
    for j in 0..t.len() / RECORD {
        let at = RECORD * j;
        let place = blocks + j;
        match fields::decode(&t[at..at + RECORD]) {
            Record::Arm {
                from,
                to,
                args,
                weight,
            } => {
                let here = b.place_of(from);
                if let Some(fault) = faults::arm_fault(here, b.place_of(to), last, j) {
                    return Err(Refusal { fault, place });
                }
                add(a, j, from, to, args, weight);
                last = here;
            }
            Record::Block { .. } => return Err(Refusal {
                fault: Fault::OutOfOrder,
                place,
            }),
            Record::Outside => return Err(Refusal {
                fault: Fault::OutsideLayout,
                place,
            }),
        }
    }
    Ok(())
}

// Where the first block is listed that has too many arms for its end.
fn first_panic(g: &Graph) -> Option<usize>
    requires { g.now.blocks ≤ blocks }
    ensures { PanicOf g.now result }
{
    g.b.listed[..g.blocks]
        .iter()
        .position(|&n| faults::too_many(g.b.end_of(n), g.a.count_of(n)))
}

// The whole file: what refuses it, 1 to 9, and where nothing does its graph.
#[tactic(auto, using(crate::proofs::ReadLaws::refuses, rules::proofs::Verdicts::too_long, rules::proofs::Verdicts::not_whole))]
pub fn read(s: &[u8], g: &mut Graph) -> Result<(), Refusal>
    requires { (g.old.b ≡ no_blocks) × (g.old.a ≡ no_arms) }
    ensures { Reads s.now g.new result }
{
    if MOST_BYTES < s.len() {
        return Err(Refusal {
            fault: Fault::TooLong,
            place: 0,
        });
    }
    if s.len() % RECORD != 0 {
        return Err(Refusal {
            fault: Fault::NotWhole,
            place: 0,
        });
    }
    g.blocks = read_blocks(s, &mut g.b)?;
    read_arms(&s[RECORD * g.blocks..], g.blocks, &g.b, &mut g.a)?;
    g.arms = s.len() / RECORD - g.blocks;
    match first_panic(g) {
        Some(place) => Err(Refusal {
            fault: Fault::TooManyForEnd,
            place,
        }),
        None => Ok(()),
    }
}
