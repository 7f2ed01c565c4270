// The public calls, which `layout_c` exports for C and Rust to link. Each tests its input itself, asks nothing of its caller, and
// answers what `rules` says in Outcome, for all bytes and all lent lengths.
#![tactic(auto)]

pub mod blocks;

ghost use Rattle.std.specs.Prelude.{◌≡◌};
ghost use Rattle.rules.specs.Faults.{number_of};
ghost use Rattle.rules.specs.Outcome.{refusal, written_back, write_back, layout_blocks};
ghost use Rattle.records.specs.Tables.{Carried, Apart};
ghost use Rattle.exits.specs.Lays.{split_number};
ghost use Rattle.layout.specs.Outcomes.{ForwardedIf, laid_out, Writable, Writes};

use exits::Laid;
use limits::{NO_SPLIT, RECORD};
use records::Graph;
use rules::{Answer, Fault, Refusal};

// A refusal: zero in all that it does not name.
#[tactic(auto, unfolding(rules::specs::Outcome::refusal))]
fn refuse(r: Refusal, needed: usize) -> Answer
    ensures { result ≡ refusal (number_of r.fault) r.place needed }
{
    Answer {
        refusal: u64::from(r.fault),
        place: r.place as u64,
        needed: needed as u64,
        written: 0,
        blocks: 0,
        bridges: 0,
        moved: 0,
        split: 0,
    }
}

// The lent bytes are fewer than are needed.
fn short(needed: usize) -> Answer
    ensures { result ≡ refusal 10 0 needed }
{
    let r = Refusal {
        fault: Fault::NoRoom,
        place: 0,
    };
    refuse(r, needed)
}

// What is written back has no bridges, no moves and no split.
#[tactic(auto, unfolding(rules::specs::Outcome::written_back, crate::specs::Outcomes::laid_out, exits::specs::Lays::split_number))]
fn written_back(written: usize, blocks: usize) -> Answer
    ensures { result ≡ written_back written blocks }
{
    laid_out(written, blocks, 0, 0, None)
}

// What is laid: the bytes and the blocks, the bridges that were made, the arms that were moved, and where the cold part begins;
// C has 256 for a split that is not there.
#[tactic(auto, unfolding(crate::specs::Outcomes::laid_out, exits::specs::Lays::split_number))]
fn laid_out(
    written: usize,
    blocks: usize,
    bridges: usize,
    moved: usize,
    split: Option<usize>,
) -> Answer
    ensures { result ≡ laid_out written blocks bridges moved (split_number split) }
{
    Answer {
        refusal: 0,
        place: 0,
        needed: 0,
        written: written as u64,
        blocks: blocks as u64,
        bridges: bridges as u64,
        moved: moved as u64,
        split: split.map_or(NO_SPLIT, |i| i as u64),
    }
}

// The arms forwarded, if that is asked for, and how many moved.
pub fn forwarded(on: bool, g: &mut Graph) -> usize
    requires { Carried g.old × Apart g.old }
    ensures { ForwardedIf on g.old g.new result }
{
    if on { forwarding::forward(g) } else { 0 }
}

// Reads the records of `input` and writes them back to the front of `out`. A refusal (1 to 10) changes no byte of `out`.
pub fn layout_write_back(input: &[u8], out: &mut [u8]) -> Answer
    ensures value { result ≡ (write_back input.now out.old).answer }
    ensures out_after { out.new ≡ (write_back input.now out.old).lent }
{
    let mut g = Graph::empty();
    if let Err(r) = reader::read(input, &mut g) {
        return refuse(r, 0);
    }
    let needed = RECORD * (g.blocks + g.arms);
    if out.len() < needed {
        return short(needed);
    }
    writer::write(&g, out);
    written_back(needed, g.blocks)
}

// What is laid, with its heads, at the front of `out`, and the answer; n blocks were laid, and so many arms had moved.
fn write_laid(l: &Laid, n: usize, moved: usize, out: &mut [u8]) -> Answer
    requires { Writable l.now }
    ensures { Writes l.now n moved out.old out.new result }
{
    let g = &l.graph;
    let bytes = RECORD * (g.blocks + g.arms);
    if out.len() < bytes {
        return short(bytes);
    }
    let heads = heads::heads(g);
    laid::write(l, &heads, out);
    laid_out(bytes, n, l.bridges, moved, l.split)
}

// Reads the records of `input`, forwards and reorders if asked to, and lays the blocks: laid records at the front of `out`.
// A refusal (1 to 10) changes no byte of `out`.
pub fn layout_blocks(input: &[u8], forward: bool, reorder: bool, out: &mut [u8]) -> Answer
    ensures value { result ≡ (layout_blocks forward reorder input.now out.old).answer }
    ensures out_after { out.new ≡ (layout_blocks forward reorder input.now out.old).lent }
{
    let mut g = Graph::empty();
    if let Err(r) = reader::read(input, &mut g) {
        return refuse(r, 0);
    }
    let moved = forwarded(forward, &mut g);
    let mut laid = Laid::empty();
    blocks::blocks(reorder, &mut g, &mut laid);
    write_laid(&laid, g.blocks, moved, out)
}
