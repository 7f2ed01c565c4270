// The listing: a line for each place of a laid graph, and where its cold part starts. A refusal has one line.
#![tactic(auto)]

pub mod text;

ghost use Rattle.std.specs.Prelude.{◌≡◌, ℕ, ◌+◌, ◌*◌, ◌≤◌, ◌<◌, length, get_or};
ghost use Rattle.limits.specs.Limits.{blocks, line_room, last_room, text_room};
ghost use Rattle.rules.specs.Listing.{refusal_line};
ghost use Rattle.listing.specs.Put.{Put};
ghost use Rattle.listing.specs.Lines.{front_of, back_of, lines_to, last_line, Printable, Printed, Prints};
ghost use Rattle.listing.specs.Loops.{mate, LoopsOf};

use exits::Laid;
use limits::{BLOCKS, NUMBERS};
use marks::Set;
use records::Graph;
use text::{NEWLINE, SPACE, Text};

// Whether another block of the graph is of block m's piece.
fn has_mate(g: &Graph, piece: &[u16; BLOCKS], m: u16) -> bool
    requires { g.now.blocks ≤ blocks }
    ensures { result ≡ mate g.now piece.now m }
{
    let own = lists::at(piece, m, 0);
    g.b.listed[..g.blocks]
        .iter()
        .any(|&k| k != m && lists::at(piece, k, 0) == own)
}

// The blocks in loops: those whose piece has two or more blocks.
pub fn looped(g: &Graph, piece: &[u16; BLOCKS]) -> Set
    requires { (g.now.blocks ≤ blocks) × ((i : ℕ) → i < g.now.blocks → get_or g.now.b.listed i 0 < blocks) }
    ensures { LoopsOf g.now piece.now result }
{
    let mut set = marks::none();
    for &m in &g.b.listed[..g.blocks] {
        if has_mate(g, piece, m) {
            marks::mark(&mut set, m);
        }
    }
    set
}

// The front of a line: a place and its block. Bridges are numbered past the blocks.
#[tactic(auto, using(crate::proofs::LineLaws::lengths))]
fn put_block(text: &mut Text, place: usize, number: u16, weight: u64)
    requires { text.old.len + length (front_of place number weight) ≤ length text.old.out.now }
    ensures { Put (front_of place number weight) text.old text.new }
{
    text.put_number(place as u64, SPACE);
    text.put_letter(NUMBERS as u16 <= number, b'+', b'B');
    text.put_number(number as u64, SPACE);
    text.put_number(weight, SPACE);
}

// The back of it: how the block is laid.
#[tactic(auto, using(crate::proofs::LineLaws::lengths))]
fn put_laid(text: &mut Text, marks: u8, head: bool, in_loop: bool, exit: u8)
    requires { text.old.len + length (back_of marks head in_loop exit) ≤ length text.old.out.now }
    ensures { Put (back_of marks head in_loop exit) text.old text.new }
{
    text.put_letter(cold::is_cold(marks), b'C', b'W');
    text.put_letter(head, b'H', b'-');
    text.put_letter(in_loop, b'L', b'-');
    text.put_number(exit as u64, NEWLINE);
}

// The lines of all places.
#[tactic(auto, using(crate::proofs::LineLaws::parts_fit))]
fn put_places(text: &mut Text, l: &Laid, heads: &Set, loops: &Set)
    requires printable { Printable l.now.graph }
    requires room { text.old.len + line_room * l.now.graph.blocks ≤ length text.old.out.now }
    ensures upper_bound { text.new.len ≤ text.old.len + line_room * l.now.graph.blocks }
    ensures put { Put (lines_to l.now heads.now loops.now l.now.graph.blocks) text.old text.new }
{
    for i in 0..l.graph.blocks {
        let k = l.graph.b.listed[i];
        put_block(text, i, k, l.graph.b.weight_of(k));
        put_laid(
            text,
            l.graph.b.marks_of(k),
            marks::is_marked(heads, k),
            marks::is_marked(loops, k),
            lists::at(&l.exits, k, 0),
        );
    }
}

// The last line: where the cold part starts, or that there is none.
#[tactic(auto, using(crate::proofs::DigitLaws::decimal_fits))]
fn put_split(text: &mut Text, split: Option<usize>)
    requires { text.old.len + last_room ≤ length text.old.out.now }
    ensures { Put (last_line split) text.old text.new }
{
    text.put_word(b"split ");
    match split {
        Some(place) => text.put_number(place as u64, NEWLINE),
        None => text.put_word(b"none\n"),
    }
}

// The listing of what is laid, at the front of the room; the rest stays.
pub fn write(l: &Laid, heads: &Set, loops: &Set, out: &mut [u8]) -> usize
    requires printable { Printable l.now.graph }
    requires text_room_in_bounds { text_room ≤ length out.old }
    ensures { Prints l.now heads.now loops.now out.old out.new result }
{
    let mut text = Text { out, len: 0 };
    put_places(&mut text, l, heads, loops);
    put_split(&mut text, l.split);
    text.len
}

// The line of a refusal, at the front of the room; the rest stays. It takes any two numbers, as it promises.
#[tactic(auto, using(crate::proofs::LineLaws::words_fit))]
pub fn refused(number: u64, place: u64, out: &mut [u8]) -> usize
    requires { text_room ≤ length out.old }
    ensures { Printed (refusal_line (record { number = number; place = place })) out.old out.new result }
{
    let mut text = Text { out, len: 0 };
    text.put_word(b"refused ");
    text.put_number(number, SPACE);
    text.put_word(b"at ");
    text.put_number(place, NEWLINE);
    text.len
}
