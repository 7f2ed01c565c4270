// A laid graph written as records: its places, then the arms of each in that order.
#![tactic(auto)]

ghost use Rattle.std.specs.Prelude.{◌≡◌, cond, ◌++◌, ◌+◌, ◌*◌, ◌<◌, eqb, leb, length, drop};
ghost use Rattle.limits.specs.Limits.{size, numbers, marks_below, blocks};
ghost use Rattle.exits.specs.Lays.{split_number};
ghost use Rattle.laid.specs.Written.{records_to, laid_file, HeadsOf, Writable};

use exits::Laid;
use limits::{MARKS, NUMBERS, RECORD};
use marks::Set;
use records::fields;

// "kind 3 for a bridge": bridges are numbered past the blocks.
fn kind(n: u16) -> u8
    ensures { result ≡ cond (leb numbers n) 3 1 }
{
    if NUMBERS as u16 <= n { 3 } else { 1 }
}

// "mark bit 7 for a head"
fn head_marks(marks: u8, head: bool) -> u8
    requires { marks < marks_below }
    ensures { result ≡ marks + cond head marks_below 0 }
{
    if head { marks + MARKS } else { marks }
}

// "byte 4 = 1 on the cold part's first block"
#[tactic(auto, unfolding(exits::specs::Lays::split_number))]
fn begins_cold(i: usize, split: Option<usize>) -> u8
    requires { i < blocks }
    ensures { result ≡ cond (eqb i (split_number split)) 1 0 }
{
    u8::from(split == Some(i))
}

// The records of the places.
fn put_places(l: &Laid, heads: &Set, out: &mut [u8])
    requires { Writable l.now (length out.old) }
    ensures { out.new ≡ records_to l.now heads.now l.now.graph.blocks ++ drop (size * l.now.graph.blocks) out.old }
{
    let b = &l.graph.b;
    for i in 0..l.graph.blocks {
        let n = b.listed[i];
        let marks = head_marks(b.marks_of(n), marks::is_marked(heads, n));
        let exit = lists::at(&l.exits, n, 0);
        let head = [
            kind(n),
            (n % 256) as u8,
            marks,
            b.end_of(n),
            begins_cold(i, l.split),
            exit,
            0,
            0,
        ];
        let at = RECORD * i;
        fields::encode(&mut out[at..at + RECORD], head, b.weight_of(n));
    }
}

// The file of what is laid, at the front of the room; the rest stays.
pub fn write(l: &Laid, heads: &Set, out: &mut [u8])
    requires heads { HeadsOf l.now heads.now }
    requires room { Writable l.now (length out.old) }
    ensures { out.new ≡ laid_file l.now ++ drop (length (laid_file l.now)) out.old }
{
    put_places(l, heads, out);
    writer::put_arms(&l.graph, out);
}
