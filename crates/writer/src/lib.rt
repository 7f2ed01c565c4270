// A graph written as records: its blocks as listed, then the arms of each in that order.
#![tactic(auto)]

ghost use Rattle.std.specs.Prelude.{◌≡◌, ◌+◌, ◌*◌, ◌≤◌, ◌++◌, get_or, length, drop};
ghost use Rattle.limits.specs.Limits.{size, arms};
ghost use Rattle.lists.specs.Behind.{behind};
ghost use Rattle.rules.specs.Records.{blocks_bytes, leaving_bytes, arms_bytes, written};
ghost use Rattle.records.specs.Tables.{leaves, tabled};
ghost use Rattle.writer.specs.Files.{Writable};

use limits::RECORD;
use records::{Arms, Graph, fields};

// The records of the blocks.
fn put_blocks(g: &Graph, out: &mut [u8])
    requires { Writable g.now (length out.old) }
    ensures { out.new ≡ blocks_bytes (tabled g.now) ++ drop (size * g.now.blocks) out.old }
{
    for place in 0..g.blocks {
        let n = g.b.listed[place];
        let number = (n % 256) as u8;
        let head = [1, number, g.b.marks_of(n), g.b.end_of(n), 0, 0, 0, 0];
        let at = RECORD * place;
        fields::encode(&mut out[at..at + RECORD], head, g.b.weight_of(n));
    }
}

// The records of the arms that leave block n.
fn put_leaving(a: &Arms, n: u16, out: &mut [u8])
    requires { (get_or a.now.first n 0 + get_or a.now.count n 0 ≤ arms) × (length out.old ≡ size * get_or a.now.count n 0) }
    ensures { out.new ≡ leaving_bytes n (leaves a.now n) }
{
    let from = (n % 256) as u8;
    let first = a.first_of(n);
    for j in 0..a.count_of(n) {
        let q = first + j;
        let to = (a.to[q] % 256) as u8;
        let head = [2, from, to, a.args[q], 0, 0, 0, 0];
        let at = RECORD * j;
        fields::encode(&mut out[at..at + RECORD], head, a.weight[q]);
    }
}

// The records of the arms, behind those of the blocks.
pub fn put_arms(g: &Graph, out: &mut [u8])
    requires { Writable g.now (length out.old) }
    ensures { out.new ≡ behind (size * g.now.blocks) (arms_bytes (tabled g.now)) out.old }
{
    let mut at = RECORD * g.blocks;
    for i in 0..g.blocks {
        let n = g.b.listed[i];
        let next = at + RECORD * g.a.count_of(n);
        put_leaving(&g.a, n, &mut out[at..next]);
        at = next;
    }
}

// The graph's file, at the front of the room; the rest stays.
pub fn write(g: &Graph, out: &mut [u8])
    requires { Writable g.now (length out.old) }
    ensures { out.new ≡ written (tabled g.now) ++ drop (length (written (tabled g.now))) out.old }
{
    put_blocks(g, out);
    put_arms(g, out);
}
