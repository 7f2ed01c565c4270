// The arms into each block, counted by block number: all of them, and those from cold blocks.
ghost use Rattle.std.specs.Prelude.{◌≡◌};
ghost use Rattle.cold.specs.Ways.{outs, links_of, Linked, Adding, Added, Counted};

use crate::is_cold;
use limits::BLOCKS;
use records::{Arms, Graph};

// Two counts side by side, as request 106 names the form.
#[derive(Drop)]
pub struct Ways {
    pub ins: [u16; BLOCKS],
    pub cold: [u16; BLOCKS],
}

// One more for each arm of block k, at the block that it goes to.
pub fn add_arms(a: &Arms, k: u16, table: &mut [u16; BLOCKS])
    requires { Adding a.now k table.old }
    ensures { Added (outs a.now k) table.old table.new }
{
    let first = a.first_of(k);
    for &to in &a.to[first..first + a.count_of(k)] {
        table[to as usize] += 1;
    }
}

impl Ways {
    pub fn count(g: &Graph) -> Self
        requires { Linked (links_of g.now) }
        ensures { Counted (links_of g.now) g.now.b.marks g.now.blocks result }
    {
        let mut ways = Ways {
            ins: [0; BLOCKS],
            cold: [0; BLOCKS],
        };
        for i in 0..g.blocks {
            let k = g.b.listed[i];
            add_arms(&g.a, k, &mut ways.ins);
            if is_cold(g.b.marks_of(k)) {
                add_arms(&g.a, k, &mut ways.cold);
            }
        }
        ways
    }
}
