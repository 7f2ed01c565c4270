// The record format: one record of 16 bytes, what is refused of it, and the tables that a graph is held in.
// `reader` fills the tables from a file, and `writer` makes a file of them.
#![tactic(auto)]

pub mod bits;
pub mod faults;
pub mod fields;

ghost use Rattle.std.specs.Prelude.{◌≡◌, ◌≤◌, ℕ, get_or};

use limits::{ARMS, BLOCKS};

// The blocks by number: where each is listed, counted from 1 (0: not listed, as place_of of the rules counts), and what its
// record says.
// `listed` has the numbers by listed place. Tables side by side, of a fixed length and filled at once, are document 01's form.
#[derive(Drop)]
pub struct Blocks {
    pub place: [u16; BLOCKS],
    pub listed: [u16; BLOCKS],
    pub marks: [u8; BLOCKS],
    pub ends: [u8; BLOCKS],
    pub weight: [u64; BLOCKS],
}

// What the tables say of block n, 0 past their end. Each reads its own table: one that is told which is no plainer.
impl Blocks {
    pub fn place_of(&self, n: u16) -> usize
        ensures { result ≡ get_or self.now.place n 0 }
    {
        usize::from(lists::at(&self.place, n, 0))
    }

    pub fn marks_of(&self, n: u16) -> u8
        ensures { result ≡ get_or self.now.marks n 0 }
    {
        lists::at(&self.marks, n, 0)
    }

    pub fn end_of(&self, n: u16) -> u8
        ensures { result ≡ get_or self.now.ends n 0 }
    {
        lists::at(&self.ends, n, 0)
    }

    pub fn weight_of(&self, n: u16) -> u64
        ensures { result ≡ get_or self.now.weight n 0 }
    {
        lists::at(&self.weight, n, 0)
    }
}

// The arms in file order, and by block number the first that leaves it and how many do: tables side by side, as for blocks.
#[derive(Drop)]
pub struct Arms {
    pub first: [u16; BLOCKS],
    pub count: [u16; BLOCKS],
    pub to: [u16; ARMS],
    pub args: [u8; ARMS],
    pub weight: [u64; ARMS],
}

// What the tables say of the arms of block n, 0 past their end; one for each table, as for blocks.
impl Arms {
    pub fn first_of(&self, n: u16) -> usize
        ensures { result ≡ get_or self.now.first n 0 }
    {
        usize::from(lists::at(&self.first, n, 0))
    }

    pub fn count_of(&self, n: u16) -> usize
        ensures { result ≡ get_or self.now.count n 0 }
    {
        usize::from(lists::at(&self.count, n, 0))
    }
}

// How many blocks and arms there are, and the tables.
#[derive(Drop)]
pub struct Graph {
    pub blocks: usize,
    pub arms: usize,
    pub b: Blocks,
    pub a: Arms,
}

impl Graph {
    ghost use Rattle.limits.specs.Limits.{blocks};
    ghost use Rattle.rules.specs.Graph.{entry, is_entry};
    ghost use Rattle.records.specs.Tables.{empty, tabled};

    // A graph with no block and no arm.
    #[tactic(auto, unfolding(crate::specs::Tables::empty, crate::specs::Tables::no_blocks, crate::specs::Tables::no_arms))]
    pub fn empty() -> Self
        ensures { result ≡ empty }
    {
        Graph {
            blocks: 0,
            arms: 0,
            b: Blocks {
                place: [0; BLOCKS],
                listed: [0; BLOCKS],
                marks: [0; BLOCKS],
                ends: [0; BLOCKS],
                weight: [0; BLOCKS],
            },
            a: Arms {
                first: [0; BLOCKS],
                count: [0; BLOCKS],
                to: [0; ARMS],
                args: [0; ARMS],
                weight: [0; ARMS],
            },
        }
    }

    // The first listed block with the entry mark: "There may be no entry."
    pub fn entry(&self) -> Option<u16>
        requires { self.now.blocks ≤ blocks }
        ensures { result ≡ entry (tabled self.now) }
    {
        for &n in &self.b.listed[..self.blocks] {
            if faults::is_entry(self.b.marks_of(n)) {
                return Some(n);
            }
        }
        None
    }
}

// An order of blocks: the first `len` numbers. The length stands beside its table, since no heap is used.
#[derive(Drop)]
pub struct Order {
    pub block: [u16; BLOCKS],
    pub len: usize,
}
