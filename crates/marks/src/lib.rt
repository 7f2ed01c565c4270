// A set of block numbers: which blocks are marked. Only this crate knows how a set is held.
#![tactic(auto)]

ghost use Rattle.std.specs.Prelude.{◌≡◌, false, ◌||◌, ℕ, ◌<◌, eqb};
ghost use Rattle.limits.specs.Limits.{blocks};
ghost use Rattle.marks.specs.Sets.{member};

use limits::BLOCKS;

// The bytes that hold a set, 0 for each number that is not in it, as `member` reads them and specs elsewhere lend them.
pub type Set = [u8; BLOCKS];

// No block is marked.
pub fn none() -> Set
    ensures { (m : ℕ) → member result m ≡ false }
{
    [0; BLOCKS]
}

pub fn is_marked(set: &Set, n: u16) -> bool
    ensures { result ≡ member set.now n }
{
    lists::at(set, n, 0) != 0
}

// Block n is marked, and all that were.
pub fn mark(set: &mut Set, n: u16)
    requires { n < blocks }
    ensures { (m : ℕ) → member set.new m ≡ eqb m n || member set.old m }
{
    set[n as usize] = 1;
}
