// The marks of a block by bit, as document 01 numbers them and `bit` of the rules takes them.
ghost use Rattle.std.specs.Prelude.{◌≡◌, ◌<◌};
ghost use Rattle.rules.specs.Graph.{bit};

pub const ENTRY: u32 = 0;

pub const COLD: u32 = 1;

pub const DEAD: u32 = 2;

pub const PARAMETERS: u32 = 3;

pub const NAMED: u32 = 4;

pub const ADDRESSED: u32 = 5;

pub const WALKING: u32 = 6;

#[tactic(auto, unfolding(rules::specs::Graph::bit))]
pub fn has_mark(marks: u8, k: u32) -> bool
    requires { k < 8 }
    ensures { result ≡ bit k marks }
{
    marks >> k & 1 == 1
}
