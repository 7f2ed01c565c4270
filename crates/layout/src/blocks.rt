// The passes from a graph in tables to its places.
ghost use Rattle.std.specs.Prelude.{◌≡◌, ◌<◌, ℕ, get_or, Some};
ghost use Rattle.limits.specs.Limits.{blocks};
ghost use Rattle.rules.specs.Laid.{ordered};
ghost use Rattle.cold.specs.Spreading.{SpreadFrom};
ghost use Rattle.records.specs.Tables.{Carried, tabled, in_order};
ghost use Rattle.exits.specs.Lays.{Unlaid};
ghost use Rattle.layout.specs.Blocks.{split_at, Arrangeable, PlacedOf};

use exits::Laid;
use limits::BLOCKS;
use records::{Blocks, Graph, Order};

// The place where the block at `split` of the order is laid; none where there is no such block.
#[tactic(auto, unfolding(crate::specs::Blocks::split_at))]
fn split_place(b: &Blocks, order: &[u16; BLOCKS], split: Option<usize>) -> Option<usize>
    requires { (i : ℕ) → split ≡ Some i → (i < blocks) × (0 < get_or b.now.place (get_or order.now i 0) 0) }
    ensures { result ≡ split_at b.now.place order.now split }
{
    let Some(i) = split else {
        return None;
    };
    Some(b.place_of(order[i]) - 1)
}

// The order of the listed blocks, before it is split: their traces, or the plain order.
#[tactic(auto, unfolding(rules::specs::Laid::ordered))]
fn ordered(reorder: bool, g: &Graph) -> Order
    requires { Carried g.now }
    ensures { (in_order result ≡ ordered reorder (tabled g.now)) × (result.len ≡ g.now.blocks) }
{
    if reorder {
        traces::traces(g)
    } else {
        walks::order(g)
    }
}

// Spread, put in order, split, and left by exits with bridges.
pub fn blocks(reorder: bool, g: &mut Graph, laid: &mut Laid)
    requires ready { Arrangeable g.old }
    requires unlaid { Unlaid laid.old }
    ensures spread { SpreadFrom g.old g.new }
    ensures placed { PlacedOf reorder (tabled g.old) laid.new }
{
    cold::spread(g);
    let order = ordered(reorder, g);
    let parts = cold::partition(g, order);
    exits::lay(g, &parts.order, parts.split, laid);
    laid.split = split_place(&laid.graph.b, &parts.order.block, parts.split);
}
