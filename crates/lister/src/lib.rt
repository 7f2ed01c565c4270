// The text that `blocklist` prints of a file: read, forwarded, reordered, laid and listed; or the line of its refusal.
#![tactic(auto)]

ghost use Rattle.std.specs.Prelude.{◌≡◌, ◌≤◌, length};
ghost use Rattle.limits.specs.Limits.{text_room};
ghost use Rattle.rules.specs.Listing.{blocklist};
ghost use Rattle.layout.specs.Outcomes.{Writable};
ghost use Rattle.listing.specs.Lines.{Printed};
ghost use Rattle.lister.specs.Listed.{Lists};

use exits::Laid;
use records::Graph;

// The listing of what is laid.
fn list_laid(l: &Laid, out: &mut [u8]) -> usize
    requires writable { Writable l.now }
    requires text_room_in_bounds { text_room ≤ length out.old }
    ensures { Lists l.now out.old out.new result }
{
    let g = &l.graph;
    let heads = heads::heads(g);
    let piece = cycles::cycles(g);
    let loops = listing::looped(g, &piece);
    listing::write(l, &heads, &loops, out)
}

// The text of a file, at the front of the room; the rest stays.
pub fn list(input: &[u8], out: &mut [u8]) -> usize
    requires { text_room ≤ length out.old }
    ensures { Printed (blocklist input.now) out.old out.new result }
{
    let mut g = Graph::empty();
    if let Err(r) = reader::read(input, &mut g) {
        return listing::refused(u64::from(r.fault), r.place as u64, out);
    }
    layout::forwarded(true, &mut g);
    let mut laid = Laid::empty();
    layout::blocks::blocks(true, &mut g, &mut laid);
    list_laid(&laid, out)
}
