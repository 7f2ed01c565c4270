// The plain order cut into spans, and what is known of each.
ghost use Rattle.std.specs.Prelude.{◌≡◌, ℕ, ◌≤◌, ◌<◌, None, get_or, set};
ghost use Rattle.limits.specs.Limits.{blocks};
ghost use Rattle.rules.proofs.Counting.{Once};
ghost use Rattle.records.specs.Tables.{in_order};
ghost use Rattle.scans.specs.Spans.{span_of, count_of, with_known, Cut};

use limits::BLOCKS;
use records::Order;

// So many places are a span.
pub const SPAN: usize = 16;

// How many spans there can be.
pub const SPANS: usize = BLOCKS / SPAN;

// The first `count` spans of an order: the span of each block by its number; the blocks that are left, each span's at
// its places and up to where `upto` says; and what is known of each span: nothing, or the start that it has, if any. No heap
// is used, so `left` has the spans one after the other.
#[derive(Drop)]
pub struct Spans {
    pub span: [u16; BLOCKS],
    pub left: [u16; BLOCKS],
    pub upto: [usize; SPANS],
    pub known: [Option<Option<u16>>; SPANS],
    pub count: usize,
}

// How many spans there are of so many places.
pub fn count(len: usize) -> usize
    ensures { result ≡ count_of len }
{
    len.div_ceil(SPAN)
}

impl Spans {
    // An order, in which no block stands twice, cut into spans of which nothing is known.
    pub fn cut(order: &Order) -> Self
        requires { (order.now.len ≤ blocks) × Once (in_order order.now) × ((i : ℕ) → i < order.now.len → get_or order.now.block i 0 < blocks) }
        ensures { Cut order.now result }
    {
        let mut span = [0; BLOCKS];
        let mut upto = [0; SPANS];
        for i in 0..order.len {
            let g = i / SPAN;
            span[usize::from(order.block[i])] = g as u16;
            upto[g] = i + 1;
        }
        Spans {
            span,
            left: order.block,
            upto,
            known: [None; SPANS],
            count: count(order.len),
        }
    }

    // The span that block n is in.
    fn span_of(&self, n: u16) -> usize
        ensures { result ≡ span_of self.now n }
    {
        usize::from(lists::at(&self.span, n, 0)) % SPANS
    }

    // Nothing is known any more of the span of block n.
    pub fn forget(&mut self, n: u16)
        ensures { self.new ≡ with_known self.old (set self.old.known (span_of self.old n) None) }
    {
        let g = self.span_of(n);
        self.known[g] = None;
    }
}
