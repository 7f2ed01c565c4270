// Where the next trace starts. A queue would hold stale entries, so this is a scan over the plain order by the start
// rule; and a table, kept up as blocks are laid, has the heaviest arm into each block from a laid one.
//
// The scan looks at no more than it must. The plain order is cut into spans. What was found in a span is known until a
// block of it is laid or entered by a heavier arm; and a look at a span leaves the laid blocks out of the next one.
#![tactic(auto)]

pub mod spans;

ghost use Rattle.std.specs.Prelude.{◌≡◌, ◌≤◌, ◌<◌, ◌*◌};
ghost use Rattle.limits.specs.Limits.{blocks};
ghost use Rattle.seeds.specs.Reached.{Notes, Noted};
ghost use Rattle.scans.specs.Spans.{Forgets, Forgotten};
ghost use Rattle.scans.specs.Looks.{Sifted, Spanned, Told, Searched};

use limits::BLOCKS;
use marks::Set;
use records::{Arms, Blocks};
use spans::{SPAN, Spans};

// Those blocks at the places from `from` up to `end` that are not laid put together at the front; where they end.
#[tactic(auto, using(crate::proofs::SiftLaws::sifted_laid, crate::proofs::SiftLaws::sifted_left), unfolding(crate::specs::Looks::free))]
fn sift(seen: &Set, from: usize, end: usize, left: &mut [u16; BLOCKS]) -> usize
    requires { (from ≤ end) × (end ≤ blocks) }
    ensures { Sifted seen.now from end left.old left.new result }
{
    let mut kept = from;
    for i in from..end {
        let n = left[i];
        if marks::is_marked(seen, n) {
            continue;
        }
        left[kept] = n;
        kept += 1;
    }
    kept
}

impl Spans {
    // What laying block n adds to the table of the heaviest arms in from laid blocks. Nothing is known any more of the
    // spans of n and of what it raises.
    #[tactic(auto, using(crate::proofs::SpanLaws::fewer_more, crate::proofs::SpanLaws::forgot_now, crate::proofs::SpanLaws::forgot_still))]
    pub fn note(&mut self, a: &Arms, n: u16, reached: &mut [u64; BLOCKS])
        requires { Notes a.now n }
        ensures noted { Noted a.now n reached.old reached.new }
        ensures forgets { Forgets self.old reached.old self.new reached.new × Forgotten self.new n }
    {
        let first = a.first_of(n);
        for q in first..first + a.count_of(n) {
            let to = a.to[q];
            if reached[usize::from(to)] < a.weight[q] {
                self.forget(to);
            }
        }
        self.forget(n);
        seeds::note(a, n, reached);
    }

    // The best start of span g, which is looked at where it is not known.
    fn known_of(
        &mut self,
        b: &Blocks,
        seen: &Set,
        reached: &[u64; BLOCKS],
        low: u64,
        g: usize,
    ) -> Option<u16>
        requires { Spanned self.old × (g < self.old.count) }
        ensures spanned { Spanned self.new × (self.new.count ≡ self.old.count) }
        ensures told { Told b.now seen.now reached.now low self.old self.new g result }
    {
        if let Some(best) = self.known[g] {
            return best;
        }
        let from = SPAN * g;
        let end = sift(seen, from, self.upto[g], &mut self.left);
        let best = seeds::best_of(b, &self.left[from..end], seen, reached, low);
        self.upto[g] = end;
        self.known[g] = Some(best);
        best
    }

    // The block that starts the next trace: the best of those left, the first on ties.
    pub fn next_seed(
        &mut self,
        b: &Blocks,
        seen: &Set,
        reached: &[u64; BLOCKS],
        low: u64,
    ) -> Option<u16>
        requires { Spanned self.old }
        ensures spanned { Spanned self.new }
        ensures searched { Searched b.now seen.now reached.now low self.old self.new result }
    {
        let mut best = None;
        for g in 0..self.count {
            if let Some(n) = self.known_of(b, seen, reached, low, g) {
                best = seeds::better(b, reached, best, n);
            }
        }
        best
    }
}
