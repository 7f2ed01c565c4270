// Shares of weights, exact in 64 bits: where a product would be too wide, the quotient and the remainder are multiplied.
#![tactic(auto)]

ghost use Rattle.std.specs.Prelude.{◌≡◌, ◌*◌, ◌/◌, ◌≤◌, ◌<◌, leb};
ghost use Rattle.rules.specs.Weights.{scale, share, floor, over_four_fifths};

// Shares are parts of this.
pub const SCALE: u64 = 10000;

// The largest weight.
pub const LARGEST: u64 = 18446744073709551615;

// What is added to round a quotient by SCALE up.
const ROUND_UP: u64 = SCALE - 1;

// A quotient over this is over LARGEST when it is scaled.
const MOST: u64 = LARGEST / SCALE;

// "entry weight x often / 10,000 rounded down".
pub fn floor(entered: u64, often: u64) -> u64
    requires { often ≤ scale }
    ensures { result ≡ floor entered often }
{
    let q = entered / SCALE;
    let r = entered % SCALE;
    q * often + r * often / SCALE
}

// Whether w is at least `likely` of `whole`; a whole of 0 has no share but 0.
pub fn at_least(w: u64, whole: u64, likely: u64) -> bool
    requires { likely ≤ scale }
    ensures { result ≡ leb likely (share w whole) }
{
    if whole == 0 {
        return likely == 0;
    }
    let q = whole / SCALE;
    let r = whole % SCALE;
    q * likely + (r * likely + ROUND_UP) / SCALE <= w
}

// "5 x arm > 4 x target weight".
pub fn over_four_fifths(arm: u64, whole: u64) -> bool
    ensures { result ≡ over_four_fifths arm whole }
{
    4 * (whole / 5) + 4 * (whole % 5) / 5 < arm
}

// r x 10,000 / whole, of an r that is less than whole: the last number that it is at least, by halving.
fn part_of(r: u64, whole: u64) -> u64
    requires { r < whole }
    ensures { result ≡ r * scale / whole }
{
    let mut low: u64 = 0;
    let mut high: u64 = SCALE;
    while low + 1 < high {
        let mid = (low + high) / 2;
        if at_least(r, whole, mid) {
            low = mid;
        } else {
            high = mid;
        }
    }
    low
}

// "w x 10,000 / whole rounded down, at most the largest u64, and 0 when whole is 0".
pub fn out_of(w: u64, whole: u64) -> u64
    ensures { result ≡ share w whole }
{
    if whole == 0 {
        return 0;
    }
    let q = w / whole;
    if MOST < q {
        return LARGEST;
    }
    let base = q * SCALE;
    let part = part_of(w % whole, whole);
    if LARGEST - base < part {
        return LARGEST;
    }
    base + part
}
