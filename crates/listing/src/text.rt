// Text in lent bytes: it stands at the front of them, and each function puts some behind what stands there.
ghost use Rattle.std.specs.Prelude.{◌≡◌, [], ◌∷◌, ◌++◌, ◌+◌, ◌≤◌, length};
ghost use Rattle.rules.specs.Listing.{space, decimal, letter};
ghost use Rattle.listing.specs.Put.{Put};

// What stands between words, and what ends a line.
pub const SPACE: u8 = 32;

pub const NEWLINE: u8 = 10;

// A number has at most this many digits.
const DIGITS: usize = 20;

// The bytes are lent and there is no heap: so the length stands beside them.
#[derive(Drop)]
pub struct Text<'a> {
    pub out: &'a mut [u8],
    pub len: usize,
}

impl<'a> Text<'a> {
    #[tactic(auto, unfolding(lists::specs::Behind::behind))]
    pub fn put_word(&mut self, word: &[u8])
        requires { self.old.len + length word.now ≤ length self.old.out.now }
        ensures { Put word.now self.old self.new }
    {
        let end = self.len + word.len();
        self.out[self.len..end].copy_from_slice(word);
        self.len = end;
    }

    // The digits of a number, made from the last on, so that their place goes down with what is left. By its contract
    // `Display` may fail, so it does not say enough here.
    pub fn put_decimal(&mut self, n: u64)
        requires { self.old.len + length (decimal n) ≤ length self.old.out.now }
        ensures { Put (decimal n) self.old self.new }
    {
        let mut digits = [0; DIGITS];
        let mut at = DIGITS - 1;
        let mut rest = n;
        while 10 <= rest {
            digits[at] = (48 + rest % 10) as u8;
            rest /= 10;
            at -= 1;
        }
        digits[at] = (48 + rest) as u8;
        self.put_word(&digits[at..]);
    }

    // A number, and the byte behind it.
    pub fn put_number(&mut self, n: u64, end: u8)
        requires { self.old.len + length (decimal n) + 1 ≤ length self.old.out.now }
        ensures { Put (decimal n ++ (end ∷ [])) self.old self.new }
    {
        self.put_decimal(n);
        self.put_word(&[end]);
    }

    // One letter or another, and a space behind it.
    pub fn put_letter(&mut self, c: bool, x: u8, y: u8)
        requires { self.old.len + 2 ≤ length self.old.out.now }
        ensures { Put (letter c x y ++ (space ∷ [])) self.old self.new }
    {
        self.put_word(&[if c { x } else { y }, SPACE]);
    }
}
