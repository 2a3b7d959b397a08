// Puts bytes, words and numbers into lent bytes, one behind the other. An `Out` is the bytes with the place where
// the next goes on, and each of its methods moves the place past what it has put. Every place and every list is
// taken; what would lie beyond the end of the list is dropped, and the place is then the end, or stays if it was
// beyond. So no caller has to ask for room before it puts. Whoever lends the bytes has them back when the `Out` is
// gone, since every method keeps the list that was lent (`Puts`). Who prints a text into a list of a least length
// closes it with `zero_rest` (rules 9.2, 9.13 and 10.6): places behind the text are zero up to that length, and
// those beyond are never touched.
#![tactic(auto)]

ghost use Rattle.std.specs.Prelude.{◌<◌, [], ◌∷◌};
ghost use Rattle.put.specs.Digits.{digit, digits, field};
ghost use Rattle.put.specs.Putting.{Put};

// Lent bytes, and the place where the next byte goes.
#[derive(Drop)]
pub struct Out<'a> {
    pub bytes: &'a mut [u8],
    pub at: usize,
}

// One byte at a place of a list, and the place past it.
fn byte_at(b: u8, out: &mut [u8], at: usize) -> usize
    ensures { Put out.old at (b ∷ []) out.new result }
{
    if at < out.len() {
        out[at] = b;
        return at + 1;
    }
    at
}

// One digit.
fn digit_at(d: usize, out: &mut [u8], at: usize) -> usize
    requires { d < 10 }
    ensures { Put out.old at (digit d ∷ []) out.new result }
{
    byte_at(48 + d as u8, out, at)
}

// The digits of a number below 10,000, as all numbers of a text are, each at the place that the one before leaves.
// They are put without a call of itself, and the place is a number of its own meanwhile, not one behind a
// reference, since a text has thousands of them.
fn short_at(n: usize, out: &mut [u8], at: usize) -> usize
    requires { n < 10000 }
    ensures { Put out.old at (digits n) out.new result }
{
    let mut next = at;
    if n >= 1000 {
        next = digit_at(n / 1000 % 10, out, next);
    }
    if n >= 100 {
        next = digit_at(n / 100 % 10, out, next);
    }
    if n >= 10 {
        next = digit_at(n / 10 % 10, out, next);
    }
    digit_at(n % 10, out, next)
}

impl Out<'_> {
    ghost use Rattle.put.specs.Putting.{Puts, ZerosRest};

    // One byte.
    pub fn byte(&mut self, b: u8)
        ensures { Puts self.old (b ∷ []) self.new }
    {
        self.at = byte_at(b, self.bytes, self.at);
    }

    // A word, byte by byte.
    pub fn word(&mut self, word: &[u8])
        ensures { Puts self.old word.now self.new }
    {
        for b in word {
            self.byte(*b);
        }
    }

    // The digits of a number: those of its tenth, then its last one, unless there are few.
    pub fn number(&mut self, n: usize)
        ensures { Puts self.old (digits n) self.new }
    {
        if n < 10000 {
            self.at = short_at(n, self.bytes, self.at);
        } else {
            self.number(n / 10);
            self.at = digit_at(n % 10, self.bytes, self.at);
        }
    }

    // A number and the byte behind it.
    pub fn field(&mut self, n: usize, after: u8)
        ensures { Puts self.old (field n after) self.new }
    {
        self.number(n);
        self.byte(after);
    }

    // Zeros from the place on, up to a least length or to the end of the list. The place stays.
    pub fn zero_rest(&mut self, least: usize)
        ensures { ZerosRest self.old least self.new }
    {
        for i in self.at..least.min(self.bytes.len()) {
            self.bytes[i] = 0;
        }
    }
}
