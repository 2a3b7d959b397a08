// A text cursor by value (rules 7.2 to 7.5 and 7.10): where a reader stands, and the number of its line, from
// 1. Each public method takes one line of the form that crate `form` says off the front of what is left of
// the text, and hands back what it read with the next cursor, or nothing where no such line stands there. They
// take every cursor, every text and every word. Each step looks at the bytes from the cursor on and decides
// on their kinds; a word's letters are capital letters before they are compared. A line feed is the only byte
// behind which the line is another; lines are counted up to a limit, which no job text comes near.
#![tactic(auto)]

ghost use Rattle.std.specs.Prelude.{◌≡◌, ◌++◌, suc, ◌≤◌, ◌<◌, min, drop};
ghost use Rattle.put.specs.Digits.{digits};
ghost use Rattle.cursor.specs.Steps.{line_limit, Counting, Entering, EnteringTwo};
ghost use Rattle.cursor.specs.Parts.{Taking, Digiting, Numbering, Spacing, Feeding, Wording};

use crate::bytes::Kind;

pub mod bytes;

// A place in a text, and the number of the line that it is in.
#[derive(Clone, Copy)]
pub struct Cursor {
    pub at: usize,
    pub line: usize,
}

impl Cursor {
    // Lines are counted up to here.
    pub const LINES: usize = 100000;

    // The beginning of a text.
    pub fn start() -> Cursor
        ensures { result ≡ record { at = 0; line = 1 } }
    {
        Cursor { at: 0, line: 1 }
    }

    // One byte of a kind.
    fn byte(self, text: &[u8], kind: Kind) -> Option<(u8, Cursor)>
        ensures { Taking text.now self kind result }
    {
        let b = *text.get(self.at)?;
        if Kind::from(b) != kind {
            return None;
        }
        let at = self.at + 1;
        Some((b, Cursor { at, ..self }))
    }

    // One digit, by its value.
    fn digit(self, text: &[u8]) -> Option<(u16, Cursor)>
        ensures { Digiting text.now self result }
    {
        let (b, next) = self.byte(text, Kind::Digit)?;
        Some((u16::from(b - b'0'), next))
    }

    // One space.
    fn space(self, text: &[u8]) -> Option<Cursor>
        ensures { Spacing text.now self result }
    {
        let (_, next) = self.byte(text, Kind::Space)?;
        Some(next)
    }

    // The number of the next line.
    fn next_line(self) -> usize
        ensures { result ≡ min (suc self.line) line_limit }
    {
        self.line.saturating_add(1).min(Cursor::LINES)
    }

    // One line feed, which the last line ends with too: behind it begins another line.
    fn line_feed(self, text: &[u8]) -> Option<Cursor>
        ensures { Feeding text.now self result }
    {
        let (_, next) = self.byte(text, Kind::LineFeed)?;
        let line = self.next_line();
        Some(Cursor { line, ..next })
    }

    // Up to three further digits of a number that begins with `first`.
    fn more(self, text: &[u8], first: u16) -> Option<(u16, Cursor)>
        requires { (1 ≤ first) × (first < 10) }
        ensures { Numbering text.now
            (digits first ++ drop self.at text.now)
            self.line
            result }
    {
        let mut value = first;
        let mut here = self;
        for _ in 0..3usize {
            let Some((d, next)) = here.digit(text) else {
                return Some((value, here));
            };
            value = value * 10 + d;
            here = next;
        }
        Some((value, here))
    }

    // A number of one to four digits, with no leading zero but 0 itself.
    fn number(self, text: &[u8]) -> Option<(u16, Cursor)>
        ensures { Numbering text.now
            (drop self.at text.now)
            self.line
            result }
    {
        let (d, next) = self.digit(text)?;
        if d == 0 {
            Some((0, next))
        } else {
            next.more(text, d)
        }
    }

    // The letters of a word.
    fn word(self, text: &[u8], word: &[u8]) -> Option<Cursor>
        ensures { Wording text.now word.now self result }
    {
        let mut here = self;
        for letter in word {
            let (b, next) = here.byte(text, Kind::Capital)?;
            if b != *letter {
                return None;
            }
            here = next;
        }
        Some(here)
    }

    // A line of one number.
    pub fn one(self, text: &[u8]) -> Option<(u16, Cursor)>
        ensures { Entering text.now self result }
    {
        let (n, behind) = self.number(text)?;
        let next = behind.line_feed(text)?;
        Some((n, next))
    }

    // A line of two numbers.
    pub fn pair(self, text: &[u8]) -> Option<(u16, u16, Cursor)>
        ensures { EnteringTwo text.now self result }
    {
        let (a, behind) = self.number(text)?;
        let second = behind.space(text)?;
        let (b, next) = second.one(text)?;
        Some((a, b, next))
    }

    // A line of a word and a count. A word with another letter than a capital one stands nowhere.
    pub fn count(self, text: &[u8], word: &[u8]) -> Option<(u16, Cursor)>
        ensures { Counting text.now word.now self result }
    {
        let behind = self.word(text, word)?;
        let second = behind.space(text)?;
        second.one(text)
    }
}
