// The five kinds of bytes of a job text (rule 7.5): a match on the byte gives the kind that the cursor
// decides on.
ghost use Rattle.std.specs.Prelude.{◌≡◌};
ghost use Rattle.cursor.specs.Bytes.{kind_of};

#[derive(Clone, Copy, PartialEq, Eq)]
pub enum Kind {
    Digit,
    Space,
    LineFeed,
    Capital,
    Other,
}

impl From<u8> for Kind {
    // The kind of a byte.
    ghost from_gives = { λ b kind. kind ≡ kind_of b };

    #[tactic(auto, using(crate::proofs::ByteKinds::kinds))]
    fn from(b: u8) -> Kind {
        match b {
            b'0'..=b'9' => Kind::Digit,
            b' ' => Kind::Space,
            b'\n' => Kind::LineFeed,
            b'A'..=b'Z' => Kind::Capital,
            _ => Kind::Other,
        }
    }
}
