// The kinds of cases (second/README.md, "Batch format"), each with the letter that stands for it in a batch.
ghost use Rattle.try_batch.specs.Kinds.{Decodes};

// What a case asks. The job or the network comes from a text, from numbers or with records.
#[derive(Clone, Copy)]
pub enum Kind {
    // what the program prints to a text, how it fills an output, and what reading a text leaves
    PlanText,
    FillText,
    ReadText,
    // of a job in a text
    HouseForText,
    HouseText,
    JudgeForText,
    JudgeText,
    ChooseText,
    WriteText,
    // of a job from numbers
    PlanNumbers,
    HouseNumbers,
    HouseJudgeNumbers,
    ChooseNumbers,
    WriteNumbers,
    // of a job with records
    ReadRecords,
    PlanRecords,
    HouseRecords,
    JudgeRecords,
    WriteRecords,
    // of a floor book
    Admit,
    MayStart,
    Trolleys,
}

// A letter that stands for no kind.
#[derive(Clone, Copy)]
pub struct NoKind(pub u8);

impl TryFrom<u8> for Kind {
    type Error = NoKind;

    ghost try_from_gives = { Decodes };

    fn try_from(letter: u8) -> Result<Self, NoKind> {
        Ok(match letter {
            b'P' => Kind::PlanText,
            b'a' => Kind::FillText,
            b'm' => Kind::ReadText,
            b'H' => Kind::HouseForText,
            b'h' => Kind::HouseText,
            b'Q' => Kind::JudgeForText,
            b'q' => Kind::JudgeText,
            b'C' => Kind::ChooseText,
            b'W' => Kind::WriteText,
            b't' => Kind::PlanNumbers,
            b'w' => Kind::HouseNumbers,
            b'n' => Kind::HouseJudgeNumbers,
            b'c' => Kind::ChooseNumbers,
            b'x' => Kind::WriteNumbers,
            b'r' => Kind::ReadRecords,
            b'p' => Kind::PlanRecords,
            b'o' => Kind::HouseRecords,
            b'j' => Kind::JudgeRecords,
            b'y' => Kind::WriteRecords,
            b'B' => Kind::Admit,
            b'G' => Kind::MayStart,
            b'T' => Kind::Trolleys,
            _ => return Err(NoKind(letter)),
        })
    }
}
