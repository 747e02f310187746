// Answers as the programs print them, and their standard input and output.
#![tactic(auto)]

ghost use Rattle.std.specs.Prelude.{◌≡◌, Some};
ghost use Rattle.printing.specs.Answer.{answer_name, answer_text};

use std::fmt;

pub mod tolerant;

// An answer by the papers' number, which prints with its name; 0 is done. It is a number, and no enum: the
// answers come from several, `Status`, the clock's errors and others, and one that the papers lack prints too.
#[derive(Clone, Copy, Debug, PartialEq, Eq)]
pub struct AnswerNumber(pub u32);

impl AnswerNumber {
    // Empty where the papers have no such answer.
    fn name(self) -> &'static str
        ensures name { result.now ≡ answer_name self.0 }
    {
        match self.0 {
            0 => "Done",
            1 => "OutOfRange",
            2 => "Alignment",
            3 => "DataTooLarge",
            4 => "NotAligned",
            5 => "CrossesPageBoundary",
            6 => "RefDivOutOfRange",
            7 => "RefClockSmallerThanCpu1xClock",
            8 => "ZeroClock",
            9 => "TargetTooFast",
            10 => "AddressSpan",
            11 => "UnknownCode",
            12 => "FieldTooWide",
            13 => "BadLog",
            21 => "EraseErrorBitSet",
            22 => "ProgrammingErrorBitSet",
            23 => "RepliesEnded",
            24 => "LogFull",
            25 => "LentLengthChanged",
            31 => "BaudDivOutOfRange",
            32 => "RepeatedSector",
            33 => "ListTooLong",
            _ => "",
        }
    }
}

impl fmt::Display for AnswerNumber {
    ghost output = { λ answer. Some (answer_text answer.0) };

    fn fmt<W: fmt::Write>(&self, f: &mut fmt::Formatter<W>) -> fmt::Result {
        let number = self.0;
        let name = self.name();
        write!(f, "{number} {name}")
    }
}
