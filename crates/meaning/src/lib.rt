// What the vault's calls answer, and the numbers that all code is built for. The definitions are in specs/.
#![tactic(auto)]

ghost use Rattle.std.specs.Prelude.{◌≡◌};
ghost use Rattle.meaning.specs.Results.{refusal, verdict, verdict_or_refusal, done_or_refusal, whole_or_refusal};

pub mod limits;

// A verdict on a word, or on all lanes of a strip, with g unknowns and m equations.
#[derive(Clone, Copy, PartialEq, Eq)]
pub enum Verdict {
    // One codeword agrees.
    Unique { g: usize, m: usize },
    // 2 to the d codewords agree, d at least 1.
    Ambiguous { g: usize, m: usize, d: usize },
    // No codeword agrees.
    Inconsistent { g: usize, m: usize },
    // Of a strip: no codeword agrees in this lane, the first such.
    LaneInconsistent { lane: usize, g: usize, m: usize },
}

// Why a call is refused, in the order in which it is tried.
#[derive(Clone, Copy, PartialEq, Eq)]
pub enum Refused {
    // n is too large, or the sheet's length is not that of N records.
    BadShape,
    // The first record that breaks a rule.
    BadRecord { place: usize },
    // The sheet has no free position, so that it holds nothing.
    HoldsNothing,
    // r is no check length, or there are too few free positions for it.
    BadCheck,
    // The word or the payload is not as long as it has to be.
    BadLength,
    // The first symbol that is none.
    BadSymbol { place: usize },
    // The output is too short.
    ShortOutput,
    // The ceiling is too high.
    BadCeiling,
    // There are more unknowns than the ceiling allows.
    TooMany { g: usize },
}

// An answer as it is written down: one case for each row of 01's table, `Done`, the 0 of the calls that have no verdict, and the
// 2 of a strip. Every result of a call is one.
#[derive(Clone, Copy, PartialEq, Eq)]
pub enum Answer {
    // 0: the call did its work.
    Done,
    // 0: one codeword agrees.
    Unique { g: usize, m: usize },
    // 1: 2 to the d codewords agree, d at least 1.
    Ambiguous { g: usize, m: usize, d: usize },
    // 2: no codeword agrees.
    Inconsistent { g: usize, m: usize },
    // 2: of a strip, no codeword agrees in this lane, the first such.
    LaneInconsistent { lane: usize, g: usize, m: usize },
    // 11: n is too large, or the sheet's length is not that of N records.
    BadShape,
    // 12: the first record that breaks a rule.
    BadRecord { place: usize },
    // 13: r is no check length, or there are too few free positions for it.
    BadCheck,
    // 14: the word or the payload is not as long as it has to be.
    BadLength,
    // 15: the first symbol that is none.
    BadSymbol { place: usize },
    // 16: the output is too short.
    ShortOutput,
    // 17: the ceiling is too high.
    BadCeiling,
    // 18: there are more unknowns than the ceiling allows.
    TooMany { g: usize },
    // 19: the sheet has no free position, so that it holds nothing. Told after 12 and before 13.
    HoldsNothing,
}

impl From<Refused> for Answer {
    ghost from_gives = { λ e a. a ≡ refusal e };

    fn from(e: Refused) -> Answer {
        match e {
            Refused::BadShape => Answer::BadShape,
            Refused::BadRecord { place } => Answer::BadRecord { place },
            Refused::HoldsNothing => Answer::HoldsNothing,
            Refused::BadCheck => Answer::BadCheck,
            Refused::BadLength => Answer::BadLength,
            Refused::BadSymbol { place } => Answer::BadSymbol { place },
            Refused::ShortOutput => Answer::ShortOutput,
            Refused::BadCeiling => Answer::BadCeiling,
            Refused::TooMany { g } => Answer::TooMany { g },
        }
    }
}

impl From<Verdict> for Answer {
    ghost from_gives = { λ v a. a ≡ verdict v };

    fn from(v: Verdict) -> Answer {
        match v {
            Verdict::Unique { g, m } => Answer::Unique { g, m },
            Verdict::Ambiguous { g, m, d } => Answer::Ambiguous { g, m, d },
            Verdict::Inconsistent { g, m } => Answer::Inconsistent { g, m },
            Verdict::LaneInconsistent { lane, g, m } => Answer::LaneInconsistent { lane, g, m },
        }
    }
}

impl From<Result<Verdict, Refused>> for Answer {
    ghost from_gives = { λ r a. a ≡ verdict_or_refusal r };

    fn from(r: Result<Verdict, Refused>) -> Answer {
        match r {
            Ok(v) => Answer::from(v),
            Err(e) => Answer::from(e),
        }
    }
}

impl From<Result<(), Refused>> for Answer {
    ghost from_gives = { λ r a. a ≡ done_or_refusal r };

    fn from(r: Result<(), Refused>) -> Answer {
        match r {
            Ok(()) => Answer::Done,
            Err(refused) => Answer::from(refused),
        }
    }
}

impl From<Result<bool, Refused>> for Answer {
    ghost from_gives = { λ r a. a ≡ whole_or_refusal r };

    fn from(r: Result<bool, Refused>) -> Answer {
        match r {
            Ok(true) => Answer::Done,
            Ok(false) => Answer::Inconsistent { g: 0, m: 0 },
            Err(why) => Answer::from(why),
        }
    }
}
