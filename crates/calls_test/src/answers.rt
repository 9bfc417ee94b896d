// What a call answers, told short: a number that was made, `ok`, an instalment's answer, or a refusal's number, where a full region
// gives its own too. A refusal at the opening is told apart from one of a step.
// A call that is refused must leave every word; one that does not is told as `CHANGED`. An opening whose step is refused has asked the
// question; one that leaves every word is told as `SAME`.
use model::{Answer, Instalment, Refusal};
use std::fmt;

// What a call answers, by its kind: a make, work, an opening, or another.
#[derive(Clone, Copy)]
pub enum Answered {
    Made(Result<u32, Refusal>),
    Worked(Instalment),
    Opened(Result<Instalment, Refusal>),
    Done(Result<(), Refusal>),
}

impl From<Result<u32, Refusal>> for Answered {
    fn from(made: Result<u32, Refusal>) -> Answered {
        Answered::Made(made)
    }
}

impl From<Instalment> for Answered {
    fn from(worked: Instalment) -> Answered {
        Answered::Worked(worked)
    }
}

impl From<Result<Instalment, Refusal>> for Answered {
    fn from(opened: Result<Instalment, Refusal>) -> Answered {
        Answered::Opened(opened)
    }
}

impl From<Result<(), Refusal>> for Answered {
    fn from(done: Result<(), Refusal>) -> Answered {
        Answered::Done(done)
    }
}

// An answer, and whether the call left every word.
#[derive(Clone, Copy)]
pub struct Told {
    pub answered: Answered,
    pub is_same: bool,
}

impl fmt::Display for Told {
    fn fmt<W: fmt::Write>(&self, f: &mut fmt::Formatter<W>) -> fmt::Result {
        match self.answered {
            Answered::Made(Ok(n)) => write!(f, " {n}"),
            Answered::Done(Ok(())) => write!(f, " ok"),
            Answered::Opened(
                Ok(
                    Instalment {
                        answer: Err(r),
                        steps,
                    },
                ),
            ) => {
                let same = if self.is_same { " SAME" } else { "" };
                write!(f, " r{}+{steps}{same}", Short(r))
            }
            Answered::Opened(Err(r)) => write!(f, " u{}{}", Short(r), self.changed()),
            Answered::Opened(
                Ok(
                    Instalment {
                        answer: Ok(answer),
                        ..
                    },
                ),
            )
            | Answered::Worked(
                Instalment {
                    answer: Ok(answer),
                    ..
                },
            ) => f.write_str(said(answer)),
            Answered::Made(Err(r))
            | Answered::Done(Err(r))
            | Answered::Worked(Instalment { answer: Err(r), .. }) => {
                write!(f, " r{}{}", Short(r), self.changed())
            }
        }
    }
}

impl Told {
    // That a word changed where one did.
    fn changed(&self) -> &'static str {
        if self.is_same { "" } else { " CHANGED" }
    }
}

// An instalment's answer.
fn said(answer: Answer) -> &'static str {
    match answer {
        Answer::Yes => " yes",
        Answer::More => " MORE",
        Answer::Failed(_) => " FAILED",
    }
}

// A refusal, as 01 numbers it, and the region that is full.
#[derive(Clone, Copy)]
struct Short(Refusal);

impl fmt::Display for Short {
    fn fmt<W: fmt::Write>(&self, f: &mut fmt::Formatter<W>) -> fmt::Result {
        write!(f, "{}", refusals::number(self.0))?;
        match self.0 {
            Refusal::NoRoom(region) => write!(f, "({region})"),
            _ => Ok(()),
        }
    }
}
