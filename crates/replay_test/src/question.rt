// The lines of questions. A question is worked in five instalments: 0 to 3 steps, 1, 2, 3, and the rest: what is left of the limit
// where the Rust was stopped, else all that a budget can say. The first is its opening.
use crate::line::Line;
use crate::replay::Replay;
use crate::report::{Report, What};
use crate::tally::add;
use model::{Answer, Failure, Instalment, Refusal};
use std::io;

// The Rust's answer where it was stopped at the limit.
const STOPPED: u32 = 1;

// The most steps of each instalment after the first.
const BUDGETS: [u32; 4] = [1, 2, 3, u32::MAX];

// Why a question has no answer: its opening was refused, or a step.
#[derive(Clone, Copy)]
enum Unanswered {
    Unopened(Refusal),
    Refused(Refusal),
}

// An answer in a line's numbers; the pair and the name are 0 where it has none.
#[derive(Clone, Copy)]
struct Told {
    answer: u32,
    sub: u32,
    sup: u32,
    name: u32,
}

// The numbers are those of a stored line's fifth word: 0 to 3, 100 and more where refused, 200 and more at the opening.
impl From<Result<Answer, Unanswered>> for Told {
    fn from(answer: Result<Answer, Unanswered>) -> Told {
        let (answer, sub, sup, name) = match answer {
            Ok(Answer::Yes) => (0, 0, 0, 0),
            Ok(Answer::More) => (STOPPED, 0, 0, 0),
            Ok(Answer::Failed(Failure::Mismatch { sub, sup })) => (2, sub, sup, 0),
            Ok(Answer::Failed(Failure::MissingField { sub, sup, name })) => (3, sub, sup, name),
            Err(Unanswered::Refused(r)) => (100 + refusals::number(r), 0, 0, 0),
            Err(Unanswered::Unopened(r)) => (200 + refusals::number(r), 0, 0, 0),
        };
        Told {
            answer,
            sub,
            sup,
            name,
        }
    }
}

// What the instalments answered so far, all their steps, and what is left of the limit.
#[derive(Clone, Copy)]
struct Worked {
    answer: Result<Answer, Unanswered>,
    steps: u32,
    left: u32,
}

impl Worked {
    // With an instalment more; one that ends no question makes as many steps as it was given.
    fn and(self, report: &mut Report, budget: u32, done: Instalment) -> io::Result<Worked> {
        add(&mut report.tally.instalments, 1);
        if let Ok(Answer::More) = done.answer {
            report.expect(What::InstalmentSteps, budget, done.steps)?;
        }
        Ok(Worked {
            answer: done.answer.map_err(Unanswered::Refused),
            steps: self.steps.wrapping_add(done.steps),
            left: self.left.wrapping_sub(done.steps),
        })
    }
}

impl Replay {
    // A question: two entries, the limit, the steps, the answer, and the pair and the name that it has. One that has not ended is given
    // up.
    pub fn question(&mut self, line: &Line) -> io::Result<()> {
        add(&mut self.report.tally.questions, 1);
        let worked = self.worked(line)?;
        let told = Told::from(worked.answer);
        let held = [
            (What::Answer, 4, told.answer),
            (What::Steps, 3, worked.steps),
            (What::AnswerSub, 5, told.sub),
            (What::AnswerSup, 6, told.sup),
            (What::AnswerName, 7, told.name),
        ];
        self.report.expect_each(line, &held)?;
        self.count(worked);
        match worked.answer {
            Ok(Answer::More) => self.report.done(self.table.abandon()),
            _ => Ok(()),
        }
    }

    // Opens it, and works it on.
    fn worked(&mut self, line: &Line) -> io::Result<Worked> {
        let limit = match line.number(4) {
            STOPPED => line.number(2),
            _ => u32::MAX,
        };
        let unworked = Worked {
            answer: Ok(Answer::More),
            steps: 0,
            left: limit,
        };
        let budget = (self.report.tally.questions % 4).min(limit);
        let mut worked = match self.table.open(line, budget) {
            Ok(first) => unworked.and(&mut self.report, budget, first)?,
            Err(r) => Worked {
                answer: Err(Unanswered::Unopened(r)),
                ..unworked
            },
        };
        for most in BUDGETS {
            if let Ok(Answer::More) = worked.answer {
                let budget = most.min(worked.left);
                let done = self.table.work(budget);
                worked = worked.and(&mut self.report, budget, done)?;
            }
        }
        Ok(worked)
    }

    // Counts an answer and its steps.
    fn count(&mut self, worked: Worked) {
        let tally = &mut self.report.tally;
        add(&mut tally.steps, worked.steps);
        match worked.answer {
            Ok(Answer::Yes) => add(&mut tally.yes, 1),
            Ok(Answer::More) => add(&mut tally.stopped, 1),
            Ok(Answer::Failed(Failure::Mismatch { .. })) => add(&mut tally.mismatches, 1),
            Ok(Answer::Failed(Failure::MissingField { .. })) => add(&mut tally.missing, 1),
            Err(_) => (),
        }
    }
}
