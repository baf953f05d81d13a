// The head of a share table: the numbers that it keeps beside its rows. What asks for no more than these and one row stands here, so that it serves
// a table by value and one in lent memory alike: what an event is refused for, where a queue enters, whether the slice is in order, the lag of a row.
#![tactic(auto)]

ghost use Rattle.std.specs.Prelude.{◌≡◌};
ghost use Rattle.head.specs.Answers.{plainly, shown_as};
ghost use Rattle.head.specs.Head as heads;

mod judging;
mod lagging;
mod resting;
mod summing;
mod surveying;

pub use judging::standing_verdict;
use rows::{Standing, Terms};
pub use surveying::Survey;

// W is total and A is sum; resting is where V stands while no row is present, and zero while one is; holder and ticks are those of the slice that is
// out, and zero when none is. No `Option` of the two: a table that is not sound may have any three, and goes back as it came. And
// the table may weigh anything: that it weighs no more than its rows can is a fact of a sound one.
#[derive(Clone, Copy)]
pub struct Head {
    pub total: u64,
    pub sum: u64,
    pub resting: u64,
    pub terms: Terms,
    pub out: bool,
    pub holder: u64,
    pub ticks: u64,
}

// Why a call was refused.
#[derive(Clone, Copy)]
pub enum Refusal {
    Unsound,
    QueueOutside,
    WeightOutside,
    LengthOutside,
    SliceOut,
    NotHolder,
    RowTaken,
    NotAsking,
    LagBelow,
    TicksOutside,
    TableEmpty,
    CeilingPassed,
    ListShort,
    LimitOutside,
    RowFree,
    RuleOutside,
    DefaultOutside,
}

// What a call that is not refused answers.
#[derive(Clone, Copy)]
pub enum Answer {
    Accepted,
    Granted { queue: u64, slice: u64 },
    Reported { denominator: u64 },
    Stands(Standing),
}

#[derive(Clone, Copy)]
pub enum Event {
    Fresh {
        terms: Terms,
    },
    Join {
        queue: u64,
        weight: u64,
        length: u64,
    },
    Leave {
        queue: u64,
    },
    Reweight {
        queue: u64,
        weight: u64,
        length: u64,
    },
    Length {
        queue: u64,
        length: u64,
    },
    Grant,
    Return {
        queue: u64,
        used: u64,
        early: bool,
    },
}

// The answer to a line that asks for nothing that there is. A number, as it is printed: no call gives it, so it is no `Refusal`.
pub const BROKEN: u64 = 15;

// The queue that a slice is granted to, and the slice: as `Answer::Granted` has them, whose two numbers theorems name.
#[derive(Clone, Copy)]
pub struct Grant {
    pub queue: u64,
    pub slice: u64,
}

// An answer in numbers, as it is printed: which, and what was granted if anything was.
#[derive(Clone, Copy)]
pub struct Shown {
    pub answer: u64,
    pub grant: Option<Grant>,
}

impl From<Result<Answer, Refusal>> for Shown {
    ghost from_gives = { λ answer shown. shown ≡ shown_as answer };

    fn from(answer: Result<Answer, Refusal>) -> Shown {
        match answer {
            Ok(Answer::Granted { queue, slice }) => Shown {
                answer: 0,
                grant: Some(Grant { queue, slice }),
            },
            Ok(Answer::Accepted | Answer::Reported { .. } | Answer::Stands(_)) => Shown::plain(0),
            Err(why) => Shown::plain(why.into()),
        }
    }
}

impl Shown {
    // An answer that grants nothing.
    pub fn plain(answer: u64) -> Shown
        ensures { result ≡ plainly answer }
    {
        Shown {
            answer,
            grant: None,
        }
    }
}

impl Event {
    // The queue whose row decides on the event: the one that it names, or for a grant the one that it would go to; 0 for a fresh table, as the definition
    // `concerns` has it.
    pub fn concerns(self, chosen: u64) -> u64
        ensures { result ≡ heads.concerns chosen self }
    {
        match self {
            Event::Fresh { .. } => 0,
            Event::Grant => chosen,
            Event::Join { queue, .. }
            | Event::Leave { queue }
            | Event::Reweight { queue, .. }
            | Event::Length { queue, .. }
            | Event::Return { queue, .. } => queue,
        }
    }
}
