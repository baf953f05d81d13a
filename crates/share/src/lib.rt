// The share table of one render engine: queues share it by weight, a slice at a time.
#![tactic(auto)]

ghost use Rattle.std.specs.Prelude.{◌≡◌, IfOk, IfErr};
ghost use Rattle.share.specs.Events.{empty_table};
ghost use Rattle.share.specs.Calls.{fresh_reply, grant_reply, join_reply, lag_list, lag_reply, leave_reply, length_reply, refused, release_reply, replied, return_reply, reweight_reply, standing_reply, step};
ghost use Rattle.share.specs.Walks.{Permitted};

mod changes;
mod lags;
mod soundness;

use head::{Survey, standing_verdict};
pub use head::{Answer, BROKEN, Event, Grant, Head, Refusal, Shown};
use rows::Row;
pub use rows::{Standing, Terms};

#[derive(Clone, Copy)]
pub struct Table {
    pub rows: [Row; 64],
    pub head: Head,
}

// What every call hands back: its answer, and the table beside it.
#[derive(Clone, Copy)]
pub struct Reply {
    pub answer: Result<Answer, Refusal>,
    pub table: Table,
}

// What is told of a table that is not sound: nothing. No going row of any table stands before 0. One default for the queue and the position.
const UNTOLD: Survey = Survey {
    chosen: None,
    nearest: 0,
};

// What is known of an event that is not refused: the queue that decides on it, and a position that no going row stands before.
#[derive(Clone, Copy)]
struct Judged {
    queue: u64,
    nearest: u64,
}

impl Table {
    pub const QUEUES: u64 = rows::QUEUES;

    pub const MAX_WEIGHT: u64 = rows::MAX_WEIGHT;

    pub const MAX_LENGTH: u64 = rows::MAX_LENGTH;

    pub const DEFAULT_LENGTH: u64 = rows::DEFAULT_LENGTH;

    pub const FORMER_DEFAULT: u64 = rows::FORMER_DEFAULT;

    pub const MAX_LIMIT: u64 = rows::MAX_LIMIT;

    pub const MAX_RULE: u64 = rows::MAX_RULE;

    pub const CEILING: u64 = rows::CEILING;

    // What the table that a refused fresh gives was made with.
    pub const LEAST_TERMS: Terms = Terms {
        limit: 1,
        rule: 1,
        default: rows::DEFAULT_LENGTH,
    };

    // A table of free rows, whatever the terms: `fresh` is the call that looks at them.
    #[tactic(auto, unfolding(crate::specs::Events::empty_table, head::specs::Head::empty_head))]
    pub fn empty(terms: Terms) -> Table
        ensures { result ≡ empty_table terms }
    {
        Table {
            rows: [rows::BLANK; 64],
            head: Head {
                total: 0,
                sum: 0,
                resting: 0,
                terms,
                out: false,
                holder: 0,
                ticks: 0,
            },
        }
    }

    // Refused, it has no table to hand back and gives the empty one with slice limit 1, of rule 1 and default 8.
    pub fn fresh(terms: Terms) -> Reply
        ensures { result ≡ fresh_reply terms }
    {
        Table::empty(Table::LEAST_TERMS).apply(Event::Fresh { terms })
    }

    // The queue enters at the least whole number not below V, or where an empty table rests, and opens its first request.
    pub fn join(self, queue: u64, weight: u64, length: u64) -> Reply
        ensures { result ≡ join_reply self queue weight length }
    {
        self.apply(Event::Join {
            queue,
            weight,
            length,
        })
    }

    // Freed if V has reached it, or else going until V does.
    pub fn leave(self, queue: u64) -> Reply
        ensures { result ≡ leave_reply self queue }
    {
        self.apply(Event::Leave { queue })
    }

    // Every call ends in its release, so a sound table has no row left to free.
    pub fn release(self) -> Reply
        ensures { result ≡ release_reply self }
    {
        Reply {
            answer: self.release_told(),
            table: self,
        }
    }

    #[tactic(auto, using(crate::proofs::Accepted::nothing_to_free), unfolding(crate::specs::Calls::release_reply, crate::specs::Calls::release_checks, crate::specs::Calls::call))]
    fn release_told(&self) -> Result<Answer, Refusal>
        ensures { replied self.now result ≡ release_reply self.now }
    {
        Refusal::Unsound.when(!self.is_sound())?;
        Ok(Answer::Accepted)
    }

    // A leave with its release, then at once a join of the same number.
    pub fn reweight(self, queue: u64, weight: u64, length: u64) -> Reply
        ensures { result ≡ reweight_reply self queue weight length }
    {
        self.apply(Event::Reweight {
            queue,
            weight,
            length,
        })
    }

    // Sets the length of the next request; the open one stays.
    pub fn length(self, queue: u64, length: u64) -> Reply
        ensures { result ≡ length_reply self queue length }
    {
        self.apply(Event::Length { queue, length })
    }

    // The engine goes to the eligible request with the least deadline, for a slice.
    pub fn grant(self) -> Reply
        ensures { result ≡ grant_reply self }
    {
        self.apply(Event::Grant)
    }

    // The slice comes back with the ticks used; the request goes on, or the next one opens.
    pub fn return_slice(self, queue: u64, used: u64, early: bool) -> Reply
        ensures { result ≡ return_reply self queue used early }
    {
        self.apply(Event::Return { queue, used, early })
    }

    // Where a row stands to V: behind it, level with it, or ahead, and then how far V has yet to rise. For the operators' panel; nothing is altered.
    pub fn standing(self, queue: u64) -> Reply
        ensures { result ≡ standing_reply self queue }
    {
        Reply {
            answer: self.standing_told(queue),
            table: self,
        }
    }

    #[tactic(auto, using(crate::proofs::Sound::sound_says, crate::proofs::Totals::total_most, rows::proofs::Shares::position_small), unfolding(crate::specs::Calls::standing_reply, crate::specs::Calls::standing_checks, crate::specs::Calls::call))]
    fn standing_told(&self, queue: u64) -> Result<Answer, Refusal>
        ensures { replied self.now result ≡ standing_reply self.now queue }
    {
        let row = self.row_of(queue);
        standing_verdict(self.is_sound().then_some(row), queue)?;
        Ok(Answer::Stands(self.head.time().stands(row.position)))
    }

    // Each row's lag, as the numerator over the common denominator W x 720,720. Entries 64 and up are kept.
    pub fn lags(self, list: &mut [i64]) -> Reply
        ensures told { result ≡ lag_reply self list.old }
        ensures written { list.new ≡ lag_list self list.old }
    {
        Reply {
            answer: self.lags_told(list),
            table: self,
        }
    }

    #[tactic(auto, using(crate::proofs::Sound::sound_says, crate::proofs::Totals::total_most), unfolding(crate::specs::Calls::lag_reply, crate::specs::Calls::lag_list, crate::specs::Calls::lag_checks, crate::specs::Calls::call, head::specs::Lag::lag_unit))]
    fn lags_told(&self, list: &mut [i64]) -> Result<Answer, Refusal>
        ensures told { replied self.now result ≡ lag_reply self.now list.old }
        ensures written { list.new ≡ lag_list self.now list.old }
    {
        Refusal::Unsound.when(!self.is_sound())?;
        Refusal::ListShort.when(list.len() < 64)?;
        self.write_lags(list);
        Ok(Answer::Reported {
            denominator: self.head.total * rows::UNIT,
        })
    }

    // One event of a run: the door for every program and every call that is an event. A refused fresh keeps the present table.
    pub fn apply(self, event: Event) -> Reply
        ensures { result ≡ step self event }
    {
        let mut table = self;
        let answer = table.change(event);
        Reply { answer, table }
    }

    // In place, where no refusal applies. Refused, the table is as it was.
    fn change(&mut self, event: Event) -> Result<Answer, Refusal>
        ensures { replied self.new result ≡ step self.old event }
    {
        let Judged { queue, nearest } = self.judge(event)?;
        match event {
            Event::Fresh { terms } => *self = Table::empty(terms),
            Event::Join {
                queue,
                weight,
                length,
            } => self.enter(queue, weight, length, nearest),
            Event::Leave { queue } => self.depart(queue, nearest),
            Event::Reweight {
                queue,
                weight,
                length,
            } => self.reenter(queue, weight, length, nearest),
            Event::Length { queue, length } => self.set_length(queue, length),
            Event::Grant => return Ok(self.hand_out(queue)),
            Event::Return { queue, used, early } => self.take_back(queue, used, early, nearest),
        }
        Ok(Answer::Accepted)
    }

    // Walks once over the rows, and judges the event by what it saw there.
    fn judge(&self, event: Event) -> Result<Judged, Refusal>
        ensures allowed { IfOk result (λ j. Permitted self.now event j.queue j.nearest) }
        ensures against { IfErr result (λ why. refused self.now why ≡ step self.now event) }
    {
        let survey = self.survey();
        let told = survey.unwrap_or(UNTOLD);
        let queue = event.concerns(told.chosen.unwrap_or(0));
        let row = survey.is_some().then_some(self.row_of(queue));
        self.head.verdict(event, row)?;
        Ok(Judged {
            queue,
            nearest: told.nearest,
        })
    }
}
