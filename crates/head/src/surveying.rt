// What a walk over the rows tells of the table, and the slice that is out.
ghost use Rattle.std.specs.Prelude.{◌≡◌, ◌≤◌};
ghost use Rattle.rows.specs.Numbers.{ceiling, max_length, max_total};
ghost use Rattle.rows.specs.Orderly as orderly;
ghost use Rattle.head.specs.Judged as judged;
ghost use Rattle.head.specs.Slice as slices;

use crate::Head;
use crate::judging::{default_outside, limit_outside, rule_outside};
use rows::{Request, Row, Seen, State, Terms, VirtualTime};

// What is told of a sound table: whom a grant would name, if the table is not empty, and a position that no going row stands before.
#[derive(Clone, Copy)]
pub struct Survey {
    pub chosen: Option<u64>,
    pub nearest: u64,
}

// Each term in its range.
#[tactic(auto, unfolding(rows::specs::Orderly::allowed, laws::specs::Lists::every))]
fn terms_allowed(terms: Terms) -> bool
    ensures { result ≡ orderly.allowed terms }
{
    !limit_outside(terms) && !rule_outside(terms) && !default_outside(terms)
}

// Deadlines are to stay within the ceiling, so that positions do. The weight is the row's, and stays when the request goes.
#[tactic(auto, unfolding(rows::specs::Orderly::fits_ceiling))]
pub(crate) fn fits_ceiling(q: Request, weight: u64) -> bool
    requires { (q.opening ≤ ceiling) × (q.length ≤ max_length) }
    ensures { result ≡ orderly.fits_ceiling weight q }
{
    q.deadline(weight) <= rows::CEILING
}

// The longest slice that a request may have: the lesser of the slice limit and what is left of it.
#[tactic(auto, unfolding(rows::specs::Orderly::slice_most))]
fn slice_most(terms: Terms, q: Request) -> u64
    requires { q.served ≤ q.length }
    ensures { result ≡ orderly.slice_most terms q }
{
    terms.limit.min(q.length - q.served)
}

// And the shortest: today the same number, but the definitions are two, and `orderly_holder` names each.
#[tactic(auto, unfolding(rows::specs::Orderly::slice_least))]
fn slice_least(terms: Terms, q: Request) -> u64
    requires { q.served ≤ q.length }
    ensures { result ≡ orderly.slice_least terms q }
{
    slice_most(terms, q)
}

impl Head {
    // V, of a table that weighs no more than its rows can.
    pub fn time(self) -> VirtualTime
        requires { self.total ≤ max_total }
        ensures total { result.total ≡ self.total }
        ensures sum { result.sum ≡ self.sum }
    {
        VirtualTime {
            total: self.total,
            sum: self.sum,
        }
    }

    #[tactic(auto, unfolding(crate::specs::Slice::orderly_holder, laws::specs::Lists::every))]
    fn request_held(self, q: Request, weight: u64) -> bool
        requires { (judged.Servable q) × (self.total ≤ max_total) }
        ensures { result ≡ slices.orderly_holder self weight q }
    {
        self.time().reached(q.opening)
            && fits_ceiling(q, weight)
            && slice_least(self.terms, q) <= self.ticks
            && self.ticks <= slice_most(self.terms, q)
    }

    #[tactic(auto, unfolding(rows::specs::Row::position_of))]
    fn held_by(self, held: Row) -> bool
        requires { (orderly.OrderlyRow held) × (self.total ≤ max_total) }
        ensures { result ≡ slices.held_by self held.state held.weight }
    {
        match held.state {
            State::Asking(q) => self.request_held(q, held.weight),
            _ => false,
        }
    }

    #[tactic(auto, unfolding(laws::specs::Lists::every))]
    fn slice_orderly(self, held: Row) -> bool
        requires { (orderly.OrderlyRow held) × (self.total ≤ max_total) }
        ensures { result ≡ slices.orderly_slice self self.out held }
    {
        if self.out {
            self.holder < rows::QUEUES && self.held_by(held)
        } else {
            self.holder == 0 && self.ticks == 0
        }
    }

    #[tactic(auto, unfolding(crate::specs::Judged::whole, laws::specs::Lists::every))]
    fn whole(self, walked: Seen) -> bool
        ensures { result ≡ judged.whole self walked }
    {
        walked.weights == self.total
            && walked.moments == self.sum
            && self.rest_orderly()
            && terms_allowed(self.terms)
    }

    // By the walk over the rows, and the row of the queue that holds the slice. Nothing is told of a table that is not sound.
    #[tactic(auto, unfolding(crate::specs::Judged::survey_of, laws::specs::Lists::every))]
    pub fn survey(self, walked: Seen, held: Row) -> Option<Survey>
        requires { judged.Surveying self walked held }
        ensures { result ≡ judged.survey_of self walked held }
    {
        if !self.whole(walked) || !self.slice_orderly(held) {
            return None;
        }
        Some(Survey {
            chosen: walked.first.map(|first| first.queue),
            nearest: walked.nearest,
        })
    }

    // The slice that a grant gives a row.
    #[tactic(auto, unfolding(crate::specs::Slice::slice_for))]
    pub fn slice_for(self, row: Row) -> u64
        requires { orderly.OrderlyRow row }
        ensures { result ≡ slices.slice_for self row }
    {
        match row.state {
            State::Asking(q) => slice_most(self.terms, q),
            _ => 0,
        }
    }
}
