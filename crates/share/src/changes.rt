// What an accepted event does to a sound table, in place. Nothing is refused here: each function asks for what the refusals have settled.
// The numbers are those of the event, under its names; `nearest` is what the survey told, a fact of this table (`Ahead`)
// that fails in the middle of a change, and no invariant of a number.
ghost use Rattle.std.specs.Prelude.{◌≡◌, Ok};
ghost use Rattle.share.specs.Asks as asks;
ghost use Rattle.share.specs.Calls.{granted_reply};
ghost use Rattle.share.specs.Events as events;
ghost use Rattle.share.specs.Events.{chosen};
ghost use Rattle.share.specs.Release as release;
ghost use Rattle.share.specs.Table as table;

use crate::{Answer, Table};
use rows::{BLANK, Request, Row, State};

impl Table {
    // The row of a queue number; past the last it is blank, as the definition `row` has it. A `usize` has 64 bits.
    #[tactic(auto, using(std::proofs::lemmas::Option::get_or_from_slice_get, crate::proofs::Sound::row_past), unfolding(crate::specs::Table::row))]
    pub(crate) fn row_of(&self, queue: u64) -> Row
        ensures { result ≡ table.row self.now queue }
    {
        self.rows.get(queue as usize).copied().unwrap_or(BLANK)
    }

    // A row in another's place: the old row's share leaves W and A, the new row's enters; where no row is left, the table rests where the old one stood.
    #[tactic(auto, using(crate::proofs::Totals::may_replace), unfolding(crate::specs::Table::placed, crate::specs::Table::row))]
    fn put(&mut self, queue: u64, row: Row)
        requires { asks.Placing self.old queue row }
        ensures { self.new ≡ table.placed self.old queue row }
    {
        // A `usize` has 64 bits, and the library has no `From` between the two.
        let at = queue as usize;
        let old = self.rows[at];
        self.rows[at] = row;
        self.head = self.head.replaced(old, row);
    }

    // The release that ends an event: going rows that V has reached are freed, pass after pass, until W stays as it was and so a pass has freed none.
    // Freeing one may make another ready. No going row stands before `nearest`: where V has not reached even that, there is no pass.
    #[tactic(auto, using(crate::proofs::Grounds::nothing_ready, crate::proofs::Passes::releasing))]
    fn settle(&mut self, nearest: u64)
        requires { asks.Settling self.old nearest }
        ensures { self.new ≡ release.released self.old }
    {
        if !self.head.time().reached(nearest) {
            return;
        }
        // What W was before the last pass; more than it is, so that there is a first one. No index is counted: it ends when W stays.
        let mut weight = self.head.total + 1;
        while self.head.total < weight {
            weight = self.head.total;
            self.pass();
        }
    }

    // One pass over the rows, from the top. By index: over `self.rows.iter_mut().rev()` nothing is known of the rows when the loop is over.
    #[tactic(auto, using(crate::proofs::Passes::passing), unfolding(crate::specs::Table::row, crate::specs::Release::freed, crate::specs::Table::placed, crate::specs::Sound::ready))]
    fn pass(&mut self)
        requires { asks.Releasing self.old }
        ensures { asks.PassedOver self.old self.new }
    {
        for at in (0..64).rev() {
            let row = self.rows[at];
            if row.is_ready(self.head.time()) {
                self.rows[at] = BLANK;
                self.head = self.head.replaced(row, BLANK);
            }
        }
    }

    // A queue enters at the least whole number not below V, or where an empty table rests, with a request of this length.
    #[tactic(auto, using(crate::proofs::Grounds::enters), unfolding(crate::specs::Events::joined, rows::specs::Requests::entering))]
    pub(crate) fn enter(&mut self, queue: u64, weight: u64, length: u64, nearest: u64)
        requires { (asks.Joins self.old queue weight length) × (asks.Ahead self.old nearest) }
        ensures { self.new ≡ events.joined self.old queue weight length }
    {
        let position = self.head.entry();
        let request = Request::opened(position, self.head.terms.length_meant(length));
        let row = Row {
            weight,
            position,
            state: State::Asking(request),
        };
        self.put(queue, row);
        self.settle(nearest);
    }

    // Freed if V has reached it; else it goes, with its weight kept in W, and is released when V does.
    #[tactic(auto, using(crate::proofs::Grounds::departs), unfolding(crate::specs::Events::left, crate::specs::Events::leaving))]
    pub(crate) fn depart(&mut self, queue: u64, nearest: u64)
        requires { (asks.Leaves self.old queue) × (asks.Ahead self.old nearest) }
        ensures { self.new ≡ events.left self.old queue }
    {
        let row = self.row_of(queue);
        if self.head.time().reached(row.position) {
            self.put(queue, BLANK);
            self.settle(nearest);
        } else {
            self.put(
                queue,
                Row {
                    state: State::Going,
                    ..row
                },
            );
            self.settle(nearest.min(row.position));
        }
    }

    #[tactic(auto, using(crate::proofs::Departing::rejoins, crate::proofs::Settling::left_ahead), unfolding(crate::specs::Events::reweighted))]
    pub(crate) fn reenter(&mut self, queue: u64, weight: u64, length: u64, nearest: u64)
        requires { (asks.Reweights self.old queue weight length) × (asks.Ahead self.old nearest) }
        ensures { self.new ≡ events.reweighted self.old queue weight length }
    {
        self.depart(queue, nearest);
        self.enter(queue, weight, length, nearest);
    }

    #[tactic(auto, using(crate::proofs::Grounds::lengthening_places), unfolding(crate::specs::Events::length_set))]
    pub(crate) fn set_length(&mut self, queue: u64, length: u64)
        requires { asks.Lengthens self.old queue length }
        ensures { self.new ≡ events.length_set self.old queue length }
    {
        let meant = self.head.terms.length_meant(length);
        self.put(queue, self.row_of(queue).next_set(meant));
    }

    // The slice goes out to the queue that is chosen.
    #[tactic(auto, unfolding(crate::specs::Events::granted, crate::specs::Table::with_slice, head::specs::Head::sliced, crate::specs::Events::slice_given))]
    pub(crate) fn hand_out(&mut self, queue: u64) -> Answer
        requires { (asks.Grants self.old) × (queue ≡ chosen self.old) }
        ensures { record { answer = Ok result; table = self.new } ≡ granted_reply self.old }
    {
        let slice = self.head.slice_for(self.row_of(queue));
        self.head.out = true;
        self.head.holder = queue;
        self.head.ticks = slice;
        Answer::Granted { queue, slice }
    }

    // The slice comes back, and its queue is charged with the ticks used.
    #[tactic(auto, using(crate::proofs::Grounds::returns), unfolding(crate::specs::Events::returned, crate::specs::Table::with_slice, head::specs::Head::sliced))]
    pub(crate) fn take_back(&mut self, queue: u64, used: u64, early: bool, nearest: u64)
        requires { (asks.Returns self.old queue used) × (asks.Ahead self.old nearest) }
        ensures { self.new ≡ events.returned self.old queue used early }
    {
        let row = self.row_of(queue);
        self.head.out = false;
        self.head.holder = 0;
        self.head.ticks = 0;
        self.put(queue, row.charged(used, early));
        self.settle(nearest);
    }
}
