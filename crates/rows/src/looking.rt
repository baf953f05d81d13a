// One row more of a walk over the rows. The walk tells whether the rows and the stored sums fit together, whom a grant would name, and a position
// that no going row stands before.
ghost use Rattle.std.specs.Prelude.{◌≡◌, ◌≤◌};
ghost use Rattle.rows.specs.Fits as fits;
ghost use Rattle.rows.specs.Looks as looks;
ghost use Rattle.rows.specs.Numbers.{ceiling, max_weight};
ghost use Rattle.rows.specs.Order as order;

use crate::ranges::VirtualTime;
use crate::{Request, Row, State, Terms};

// A position that no row of a sound table comes to: what the least of no positions is, so that the lesser of two needs no case for none.
const BEYOND: u64 = crate::CEILING + 1;

// What a request asks for the engine with. Its order is that of rule 2: by the deadline, then by the position.
#[derive(Clone, Copy, PartialEq, Eq, PartialOrd, Ord)]
pub struct Bid {
    pub deadline: u64,
    pub position: u64,
}

// The row that goes first of all that were looked at and may be served, with its bid.
#[derive(Clone, Copy)]
pub struct First {
    pub queue: u64,
    pub bid: Bid,
}

// What the rows so far come to: their parts in W and A, a position that no going row among them stands before, and of those that may be served the
// first, if there is one. That one row more fits (`Roomy`) is a fact of how far the walk has come, and no invariant: each row takes some of the room.
#[derive(Clone, Copy)]
pub struct Seen {
    pub weights: u64,
    pub moments: u64,
    pub nearest: u64,
    pub first: Option<First>,
}

// What rows are measured by: V as it is stored, and the terms.
#[derive(Clone, Copy)]
pub struct Gauge {
    pub time: VirtualTime,
    pub terms: Terms,
}

pub const UNSEEN: Seen = Seen {
    weights: 0,
    moments: 0,
    nearest: BEYOND,
    first: None,
};

impl Bid {
    // Whether it goes before another: by its deadline, and under rule 2 of equal deadlines by its position. Of two that neither does, the lower number is
    // the first.
    #[tactic(auto, unfolding(crate::specs::Order::goes_before))]
    pub fn goes_before(self, other: Bid, terms: Terms) -> bool
        ensures { result ≡ order.goes_before terms self other }
    {
        if terms.rule == 2 {
            self < other
        } else {
            self.deadline < other.deadline
        }
    }
}

impl Seen {
    // One row more, or none if it has a fault: the walk ends there. A row, its number and what it is measured by are of three origins.
    #[tactic(auto, unfolding(crate::specs::Looks::seen_after))]
    pub fn after(self, at: u64, row: Row, gauge: Gauge) -> Option<Seen>
        requires { fits.Roomy self }
        ensures { result ≡ looks.seen_after gauge.terms gauge.time.total gauge.time.sum self at row }
    {
        match row.state {
            State::Free => self.after_free(row),
            State::Going => self.after_going(row, gauge.time),
            State::Asking(q) => self.after_asking(at, q, row, gauge),
        }
    }

    // A row that is free must be all zero.
    #[tactic(auto, unfolding(crate::specs::Looks::seen_free, laws::specs::Lists::every))]
    fn after_free(self, row: Row) -> Option<Seen>
        ensures { result ≡ looks.seen_free self row.weight row.position }
    {
        (row.weight == 0 && row.position == 0).then_some(self)
    }

    // A row that is going must be one that V has not reached.
    #[tactic(auto, using(crate::proofs::Orderly::in_range_lem), unfolding(crate::specs::Looks::seen_going, laws::specs::Lists::every))]
    fn after_going(self, row: Row, time: VirtualTime) -> Option<Seen>
        requires { fits.Roomy self }
        ensures { result ≡ looks.seen_going time.total time.sum self row.weight row.position }
    {
        if !row.in_range() || time.reached(row.position) {
            return None;
        }
        let counted = self.counting(row);
        Some(Seen {
            nearest: counted.nearest.min(row.position),
            ..counted
        })
    }

    #[tactic(auto, using(crate::proofs::Orderly::in_range_lem, crate::proofs::Orderly::orderly_request_lem), unfolding(crate::specs::Looks::seen_asking, laws::specs::Lists::every, crate::specs::Row::position_of))]
    fn after_asking(self, at: u64, q: Request, row: Row, gauge: Gauge) -> Option<Seen>
        requires { fits.Roomy self }
        ensures { result ≡ looks.seen_asking gauge.terms gauge.time.total gauge.time.sum self at q row.weight row.position }
    {
        if !row.in_range() || !q.is_orderly(row.weight, row.position) {
            return None;
        }
        let counted = self.counting(row);
        Some(counted.bidding_from(q.opening, at, q, row, gauge))
    }

    // The row's part in W and A.
    fn counting(self, row: Row) -> Seen
        requires { (fits.Roomy self) × (row.weight ≤ max_weight) × (row.position ≤ ceiling) }
        ensures { result ≡ looks.counting self row.weight row.position }
    {
        Seen {
            weights: self.weights + row.weight,
            moments: self.moments + row.weight * row.position,
            ..self
        }
    }

    // An asking row bids once V has reached `from`, the position at which it may be served. The caller says which that is: the opening.
    #[tactic(auto, unfolding(crate::specs::Looks::seen_bidding, crate::specs::Order::bid_of))]
    fn bidding_from(self, from: u64, at: u64, q: Request, row: Row, gauge: Gauge) -> Seen
        requires { fits.Bidding q from }
        ensures { result ≡ looks.seen_bidding gauge.terms gauge.time.total gauge.time.sum self at q from row.weight row.position }
    {
        if !gauge.time.reached(from) {
            return self;
        }
        let bid = Bid {
            deadline: q.deadline(row.weight),
            position: row.position,
        };
        self.bidding(First { queue: at, bid }, gauge.terms)
    }

    // A row that may be served: the first of all so far, or not.
    #[tactic(auto, unfolding(crate::specs::Looks::bidding, crate::specs::Looks::leads))]
    fn bidding(self, new: First, terms: Terms) -> Seen
        ensures { result ≡ looks.bidding terms self new }
    {
        match self.first {
            Some(best) if !new.bid.goes_before(best.bid, terms) => self,
            _ => Seen {
                first: Some(new),
                ..self
            },
        }
    }
}
