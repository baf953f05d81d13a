// What becomes of a row and its request: opened, charged, served, given another next length.
ghost use Rattle.std.specs.Prelude.{◌≡◌, ◌+◌, ◌^◌, ◌≤◌, ◌<◌};
ghost use Rattle.rows.specs.Fits as fits;
ghost use Rattle.rows.specs.Numbers.{ceiling, length_meant, max_length};
ghost use Rattle.rows.specs.Requests as requests;
ghost use Rattle.rows.specs.Row.{deadline_of, charged_to};

use crate::{Request, Row, State, Terms, step_of};

impl Terms {
    // A length of 0 stands for the default that the table was made with.
    #[tactic(auto, unfolding(crate::specs::Numbers::length_meant))]
    pub fn length_meant(self, length: u64) -> u64
        ensures { result ≡ length_meant self length }
    {
        if length == 0 {
            return self.default;
        }
        length
    }
}

impl Request {
    // A request that opens where its queue stands.
    #[tactic(auto, unfolding(crate::specs::Requests::opened))]
    pub fn opened(position: u64, length: u64) -> Request
        ensures { result ≡ requests.opened position length }
    {
        Request {
            opening: position,
            length,
            served: 0,
            next: length,
        }
    }

    // Equation 8 of the report, V(d) = V(e) + r / w, in position units. The weight is the row's, and stays when the request goes.
    #[tactic(auto, using(crate::proofs::Steps::travel_most), unfolding(crate::specs::Row::deadline_of))]
    pub fn deadline(self, weight: u64) -> u64
        requires { (self.opening ≤ ceiling) × (self.length ≤ max_length) }
        ensures { result ≡ deadline_of weight self }
    {
        self.opening + self.length * step_of(weight)
    }

    // Ticks and early are what a return says. Used up or ended early, the request is followed by the next, at the position that the queue has come to.
    #[tactic(auto, unfolding(crate::specs::Requests::served_to))]
    pub fn charged(self, position: u64, used: u64, early: bool) -> Request
        requires { self.served + used < 2 ^ 64 }
        ensures { result ≡ requests.served_to self position used early }
    {
        let ticks = self.served + used;
        if early || self.length <= ticks {
            Request::opened(position, self.next)
        } else {
            Request {
                served: ticks,
                ..self
            }
        }
    }
}

impl Row {
    // Where a queue stands after some ticks more: equation 7 of the report, one step a tick.
    #[tactic(auto, using(crate::proofs::Steps::travel_most), unfolding(crate::specs::Row::charged_to))]
    pub fn charged_to(self, used: u64) -> u64
        requires { (self.position ≤ ceiling) × (used ≤ max_length) }
        ensures { result ≡ charged_to self.weight self.position used }
    {
        self.position + used * step_of(self.weight)
    }

    #[tactic(auto, unfolding(crate::specs::Requests::row_next_set))]
    pub fn next_set(self, length: u64) -> Row
        ensures { result ≡ requests.row_next_set self length }
    {
        let State::Asking(q) = self.state else {
            return self;
        };
        Row {
            state: State::Asking(Request { next: length, ..q }),
            ..self
        }
    }

    #[tactic(auto, unfolding(crate::specs::Requests::charged))]
    pub fn charged(self, used: u64, early: bool) -> Row
        requires { fits.Charging self used }
        ensures { result ≡ requests.charged self used early }
    {
        let position = self.charged_to(used);
        let state = match self.state {
            State::Asking(q) => State::Asking(q.charged(position, used, early)),
            other => other,
        };
        Row {
            position,
            state,
            ..self
        }
    }
}
