// The tests of a row and of its request, and the sums that a row is part of.
ghost use Rattle.std.specs.Prelude.{◌≡◌, ◌+◌, ◌-◌, ◌≤◌, ◌<◌, IfSome, IfNone};
ghost use Rattle.rows.specs.Looks.{beyond};
ghost use Rattle.rows.specs.Numbers.{ceiling, max_total};
ghost use Rattle.rows.specs.Row.{is_asking, is_free, moment_in};
ghost use Rattle.rows.specs.Orderly as orderly;
ghost use Rattle.rows.specs.Fits as fits;
ghost use Rattle.rows.specs.Virtual as virtual;

use crate::{Request, Row, Standing, State, step_of};

// Outside a range whose ends belong to it.
#[tactic(auto, unfolding(crate::specs::Orderly::outside))]
pub fn outside(n: u64, low: u64, high: u64) -> bool
    ensures { result ≡ orderly.outside low high n }
{
    !(low..=high).contains(&n)
}

// V = A / W: W is total, and A is sum. It is looked at only where W is no more than 64 rows can weigh, so that a product with a position fits; a position
// may be any, and that it is small enough is a fact of a sound table.
#[derive(Clone, Copy)]
pub struct VirtualTime {
    pub total: u64,
    pub sum: u64,
    ghost light: { total ≤ max_total },
}

impl VirtualTime {
    // None of a table that weighs more than its rows can.
    pub fn of(total: u64, sum: u64) -> Option<VirtualTime>
        ensures some { IfSome result (λ v. (v.total ≡ total) × (v.sum ≡ sum)) }
        ensures none { IfNone result (max_total < total) }
    {
        if total <= crate::MAX_TOTAL {
            Some(VirtualTime { total, sum })
        } else {
            None
        }
    }

    // Where a position stands, by the cross product. Every test against V is this one. The units are those that V has yet to rise: where they are not
    // looked at, the built program does not divide.
    #[tactic(auto, using(crate::proofs::Virtual::standing))]
    pub fn stands(self, position: u64) -> Standing
        requires { position ≤ beyond }
        ensures { result ≡ virtual.standing_at position self.total self.sum }
    {
        let total = self.total;
        let across = position * total;
        if across < self.sum {
            return Standing::Behind;
        }
        if across == self.sum {
            return Standing::Level;
        }
        let units = (across - self.sum + (total - 1)) / total;
        Standing::Ahead { units }
    }

    // V has reached this position: it is not ahead.
    #[tactic(auto, unfolding(crate::specs::Virtual::reached))]
    pub fn reached(self, position: u64) -> bool
        requires { position ≤ beyond }
        ensures { result ≡ virtual.reached position self.total self.sum }
    {
        matches!(self.stands(position), Standing::Behind | Standing::Level)
    }
}

impl Row {
    #[tactic(auto, unfolding(crate::specs::Orderly::in_range, crate::specs::Orderly::outside, laws::specs::Lists::every))]
    pub fn in_range(self) -> bool
        ensures { result ≡ orderly.in_range self.weight self.position }
    {
        !outside(self.weight, 1, crate::MAX_WEIGHT) && self.position <= crate::CEILING
    }

    pub fn is_free(self) -> bool
        ensures { result ≡ is_free self.state }
    {
        matches!(self.state, State::Free)
    }

    pub fn is_asking(self) -> bool
        ensures { result ≡ is_asking self.state }
    {
        matches!(self.state, State::Asking(_))
    }

    // A going row that V has reached is to be released.
    #[tactic(auto, unfolding(crate::specs::Virtual::ready_at))]
    pub fn is_ready(self, time: VirtualTime) -> bool
        requires { self.position ≤ beyond }
        ensures { result ≡ virtual.ready_at time.total time.sum self }
    {
        matches!(self.state, State::Going) && time.reached(self.position)
    }

    // Its part in A.
    #[tactic(auto, using(crate::proofs::Shares::orderly_moment, crate::proofs::Shares::moment_small))]
    pub fn moment(self) -> u64
        requires { orderly.OrderlyRow self }
        ensures { result ≡ moment_in self }
    {
        self.weight * self.position
    }
}

impl Request {
    // Of a row that is in range. The ranges first, so that the product fits.
    #[tactic(auto, using(crate::proofs::Steps::travel_most, crate::proofs::Orderly::within_high), unfolding(crate::specs::Orderly::orderly_request, crate::specs::Orderly::outside, crate::specs::Row::position_of, laws::specs::Lists::every))]
    pub fn is_orderly(self, weight: u64, position: u64) -> bool
        requires { position ≤ ceiling }
        ensures { result ≡ orderly.orderly_request weight position self }
    {
        if outside(self.length, 1, crate::MAX_LENGTH)
            || outside(self.next, 1, crate::MAX_LENGTH)
            || self.length <= self.served
            || position < self.opening
        {
            return false;
        }
        self.opening + self.served * step_of(weight) == position
    }
}

// A sum with one part put in another's place.
pub fn exchanged(sum: u64, out: u64, into: u64) -> u64
    requires { fits.Exchanging sum out into }
    ensures { result ≡ sum + into - out }
{
    sum + into - out
}
