// The lag of a row: how much time the engine owes it, below zero where the row owes.
ghost use Rattle.std.specs.Prelude.{◌≡◌, ◌*◌, ◌^◌, ◌≤◌};
ghost use Rattle.laws.specs.Difference.{◌⊖◌};
ghost use Rattle.rows.specs.Orderly.{OrderlyRow};
ghost use Rattle.head.specs.Judged as judged;
ghost use Rattle.head.specs.Lag as lag;

use crate::Head;
use rows::Row;

// Exact below, at and above zero: both parts are at most 2 to the 62nd.
#[tactic(auto, using(laws::proofs::Difference::minus_pos, laws::proofs::Difference::difference_mag))]
fn difference(due: u64, had: u64) -> i64
    requires { (due ≤ 2 ^ 62) × (had ≤ 2 ^ 62) }
    ensures { result ≡ due ⊖ had }
{
    due.checked_signed_diff(had).unwrap()
}

impl Head {
    // weight x (A - W x position): equation 3 of the report over the common denominator.
    #[tactic(auto, using(crate::proofs::Lags::lag_product))]
    pub fn lag_of(self, row: Row) -> i64
        requires { (judged.Small self) × (OrderlyRow row) }
        ensures { result ≡ lag.lag_of self row }
    {
        let due = row.weight * self.sum;
        let had = row.weight * (self.total * row.position);
        difference(due, had)
    }
}
