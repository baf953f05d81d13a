// The lag report: how much time the engine owes each row, below zero where the row owes.
ghost use Rattle.std.specs.Prelude.{◌≡◌, ◌≤◌, length};
ghost use Rattle.share.specs.LagList.{lags_into};
ghost use Rattle.share.specs.Sound.{Orderly};

use crate::Table;

impl Table {
    // By index: over `list.iter_mut().zip(&self.rows)` nothing is known of the list when the loop is over.
    #[tactic(auto, using(crate::proofs::Written::writing), unfolding(crate::specs::Table::row))]
    pub(crate) fn write_lags(&self, list: &mut [i64])
        requires { (Orderly self.now) × (64 ≤ length list.old) }
        ensures { list.new ≡ lags_into self.now list.old }
    {
        for (at, row) in self.rows.iter().enumerate() {
            list[at] = self.head.lag_of(*row);
        }
    }
}
