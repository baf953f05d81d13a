// W and A when one row takes another's place.
ghost use Rattle.std.specs.Prelude.{◌≡◌};
ghost use Rattle.head.specs.Judged as judged;
ghost use Rattle.head.specs.Rest as rests;

use crate::Head;
use crate::resting::rest_after;
use rows::{Row, exchanged};

impl Head {
    // The old row's share leaves W and A, the new row's enters; where no row is left, the table rests where the old one stood.
    #[tactic(auto, using(rows::proofs::Shares::orderly_weight), unfolding(crate::specs::Head::summed))]
    pub fn replaced(self, old: Row, new: Row) -> Head
        requires { judged.Replacing self old new }
        ensures { result ≡ rests.replaced self old new }
    {
        let total = exchanged(self.total, old.weight, new.weight);
        Head {
            total,
            sum: exchanged(self.sum, old.moment(), new.moment()),
            resting: rest_after(total, old.position),
            ..self
        }
    }
}
