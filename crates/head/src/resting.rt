// Where V rests while no row is present (T-02), and where a newcomer enters.
ghost use Rattle.std.specs.Prelude.{◌≡◌};
ghost use Rattle.head.specs.Head as heads;
ghost use Rattle.head.specs.Judged as judged;
ghost use Rattle.head.specs.Rest as rests;

use crate::Head;

impl Head {
    // The least whole number not below V = A / W, or the resting position if the table is empty.
    #[tactic(auto, unfolding(crate::specs::Head::entry, crate::specs::Head::is_empty))]
    pub fn entry(self) -> u64
        requires { judged.Small self }
        ensures { result ≡ heads.entry self }
    {
        if self.total == 0 {
            return self.resting;
        }
        (self.sum + (self.total - 1)) / self.total
    }

    // Within the ceiling while no row is present, and 0 while one is.
    #[tactic(auto, unfolding(crate::specs::Rest::orderly_rest, crate::specs::Head::is_empty))]
    pub(crate) fn rest_orderly(self) -> bool
        ensures { result ≡ rests.orderly_rest self }
    {
        if self.total == 0 {
            self.resting <= rows::CEILING
        } else {
            self.resting == 0
        }
    }
}

// The resting position once a row that stood here has left: here, if it was the last.
#[tactic(auto, unfolding(crate::specs::Rest::rest_after))]
pub(crate) fn rest_after(total: u64, position: u64) -> u64
    ensures { result ≡ rests.rest_after total position }
{
    if total == 0 { position } else { 0 }
}
