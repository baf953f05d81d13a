// Whether a table is sound, and what is told of one that is: one walk over the rows, judged by the head.
ghost use Rattle.std.specs.Prelude.{◌≡◌};
ghost use Rattle.share.specs.Sound.{sound};
ghost use Rattle.share.specs.Walks as walks;

use crate::Table;
use head::Survey;
use rows::{Gauge, Seen, UNSEEN, VirtualTime};

impl Table {
    // The walk over all rows; none where one has a fault, and none of a table that weighs more than its rows can. Not inlined: within its callers it took a
    // line a tenth more instructions at 40 and 64 queues.
    #[tactic(auto, using(crate::proofs::Walk::walking), unfolding(crate::specs::Table::row))]
    #[inline(never)]
    fn walked(&self) -> Option<Seen>
        ensures { walks.Walked self.now result }
    {
        let gauge = Gauge {
            time: VirtualTime::of(self.head.total, self.head.sum)?,
            terms: self.head.terms,
        };
        let mut seen = UNSEEN;
        for (at, row) in self.rows.iter().enumerate() {
            // As in `put`: 64 bits both.
            seen = seen.after(at as u64, *row, gauge)?;
        }
        Some(seen)
    }

    // None of a table that is not sound.
    #[tactic(auto, using(crate::proofs::Surveys::none_tells, crate::proofs::Surveys::may_survey, crate::proofs::Surveys::survey_tells))]
    pub(crate) fn survey(&self) -> Option<Survey>
        ensures { walks.Surveyed self.now result }
    {
        let seen = self.walked()?;
        self.head.survey(seen, self.row_of(self.head.holder))
    }

    pub(crate) fn is_sound(&self) -> bool
        ensures { result ≡ sound self.now }
    {
        self.survey().is_some()
    }
}
