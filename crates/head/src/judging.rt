// What each event is refused for, in its order: the first refusal that applies answers.
ghost use Rattle.std.specs.Prelude.{◌≡◌, ◌≤◌, is_some};
ghost use Rattle.rows.specs.Numbers.{max_total};
ghost use Rattle.rows.specs.Orderly.{OrderlyRow, limit_outside, rule_outside, default_outside};
ghost use Rattle.head.specs.declared.Event.TheVariants.{Grant, Join, Leave, Length, Reweight};
ghost use Rattle.head.specs.Answers.{refusal_number};
ghost use Rattle.head.specs.Judged as judged;
ghost use Rattle.head.specs.Refusals as checks;

use crate::surveying::fits_ceiling;
use crate::{Event, Head, Refusal};
use rows::{Row, State, Terms, outside};

// As the documents number them.
impl From<Refusal> for u64 {
    ghost from_gives = { λ why number. number ≡ refusal_number why };

    fn from(why: Refusal) -> u64 {
        match why {
            Refusal::Unsound => 1,
            Refusal::QueueOutside => 2,
            Refusal::WeightOutside => 3,
            Refusal::LengthOutside => 4,
            Refusal::SliceOut => 5,
            Refusal::NotHolder => 6,
            Refusal::RowTaken => 7,
            Refusal::NotAsking => 8,
            Refusal::LagBelow => 9,
            Refusal::TicksOutside => 10,
            Refusal::TableEmpty => 11,
            Refusal::CeilingPassed => 12,
            Refusal::ListShort => 13,
            Refusal::LimitOutside => 14,
            Refusal::RowFree => 31,
            Refusal::RuleOutside => 23,
            Refusal::DefaultOutside => 25,
        }
    }
}

impl Refusal {
    // This refusal, if it applies.
    pub fn when(self, applies: bool) -> Result<(), Refusal>
        ensures { result ≡ checks.refused_when self applies }
    {
        if applies { Err(self) } else { Ok(()) }
    }
}

impl Head {
    // What speaks against an event, in the order in which it is looked for; its numbers go on under its own names. The row is that of the queue that decides
    // on it, and there is one only if the table is sound: of the row of one that is not, nothing is asked.
    #[tactic(auto, using(crate::proofs::Verdicts::judging))]
    pub fn verdict(self, event: Event, row: Option<Row>) -> Result<(), Refusal>
        requires { judged.Judging self row }
        ensures { result ≡ checks.verdict_for (is_some row) self (judged.row_in row) event }
    {
        match event {
            Event::Fresh { terms } => fresh_verdict(terms),
            Event::Join {
                queue,
                weight,
                length,
            } => self.join_verdict(row, queue, weight, length),
            Event::Leave { queue } => self.leave_verdict(row, queue),
            Event::Reweight {
                queue,
                weight,
                length,
            } => self.reweight_verdict(row, queue, weight, length),
            Event::Length { queue, length } => self.length_verdict(row, queue, length),
            Event::Grant => self.grant_verdict(row),
            Event::Return { queue, used, .. } => self.return_verdict(row, queue, used),
        }
    }

    #[tactic(auto, unfolding(crate::specs::Refusals::checks_for, crate::specs::Refusals::row_taken))]
    fn join_verdict(
        self,
        row: Option<Row>,
        queue: u64,
        weight: u64,
        length: u64,
    ) -> Result<(), Refusal>
        ensures { result ≡ checks.judge (checks.checks_for (is_some row) self (judged.row_in row) (Join queue weight length)) }
    {
        let row = row.ok_or(Refusal::Unsound)?;
        Refusal::QueueOutside.when(queue_outside(queue))?;
        Refusal::WeightOutside.when(weight_outside(weight))?;
        Refusal::LengthOutside.when(length_outside(length))?;
        Refusal::SliceOut.when(self.out)?;
        Refusal::RowTaken.when(!row.is_free())
    }

    #[tactic(auto, unfolding(crate::specs::Refusals::checks_for, crate::specs::Refusals::not_asking))]
    fn leave_verdict(self, row: Option<Row>, queue: u64) -> Result<(), Refusal>
        ensures { result ≡ checks.judge (checks.checks_for (is_some row) self (judged.row_in row) (Leave queue)) }
    {
        let row = row.ok_or(Refusal::Unsound)?;
        Refusal::QueueOutside.when(queue_outside(queue))?;
        Refusal::SliceOut.when(self.out)?;
        Refusal::NotAsking.when(!row.is_asking())
    }

    #[tactic(auto, unfolding(crate::specs::Refusals::checks_for, crate::specs::Refusals::not_asking))]
    fn reweight_verdict(
        self,
        row: Option<Row>,
        queue: u64,
        weight: u64,
        length: u64,
    ) -> Result<(), Refusal>
        requires { judged.Judging self row }
        ensures { result ≡ checks.judge (checks.checks_for (is_some row) self (judged.row_in row) (Reweight queue weight length)) }
    {
        let row = row.ok_or(Refusal::Unsound)?;
        Refusal::QueueOutside.when(queue_outside(queue))?;
        Refusal::WeightOutside.when(weight_outside(weight))?;
        Refusal::LengthOutside.when(length_outside(length))?;
        Refusal::SliceOut.when(self.out)?;
        Refusal::NotAsking.when(!row.is_asking())?;
        Refusal::LagBelow.when(self.lag_below(row))
    }

    #[tactic(auto, unfolding(crate::specs::Refusals::checks_for, crate::specs::Refusals::not_asking))]
    fn length_verdict(self, row: Option<Row>, queue: u64, length: u64) -> Result<(), Refusal>
        ensures { result ≡ checks.judge (checks.checks_for (is_some row) self (judged.row_in row) (Length queue length)) }
    {
        let row = row.ok_or(Refusal::Unsound)?;
        Refusal::QueueOutside.when(queue_outside(queue))?;
        Refusal::LengthOutside.when(length_outside(length))?;
        Refusal::SliceOut.when(self.out)?;
        Refusal::NotAsking.when(!row.is_asking())
    }

    #[tactic(auto, unfolding(crate::specs::Refusals::checks_for, crate::specs::Head::is_empty))]
    fn grant_verdict(self, row: Option<Row>) -> Result<(), Refusal>
        requires { judged.Judging self row }
        ensures { result ≡ checks.judge (checks.checks_for (is_some row) self (judged.row_in row) Grant) }
    {
        let row = row.ok_or(Refusal::Unsound)?;
        Refusal::SliceOut.when(self.out)?;
        Refusal::TableEmpty.when(self.total == 0)?;
        Refusal::CeilingPassed.when(ceiling_passed(row))
    }

    fn return_verdict(self, row: Option<Row>, queue: u64, used: u64) -> Result<(), Refusal>
        ensures { result ≡ checks.judge (checks.return_checks (is_some row) self queue used) }
    {
        Refusal::Unsound.when(row.is_none())?;
        Refusal::QueueOutside.when(queue_outside(queue))?;
        Refusal::NotHolder.when(self.not_holder(queue))?;
        Refusal::TicksOutside.when(ticks_outside(self.ticks, used))
    }

    #[tactic(auto, unfolding(crate::specs::Refusals::not_holder))]
    fn not_holder(self, queue: u64) -> bool
        ensures { result ≡ checks.not_holder self queue }
    {
        !self.out || queue != self.holder
    }

    // The row's lag is below zero.
    #[tactic(auto, unfolding(crate::specs::Refusals::lag_below))]
    fn lag_below(self, row: Row) -> bool
        requires { (OrderlyRow row) × (self.total ≤ max_total) }
        ensures { result ≡ checks.lag_below self row }
    {
        !self.time().reached(row.position)
    }
}

fn fresh_verdict(terms: Terms) -> Result<(), Refusal>
    ensures { result ≡ checks.judge (checks.fresh_checks terms) }
{
    Refusal::LimitOutside.when(limit_outside(terms))?;
    Refusal::RuleOutside.when(rule_outside(terms))?;
    Refusal::DefaultOutside.when(default_outside(terms))
}

// What speaks against telling where a row stands.
pub fn standing_verdict(row: Option<Row>, queue: u64) -> Result<(), Refusal>
    ensures { result ≡ checks.verdict_of (checks.first_refusal (checks.standing_checks (is_some row) (judged.row_in row) queue)) }
{
    let row = row.ok_or(Refusal::Unsound)?;
    Refusal::QueueOutside.when(queue_outside(queue))?;
    Refusal::RowFree.when(row.is_free())
}

// The deadline of the row that a grant would go to is above the ceiling.
#[tactic(auto, using(crate::proofs::Asking::servable), unfolding(crate::specs::Refusals::ceiling_passed))]
fn ceiling_passed(row: Row) -> bool
    requires { OrderlyRow row }
    ensures { result ≡ checks.ceiling_passed row }
{
    match row.state {
        State::Asking(q) => !fits_ceiling(q, row.weight),
        _ => false,
    }
}

// The tests of the refusals, each under its name: those of a range are `outside` with its bounds.

#[tactic(auto, unfolding(crate::specs::Refusals::queue_outside))]
fn queue_outside(queue: u64) -> bool
    ensures { result ≡ checks.queue_outside queue }
{
    rows::QUEUES <= queue
}

fn weight_outside(weight: u64) -> bool
    ensures { result ≡ checks.weight_outside weight }
{
    outside(weight, 1, rows::MAX_WEIGHT)
}

#[tactic(auto, unfolding(crate::specs::Refusals::length_outside))]
fn length_outside(length: u64) -> bool
    ensures { result ≡ checks.length_outside length }
{
    rows::MAX_LENGTH < length
}

#[tactic(auto, unfolding(rows::specs::Orderly::limit_outside))]
pub(crate) fn limit_outside(terms: Terms) -> bool
    ensures { result ≡ limit_outside terms }
{
    outside(terms.limit, 1, rows::MAX_LIMIT)
}

#[tactic(auto, unfolding(rows::specs::Orderly::rule_outside))]
pub(crate) fn rule_outside(terms: Terms) -> bool
    ensures { result ≡ rule_outside terms }
{
    outside(terms.rule, 1, rows::MAX_RULE)
}

#[tactic(auto, unfolding(rows::specs::Orderly::default_outside))]
pub(crate) fn default_outside(terms: Terms) -> bool
    ensures { result ≡ default_outside terms }
{
    terms.default != rows::DEFAULT_LENGTH && terms.default != rows::FORMER_DEFAULT
}

#[tactic(auto, unfolding(crate::specs::Refusals::ticks_outside))]
fn ticks_outside(ticks: u64, used: u64) -> bool
    ensures { result ≡ checks.ticks_outside ticks used }
{
    ticks < used
}
