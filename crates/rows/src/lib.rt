// A row of the share table and all that can be asked of it without the table: its ranges, what a tick does to it, and what a walk over rows sees
// of it.
#![tactic(auto)]

ghost use Rattle.std.specs.Prelude.{◌≡◌};
ghost use Rattle.rows.specs.Numbers.{step_of};

mod looking;
mod ranges;
mod serving;

pub use looking::{Bid, First, Gauge, Seen, UNSEEN};
pub use ranges::{VirtualTime, exchanged, outside};

// The limits of the shop, once; the table type names them for its users.
pub const QUEUES: u64 = 64;

pub const MAX_WEIGHT: u64 = 16;

// The most that 64 rows weigh.
pub const MAX_TOTAL: u64 = QUEUES * MAX_WEIGHT;

pub const MAX_LENGTH: u64 = 10_000;

// What a length of 0 stands for: 8, or 20 in a table made for old day lists.
pub const DEFAULT_LENGTH: u64 = 8;

pub const FORMER_DEFAULT: u64 = 20;

pub const MAX_LIMIT: u64 = 100;

// The rules for ties: 1 to the lower number, 2 to the lesser position first.
pub const MAX_RULE: u64 = 2;

pub const CEILING: u64 = 281_474_976_710_656;

// Position units to one unit of virtual time: the least common multiple of 1 to 16.
pub const UNIT: u64 = 720_720;

// What a table is made with. Rule and default are numbers, not enums: `fresh` takes any and refuses by its number what is not allowed.
#[derive(Clone, Copy)]
pub struct Terms {
    pub limit: u64,
    pub rule: u64,
    pub default: u64,
}

// An open request: where it opened, its length, the ticks served of it, and the length of the one after it.
#[derive(Clone, Copy)]
pub struct Request {
    pub opening: u64,
    pub length: u64,
    pub served: u64,
    pub next: u64,
}

#[derive(Clone, Copy)]
pub enum State {
    Free,
    Going,
    Asking(Request),
}

// A row of any table: that its numbers are in order is a fact of a sound table, and no invariant of the type.
#[derive(Clone, Copy)]
pub struct Row {
    pub weight: u64,
    pub position: u64,
    pub state: State,
}

// Where a position stands to V: behind it, level with it, or ahead, and then by how many position units V has to rise to reach it.
#[derive(Clone, Copy)]
pub enum Standing {
    Behind,
    Level,
    Ahead { units: u64 },
}

pub const BLANK: Row = Row {
    weight: 0,
    position: 0,
    state: State::Free,
};

// Position units that one tick moves a queue of this weight: 720,720 / weight, exact for each of the sixteen. 0 of a weight that no queue may have.
#[tactic(auto, using(crate::proofs::Steps::step_other), unfolding(crate::specs::Numbers::step_of))]
pub fn step_of(weight: u64) -> u64
    ensures { result ≡ step_of weight }
{
    match weight {
        1 => 720720,
        2 => 360360,
        3 => 240240,
        4 => 180180,
        5 => 144144,
        6 => 120120,
        7 => 102960,
        8 => 90090,
        9 => 80080,
        10 => 72072,
        11 => 65520,
        12 => 60060,
        13 => 55440,
        14 => 51480,
        15 => 48048,
        16 => 45045,
        _ => 0,
    }
}
