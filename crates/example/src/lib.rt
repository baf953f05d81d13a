// The table called from a crate of one's own: a fresh one with slices of at most 5 ticks, a queue that joins, and a grant. The contract says what comes of it.
#![tactic(auto)]

ghost use Rattle.std.specs.Prelude.{◌≡◌};
ghost use Rattle.share.specs.Calls.{fresh_reply, grant_reply, join_reply};

use share::{Reply, Table, Terms};

pub fn first_grant(queue: u64) -> Reply
    ensures { result ≡ grant_reply (join_reply (fresh_reply (record { limit = 5; rule = 1; default = 8 })).table queue 8 20).table }
{
    let fresh = Table::fresh(Terms {
        limit: 5,
        rule: 1,
        default: 8,
    });
    let joined = fresh.table.join(queue, 8, 20);
    joined.table.grant()
}
