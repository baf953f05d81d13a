// The lines of bandtrace: input in pieces worked line by line, each line read into an event, applied, and its answer written.
#![tactic(auto)]

mod reading;
mod writing;

ghost use Rattle.std.specs.Prelude.{◌≡◌, ◌≤◌, ◌<◌, length, MatchOption};
ghost use Rattle.lines.specs.Cut.{newline, before};
ghost use Rattle.lines.specs.Pieces.{Unfinished, Worked, MovedToFront, begun, idle_as, grown_by, Turned, Closed};
ghost use Rattle.lines.specs.Print.{header as header_bytes};

pub use reading::{LONGEST, read_line};
use share::{BROKEN, Shown, Table};
pub use writing::ROOM;
use writing::write_answer;

// The most bytes of an unfinished line that are kept: one more than a line may have, so that an overlong one stays overlong.
pub const KEPT: usize = LONGEST + 1;

// Where the program stands between reading and writing: the table, the number of the next line, and the bytes from..have of the buffer that
// are not answered yet. `more` says that whole lines may be among them; `written` is how much of the output to write.
// `from` and `have` are no `Range`, which is not `Copy`, and `Turned` and `Closed` name them. The buffer is lent, since there is no heap.
#[derive(Clone, Copy)]
pub struct State {
    pub table: Table,
    pub line: u64,
    pub from: usize,
    pub have: usize,
    pub more: bool,
    pub written: usize,
}

// The first line that is printed.
pub fn header() -> [u8; 32]
    ensures { result ≡ header_bytes }
{
    *b"line answer who slice sum total\n"
}

// The table that refusal 14 gives, the first line, and nothing read.
pub fn begin() -> State
    ensures { result ≡ begun }
{
    State {
        table: Table::empty(Table::LEAST_TERMS),
        line: 1,
        from: 0,
        have: 0,
        more: false,
        written: 0,
    }
}

// Answers what lines are whole, and moves an unfinished one to the front.
pub fn turn(state: State, buf: &mut [u8], out: &mut [u8]) -> State
    ensures { Turned state buf.old buf.new out.new result }
{
    let Some(held) = buf.get(state.from..state.have) else {
        return state.idle();
    };
    let done = work(state.table, state.line, held, out);
    let next = state.from + done.read;
    let (from, have) = if done.ends {
        (0, keep(buf, next, state.have))
    } else {
        (next, state.have)
    };
    State {
        table: done.table,
        line: done.line,
        from,
        have,
        more: !done.ends,
        written: done.written,
    }
}

// At the end of input: a newline after what is held, which ends a last line that has none.
#[tactic(auto, using(crate::proofs::Turning::closed_newline))]
pub fn close(state: State, buf: &mut [u8]) -> State
    ensures { Closed state buf.old buf.new result }
{
    if state.have <= state.from || buf.len() <= state.have {
        return state.idle();
    }
    buf[state.have] = b'\n';
    State {
        have: state.have + 1,
        ..state.idle()
    }
}

impl State {
    // Nothing done.
    fn idle(self) -> State
        ensures { result ≡ idle_as self }
    {
        State {
            more: true,
            written: 0,
            ..self
        }
    }

    // So many bytes more stand in the buffer after what is held.
    pub fn grown(self, n: usize) -> State
        ensures { result ≡ grown_by self n }
    {
        match self.have.checked_add(n) {
            Some(have) => State {
                have,
                ..self.idle()
            },
            None => self.idle(),
        }
    }
}

// What a piece of input came to: the bytes read and written, the number of the next line, and the table. Unless a whole line may be left,
// it ends in an unfinished one, or in none.
#[derive(Clone, Copy)]
pub struct Done {
    pub read: usize,
    pub written: usize,
    pub ends: bool,
    pub line: u64,
    pub table: Table,
}

// The whole lines of a piece, as far as their answers have room and line numbers last. Line by line, and not by an iterator over lines: `Worked` names the
// bytes that are read, and the room for answers may end before the lines do.
#[tactic(auto, using(crate::proofs::Working::working))]
pub fn work(table: Table, line: u64, input: &[u8], out: &mut [u8]) -> Done
    ensures { Worked line table input.now out.new result }
{
    let mut done = Done {
        read: 0,
        written: 0,
        ends: true,
        line,
        table,
    };
    while let Some(length) = line_length(&input[done.read..]) {
        if out.len() - done.written < ROOM || done.line == u64::MAX {
            return Done {
                ends: false,
                ..done
            };
        }
        let end = done.read + length;
        // Applied here: with a function of its own that was lent the table, the gate's run took 21.9 million instructions for 16.9.
        let shown = match read_line(&input[done.read..end]) {
            Some(event) => {
                let reply = done.table.apply(event);
                done.table = reply.table;
                reply.answer.into()
            }
            None => Shown::plain(BROKEN),
        };
        let head = done.table.head;
        done.written = write_answer(out, done.written, done.line, shown, head.sum, head.total);
        done.line += 1;
        done.read = end + 1;
    }
    done
}

// The length of the first line, if that is whole.
fn line_length(s: &[u8]) -> Option<usize>
    ensures { MatchOption result (Unfinished s.now) (λ n. (n ≡ length (before newline s.now)) × (n < length s.now)) }
{
    s.iter().position(|byte| *byte == b'\n')
}

// Moves an unfinished line to the front of the buffer, and answers how many bytes of it are kept. A range in place of `from` and `have`
// would be taken apart here at once.
#[tactic(auto, using(crate::proofs::Turning::moved))]
fn keep(buf: &mut [u8], from: usize, have: usize) -> usize
    requires { (from ≤ have) × (have ≤ length buf.old) }
    ensures { MovedToFront buf.old from have buf.new result }
{
    let kept = (have - from).min(KEPT);
    buf.copy_within(from..from + kept, 0);
    kept
}
