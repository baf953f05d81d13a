// An answer written as a line of bytes.
ghost use Rattle.std.specs.Prelude.{◌≡◌, [], ◌∷◌, ◌++◌, ◌+◌, ◌≤◌, length};
ghost use Rattle.lines.specs.Decimal.{digits};
ghost use Rattle.lines.specs.Places.{Wrote};
ghost use Rattle.lines.specs.Print.{grant_shown, shown_line};

use itoa::Buffer;
use share::{Grant, Shown};

// The most bytes that an answer line takes: six numbers, and a byte after each.
pub const ROOM: usize = 126;

// The place is a number, since `Done.written`, which `Worked` names, is one.
// Sum and total are handed on by themselves: with the head in their place a line took 4 % more instructions at 64 queues.
#[tactic(auto, using(crate::proofs::Digits::writing))]
pub(crate) fn write_answer(
    out: &mut [u8],
    at: usize,
    line: u64,
    shown: Shown,
    sum: u64,
    total: u64,
) -> usize
    requires { at + 126 ≤ length out.old }
    ensures { Wrote out.old at (shown_line line shown sum total) out.new result }
{
    let mut writer = Writer { out, at };
    writer.put(line, b' ');
    writer.put(shown.answer, b' ');
    writer.put_grant(shown.grant);
    writer.put(sum, b' ');
    writer.put(total, b'\n');
    writer.at
}

// A buffer, and where the next byte goes. Not the library's `Cursor`: its `write_all` says nothing of the bytes, and `write` not that the buffer is the same.
#[derive(Drop)]
struct Writer<'a> {
    out: &'a mut [u8],
    at: usize,
}

impl<'a> Writer<'a> {
    // The queue and the slice of a grant, or dashes for both.
    #[tactic(auto, using(crate::proofs::Digits::writing))]
    fn put_grant(&mut self, grant: Option<Grant>)
        requires { self.old.at + 42 ≤ length self.old.out.now }
        ensures same_buffer { self.new.out.ghost_name ≡ self.old.out.ghost_name }
        ensures wrote { Wrote self.old.out.now self.old.at (grant_shown grant) self.new.out.now self.new.at }
    {
        match grant {
            Some(grant) => {
                self.put(grant.queue, b' ');
                self.put(grant.slice, b' ');
            }
            None => self.put_bytes(b"- - "),
        }
    }

    // A number and the byte after it. Twenty digits are the most that a number has.
    #[tactic(auto, using(crate::proofs::Digits::writing))]
    fn put(&mut self, n: u64, then: u8)
        requires { self.old.at + 21 ≤ length self.old.out.now }
        ensures same_buffer { self.new.out.ghost_name ≡ self.old.out.ghost_name }
        ensures wrote { Wrote self.old.out.now self.old.at (digits n ++ (then ∷ [])) self.new.out.now self.new.at }
    {
        let mut buffer = Buffer::new();
        self.put_bytes(buffer.format(n).as_bytes());
        self.put_bytes(&[then]);
    }

    #[tactic(auto, using(crate::proofs::Digits::writing))]
    fn put_bytes(&mut self, bytes: &[u8])
        requires { self.old.at + length bytes.now ≤ length self.old.out.now }
        ensures same_buffer { self.new.out.ghost_name ≡ self.old.out.ghost_name }
        ensures wrote { Wrote self.old.out.now self.old.at bytes.now self.new.out.now self.new.at }
    {
        let end = self.at + bytes.len();
        self.out[self.at..end].copy_from_slice(bytes);
        self.at = end;
    }
}
