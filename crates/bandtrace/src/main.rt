// Runs a list of events, one to a line, from standard input, and prints what each was answered. What happens between reading and writing is
// `lines`; here bytes are moved. If reading or writing fails it says so on standard error and stops.
#![tactic(auto)]

use lines::State;
use std::fmt;
use std::io::{Read, Write};
use std::ops::ControlFlow;

// How many bytes are read, and written, at a time.
const BUFFER: usize = 65_536;

// The host, whose input and output are used, and the buffers between.
#[derive(Drop)]
struct Streams<'r, 'a> {
    rt: &'r HostRuntime,
    buf: &'a mut [u8],
    out: &'a mut [u8],
}

// What can fail.
#[derive(Clone, Copy)]
enum Failure {
    Reading,
    Writing,
}

impl fmt::Display for Failure {
    fn fmt<W: fmt::Write>(&self, f: &mut fmt::Formatter<W>) -> fmt::Result {
        f.write_str(match self {
            Failure::Reading => "reading failed",
            Failure::Writing => "writing failed",
        })
    }
}

fn main(rt: HostRuntime) {
    let mut streams = Streams {
        rt: &rt,
        buf: &mut [0; BUFFER],
        out: &mut [0; BUFFER],
    };
    if let Err(failure) = streams.run() {
        // There is nobody left to tell if standard error fails too.
        let _ = eprintln!(rt; "bandtrace: {failure}");
    }
}

impl Streams<'_, '_> {
    // A proved loop has to end, and nothing says that input does: it takes as many turns as no run uses up.
    fn run(&mut self) -> Result<(), Failure> {
        put_out(self.rt, &lines::header())?;
        let mut state = lines::begin();
        for _ in 0..u64::MAX {
            if self.next(&mut state)?.is_break() {
                return Ok(());
            }
        }
        Ok(())
    }

    // Answers the whole lines that are held before it reads on. The state is lent: it holds a table, which by value is copied at each turn.
    fn next(&mut self, state: &mut State) -> Result<ControlFlow<()>, Failure> {
        if state.more {
            return self.advance(state);
        }
        if self.buf.len() <= state.have {
            return Ok(ControlFlow::Break(()));
        }
        match self.rt.stdin().read(&mut self.buf[state.have..]) {
            Ok(0) => {
                self.last(state)?;
                Ok(ControlFlow::Break(()))
            }
            Ok(n) => {
                *state = state.grown(n);
                Ok(ControlFlow::Continue(()))
            }
            Err(_) => Err(Failure::Reading),
        }
    }

    // One turn, and what it wrote goes out. A turn that leaves whole lines and writes nothing can only be the last.
    fn advance(&mut self, state: &mut State) -> Result<ControlFlow<()>, Failure> {
        *state = lines::turn(*state, self.buf, self.out);
        if 0 < state.written {
            put_out(self.rt, &self.out[..state.written])?;
        } else if state.more {
            return Ok(ControlFlow::Break(()));
        }
        Ok(ControlFlow::Continue(()))
    }

    // The end of input: a line that has no newline counts.
    fn last(&mut self, state: &mut State) -> Result<(), Failure> {
        *state = lines::close(*state, self.buf);
        self.advance(state)?;
        Ok(())
    }
}

fn put_out(rt: &HostRuntime, bytes: &[u8]) -> Result<(), Failure> {
    rt.stdout().write_all(bytes).map_err(|_| Failure::Writing)
}
