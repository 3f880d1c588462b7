//! Standard input and standard output, of which neither is waited for while the other is ready.

use mio::unix::SourceFd;
use mio::{Events, Interest, Poll, Token};
use std::io::{self, ErrorKind, Read};
use std::net::Net;
use std::os::fd::RawFd;
use std::time::Duration;

const STDIN: RawFd = 0;

const STDOUT: RawFd = 1;

const INPUT: Token = Token(0);

const OUTPUT: Token = Token(1);

/// How many events are reported at a time, at most.
const EVENTS: usize = 2;

/// A runtime whose standard input can be waited for.
pub trait AwaitInput {
    /// Returns the descriptor of standard input, if that may have to be waited for.
    fn input_descriptor(&self) -> Option<RawFd>;
}

impl AwaitInput for HostRuntime {
    fn input_descriptor(&self) -> Option<RawFd> {
        Some(STDIN)
    }
}

/// Standard input, and what is known of standard output.
#[derive(Drop)]
pub struct Pipes<I: Drop> {
    input: I,
    /// What tells which is ready, unless standard input has all at once, as a file.
    watch: Option<Watch>,
    has_ended: bool,
}

impl<I: Read + Drop> Pipes<I> {
    /// Begins to read this standard input of a runtime.
    ///
    /// # Errors
    ///
    /// The system can't watch descriptors, or memory is refused.
    pub fn new<R: AwaitInput + Net + AllocGlobal>(rt: &R, input: I) -> io::Result<Pipes<I>> {
        let watch = match rt.input_descriptor() {
            Some(descriptor) => Watch::new(rt, descriptor)?,
            None => None,
        };
        Ok(Pipes {
            input,
            watch,
            has_ended: false,
        })
    }

    /// Returns whether standard input may have to be waited for, as no file has.
    pub fn is_awaited(&self) -> bool {
        self.watch.is_some()
    }

    /// Returns whether standard input has ended.
    pub fn has_ended(&self) -> bool {
        self.has_ended
    }

    /// Returns whether standard input can be read without a wait.
    pub fn can_read(&self) -> bool {
        match &self.watch {
            Some(watch) => watch.input && !self.has_ended,
            None => !self.has_ended,
        }
    }

    /// Returns whether standard output takes 4,096 bytes without a wait.
    pub fn can_write(&self) -> bool {
        match &self.watch {
            Some(watch) => watch.output,
            None => true,
        }
    }

    /// Waits until one of them is ready that wasn't, at most so long; not at all if standard input needs no wait.
    pub fn wait(&mut self, most: Duration) -> io::Result<()> {
        match &mut self.watch {
            Some(watch) => watch.wait(most),
            None => Ok(()),
        }
    }

    /// Reads what standard input has, and returns how many bytes it had. One that fails has ended.
    pub fn read(&mut self, room: &mut [u8]) -> usize {
        let read = self.input.read(room);
        if let Some(watch) = &mut self.watch {
            watch.input = false;
            self.has_ended = watch
                .ask(watch.descriptor, INPUT, Interest::READABLE)
                .is_err();
        }
        match read {
            Ok(0) => self.has_ended = true,
            Ok(count) => return count,
            Err(error) if error.kind() == ErrorKind::WouldBlock => {}
            Err(error) if error.kind() == ErrorKind::Interrupted => {}
            Err(_) => self.has_ended = true,
        }
        0
    }

    /// Notes that something was written to standard output.
    pub fn wrote(&mut self) {
        if let Some(watch) = &mut self.watch {
            watch.output = watch.ask(STDOUT, OUTPUT, Interest::WRITABLE).is_err(); // a file is not waited for
        }
    }

    /// Closes standard output if standard input may have to be waited for, so that a reader sees its end. Returns
    /// whether it did.
    pub fn close_output(&mut self) -> bool {
        self.watch.is_some() && libc::close(STDOUT) == 0
    }
}

/// What tells which is ready.
#[derive(Drop)]
struct Watch {
    poll: Poll,
    events: Events,
    descriptor: RawFd,
    /// Whether standard input was reported since it was read last.
    input: bool,
    /// Whether standard output was reported since it was written to last, or is not waited for.
    output: bool,
}

impl Watch {
    /// Watches standard output and this standard input. Returns `None` if that can't be watched, as a file.
    fn new<R: Net + AllocGlobal>(rt: &R, descriptor: RawFd) -> io::Result<Option<Watch>> {
        let events = Events::with_capacity(rt.alloc(), EVENTS)?;
        let mut watch = Watch {
            poll: Poll::new(rt)?,
            events,
            descriptor,
            input: false,
            output: false,
        };
        if watch
            .register(descriptor, INPUT, Interest::READABLE)
            .is_err()
        {
            return Ok(None);
        }
        watch.output = watch.register(STDOUT, OUTPUT, Interest::WRITABLE).is_err(); // a file is not waited for
        Ok(Some(watch))
    }

    /// Asks for the first report of a descriptor.
    fn register(&self, descriptor: RawFd, token: Token, interest: Interest) -> io::Result<()> {
        let mut source = SourceFd(&descriptor);
        self.poll.registry().register(&mut source, token, interest)
    }

    fn wait(&mut self, most: Duration) -> io::Result<()> {
        self.poll.poll(&mut self.events, Some(most))?;
        self.input |= has_come(&self.events, INPUT);
        self.output |= has_come(&self.events, OUTPUT);
        Ok(())
    }

    /// Asks for the next report of a descriptor, which comes at once if it is ready.
    fn ask(&self, descriptor: RawFd, token: Token, interest: Interest) -> io::Result<()> {
        let mut source = SourceFd(&descriptor);
        self.poll
            .registry()
            .reregister(&mut source, token, interest)
    }
}

/// Returns whether something of these was reported.
fn has_come(events: &Events, token: Token) -> bool {
    events.iter().any(|event| event.token() == token)
}
