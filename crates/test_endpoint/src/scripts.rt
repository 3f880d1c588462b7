//! Scripts over devices that fail.

use amqp_frame::Device;
use amqp_script::{ScriptFault, replay_script};
use std::alloc::Global;
use std::io::{self, Read, Write};

/// Gives its bytes, and fails at the read of this number, from 0 on.
#[derive(Drop)]
struct Flaky<'a> {
    rest: &'a [u8],
    reads: usize,
    failing: usize,
}

impl Read for Flaky<'_> {
    fn read(&mut self, buf: &mut [u8]) -> io::Result<usize> {
        let read = self.reads;
        self.reads = self.reads.saturating_add(1);
        if read == self.failing {
            return Err(io::Error::from(io::ErrorKind::Other));
        }
        let count = buf.len().min(self.rest.len()).min(20);
        buf[..count].copy_from_slice(&self.rest[..count]);
        self.rest = &self.rest[count..];
        Ok(count)
    }
}

/// Takes at most five bytes at a time, and fails at the write of this number, from 0 on.
#[derive(Drop)]
struct Full {
    taken: Vec<u8>,
    writes: usize,
    failing: usize,
}

impl Write for Full {
    fn write(&mut self, buf: &[u8]) -> io::Result<usize> {
        let write = self.writes;
        self.writes = self.writes.saturating_add(1);
        if write == self.failing {
            return Err(io::Error::from(io::ErrorKind::Other));
        }
        let count = buf.len().min(5);
        match self.taken.extend_from_slice(&buf[..count]) {
            Ok(()) => Ok(count),
            Err(_) => Err(io::Error::from(io::ErrorKind::OutOfMemory)),
        }
    }

    fn flush(&mut self) -> io::Result<()> {
        Ok(())
    }
}

const SCRIPT: &[u8] = b"config r 512 0 1 4 10 100\nfeed 414d515000010000\noutput 8\nheld\n";

const ANSWERS: &[u8] = b"used=8 More\noutput 414d515000010000\nheld 0\n";

/// The script comes in five reads, of which the last gives nothing.
#[test]
fn a_reader_that_fails_is_asked_no_more(rt: HostRuntime) {
    for failing in 0..7 {
        let mut printed = Vec::new(rt.alloc());
        let reader = Flaky {
            rest: SCRIPT,
            reads: 0,
            failing,
        };
        let result = replay_script(
            rt.alloc(),
            &mut Device::new(reader),
            &mut Device::new(&mut printed),
        );
        let wanted = if failing < READS {
            (Err(ScriptFault::Read), b"".as_slice())
        } else {
            (Ok(()), ANSWERS)
        };
        assert_eq!(rt; (result, printed.as_slice()), wanted, "{failing}");
    }
}

/// The reads of the script: four of its bytes, and one of nothing.
const READS: usize = 5;

/// What was written before a failure begins the answers, which come in ten writes.
#[test]
fn a_writer_that_fails_ends_the_script(rt: HostRuntime) {
    for failing in 0..12 {
        let (result, taken) = over_a_full_writer(rt.alloc(), failing);
        let wanted = match failing {
            0 => (Err(ScriptFault::Write), 0),
            3 => (Err(ScriptFault::Write), 12),
            8 => (Err(ScriptFault::Write), 36),
            1..10 => (Err(ScriptFault::Write), taken.len()),
            _ => (Ok(()), 43),
        };
        assert_eq!(rt; (result, taken.len()), wanted, "{failing}");
        assert!(rt; ANSWERS.starts_with(&taken), "{failing}");
    }
}

/// Returns the result of the script where the write of this number fails, and what was written.
fn over_a_full_writer(alloc: Global, failing: usize) -> (Result<(), ScriptFault>, Vec<u8>) {
    let mut script = SCRIPT;
    let mut printed = Full {
        taken: Vec::new(alloc),
        writes: 0,
        failing,
    };
    let mut writer = Device::new(&mut printed);
    let result = replay_script(alloc, &mut Device::new(&mut script), &mut writer);
    (result, printed.taken)
}
