//! What `dump` prints of long texts, lines and streams, and where a device fails. `crates/test_codec_rows/data/dump.rows` has the
//! others.

use amqp_dump::{DumpFault, dump};
use amqp_frame::{Device, HEADER};
use std::alloc::{AllocError, Global};
use std::io::{self, Read, Write};
use std::process::Abort;
use std::test::Fail;

/// Returns what `dump` prints of these bytes.
fn dumped(alloc: Global, mut bytes: &[u8]) -> Result<Vec<u8>, DumpFault> {
    let mut lines = Vec::new(alloc);
    let _ = dump(
        alloc,
        &mut Device::new(&mut bytes),
        &mut Device::new(&mut lines),
    )?;
    Ok(lines)
}

/// Returns the header, and then these bytes.
fn behind_header(alloc: Global, bytes: &[u8]) -> Result<Vec<u8>, AllocError> {
    let mut stream = Vec::from_slice(alloc, HEADER.as_slice())?;
    stream.extend_from_slice(bytes)?;
    Ok(stream)
}

/// Asserts that the header and these bytes are printed as the header's line and these lines.
fn assert_printed(rt: &impl Abort, alloc: Global, frames: &[u8], lines: &str) -> Result<(), Fail> {
    let stream = behind_header(alloc, frames)?;
    let printed = dumped(alloc, &stream)?;
    let printed = str::from_utf8(&printed)?;
    let behind = printed.strip_prefix("header id=0 version=1.0.0\n");
    assert_eq!(rt; behind, Some(lines));
    Ok(())
}

/// Asserts that the value of these bytes has this text.
fn assert_value(rt: &impl Abort, alloc: Global, bytes: &[u8], text: &str) -> Result<(), Fail> {
    let size = bytes.len().saturating_add(8);
    let head = [0, 0, (size / 256 % 256) as u8, (size % 256) as u8];
    let mut frame = Vec::from_slice(alloc, &head)?;
    frame.extend_from_slice(&[2, 0, 0, 0])?;
    frame.extend_from_slice(bytes)?;
    let line = format!(in alloc; "8 size={size} channel=0 value {text} payload=0\n")?;
    assert_printed(rt, alloc, &frame, &line)
}

/// The text of 1,000 bytes and of 5,000 others.
#[test]
fn writes_long_texts(rt: HostRuntime) -> Result<(), Fail> {
    let alloc = rt.alloc();
    let mut binary = Vec::from_slice(alloc, b"\xb0\x00\x00\x03\xe8")?;
    let mut string = Vec::from_slice(alloc, b"\xb1\x00\x00\x13\x88")?;
    let mut digits = String::from_str(alloc, "binary:")?;
    let mut quoted = String::from_str(alloc, "string:\"")?;
    for i in 0..1000_usize {
        binary.push((i % 251) as u8)?;
        write!(digits, "{:02x}", i % 251)?;
        string.extend_from_slice(b"ab\n\xc3\xa9")?;
        quoted.push_str("ab\\x0a\\xc3\\xa9")?;
    }
    quoted.push('"')?;
    assert_value(&rt, alloc, &binary, &digits)?;
    assert_value(&rt, alloc, &string, &quoted)
}

#[test]
fn prints_a_long_line_in_its_place(rt: HostRuntime) -> Result<(), Fail> {
    let alloc = rt.alloc();
    let short = b"\x00\x00\x00\x09\x02\x00\x00\x00\x41";
    let mut frames = Vec::from_slice(alloc, short)?;
    frames.extend_from_slice(b"\x00\x00\xc3\x5d\x02\x00\x00\x00\xb0\x00\x00\xc3\x50")?;
    let mut wanted = String::from_str(
        alloc,
        "8 size=9 channel=0 value true payload=0\n17 size=50013 channel=0 value binary:",
    )?;
    for _ in 0..50000 {
        frames.push(0xe7)?;
        wanted.push_str("e7")?;
    }
    frames.extend_from_slice(short)?;
    wanted.push_str(" payload=0\n50030 size=9 channel=0 value true payload=0\n")?;
    assert_printed(&rt, alloc, &frames, &wanted)
}

#[test]
fn prints_more_than_a_piece(rt: HostRuntime) -> Result<(), Fail> {
    let alloc = rt.alloc();
    let mut frames = Vec::new(alloc);
    let mut wanted = String::new(alloc);
    let mut place: usize = 8;
    for payload in 0..3000_usize {
        let size = 10 + payload % 1000;
        frames.extend_from_slice(&[0, 0, (size / 256) as u8, (size % 256) as u8, 2, 0, 0, 3])?;
        frames.extend_from_slice(b"\x56\x01")?;
        for _ in 10..size {
            frames.push(7)?;
        }
        let behind = size - 10;
        write!(
            wanted,
            "{place} size={size} channel=3 value true payload={behind}\n"
        )?;
        place = place.saturating_add(size);
    }
    assert!(rt; frames.len() > 1048576);
    assert_printed(&rt, alloc, &frames, &wanted)
}

/// Gives its pieces, one a read, with a failure in the place of each empty one.
#[derive(Drop)]
struct Pieces<'a> {
    pieces: &'a [&'a [u8]],
    reads: usize,
}

impl Read for Pieces<'_> {
    fn read(&mut self, buf: &mut [u8]) -> io::Result<usize> {
        let piece = match self.pieces.get(self.reads) {
            Some(piece) => *piece,
            None => return Ok(0),
        };
        if piece.is_empty() || buf.len() < piece.len() {
            self.reads = self.reads.saturating_add(1);
            return Err(io::Error::from(io::ErrorKind::Other));
        }
        self.reads = self.reads.saturating_add(1);
        buf[..piece.len()].copy_from_slice(piece);
        Ok(piece.len())
    }
}

/// Fails at one write, and takes at most five bytes at each other.
#[derive(Drop)]
struct Flaky {
    taken: Vec<u8>,
    writes: usize,
    failing: usize,
}

impl Write for Flaky {
    fn write(&mut self, buf: &[u8]) -> io::Result<usize> {
        let write = self.writes;
        self.writes = self.writes.saturating_add(1);
        if write == self.failing {
            return Err(io::Error::from(io::ErrorKind::Other));
        }
        let count = buf.len().min(5);
        match self.taken.extend_from_slice(&buf[..count]) {
            Ok(()) => Ok(count),
            Err(_) => Err(io::Error::from(io::ErrorKind::OutOfMemory)),
        }
    }

    fn flush(&mut self) -> io::Result<()> {
        Ok(())
    }
}

const EMPTY: &[u8] = b"\x00\x00\x00\x08\x02\x00\x00\x00";

#[test]
fn asks_a_reader_that_failed_no_more(rt: HostRuntime) -> Result<(), Fail> {
    let alloc = rt.alloc();
    let pieces: [&[u8]; 5] = [HEADER.as_slice(), EMPTY, &EMPTY[..5], b"", EMPTY];
    let mut reader = Pieces {
        pieces: &pieces,
        reads: 0,
    };
    let mut lines = Vec::new(alloc);
    let mut device = Device::new(&mut reader);
    let result = dump(alloc, &mut device, &mut Device::new(&mut lines));
    assert!(rt; matches!(result, Err(DumpFault::Read)));
    assert!(rt; device.failed());
    assert!(rt; device.read(&mut [0; 8]).is_err());
    assert_eq!(rt; reader.reads, 4);
    let shown = b"header id=0 version=1.0.0\n8 size=8 channel=0 empty\n".as_slice();
    assert_eq!(rt; lines.as_slice(), shown);
    Ok(())
}

#[test]
fn asks_a_writer_that_failed_no_more(rt: HostRuntime) -> Result<(), Fail> {
    let alloc = rt.alloc();
    let stream = behind_header(alloc, EMPTY)?;
    let mut bytes = stream.as_slice();
    let mut flaky = Flaky {
        taken: Vec::new(alloc),
        writes: 0,
        failing: 2,
    };
    let mut device = Device::new(&mut flaky);
    let result = dump(alloc, &mut Device::new(&mut bytes), &mut device);
    assert!(rt; matches!(result, Err(DumpFault::Write)));
    assert!(rt; device.failed());
    assert!(rt; device.write(b"more").is_err());
    assert_eq!(rt; flaky.writes, 3);
    assert_eq!(rt; flaky.taken.as_slice(), b"header id=".as_slice());
    Ok(())
}

#[test]
fn a_writer_that_takes_none_has_failed(rt: HostRuntime) -> Result<(), Fail> {
    let mut header = HEADER.as_slice();
    let mut writer = Device::new(FullWriter { has_written: false });
    let result = dump(rt.alloc(), &mut Device::new(&mut header), &mut writer);
    assert!(rt; matches!(result, Err(DumpFault::Write)));
    assert!(rt; writer.failed());
    Ok(())
}

#[test]
fn reads_nothing_behind_a_fault(rt: HostRuntime) -> Result<(), Fail> {
    let alloc = rt.alloc();
    let pieces: [&[u8]; 3] = [HEADER.as_slice(), b"\x00\x00\x00\x00", b""];
    let mut reader = Pieces {
        pieces: &pieces,
        reads: 0,
    };
    let mut lines = Vec::new(alloc);
    let mut device = Device::new(&mut reader);
    let is_clean = dump(alloc, &mut device, &mut Device::new(&mut lines))?;
    assert!(rt; !is_clean);
    assert!(rt; !device.failed());
    assert_eq!(rt; reader.reads, 2);
    let shown = b"header id=0 version=1.0.0\nfault: 8 TooSmall\n".as_slice();
    assert_eq!(rt; lines.as_slice(), shown);
    Ok(())
}

/// Takes five bytes, and then none.
#[derive(Drop)]
struct FullWriter {
    has_written: bool,
}

impl Write for FullWriter {
    fn write(&mut self, buf: &[u8]) -> io::Result<usize> {
        if self.has_written {
            return Ok(0);
        }
        self.has_written = true;
        Ok(buf.len().min(5))
    }

    fn flush(&mut self) -> io::Result<()> {
        Ok(())
    }
}
