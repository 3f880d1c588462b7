//! The consumers of a spool: the commands on them, and what one reads and acknowledges. A spool is a directory of
//! files.

use crate::loopback_tests::listening;
use crate::recv_tests::STREAM;
use crate::run_tests::{Host, fill, has_line, host_called, host_fed};
use amqp_commands::lags::{Arrivals, Lag, lags};
use amqp_commands::run::run;
use amqp_commands::{AwaitInput, Exclusive};
use amqp_spool::ConsumerName;
use amqp_spool::consumers::Standing;
use std::alloc::{Alloc, AllocError, Allocator, Global};
use std::env::FillError;
use std::fmt::Display;
use std::fs::{self, Metadata, OpenOptions};
use std::io::{self, Input};
use std::net::{Net, SocketAddr, TcpListener, TcpStream};
use std::os::fd::RawFd;
use std::process::{Abort, ExitCode};
use std::random::RandomSource;
use std::rt::{Env, Files};
use std::str::Split;
use std::test::Fail;
use std::time::{Clock, Duration};

/// A host with these words, whose files are the system's. Its clock stands.
#[derive(Drop)]
struct DiskHost<'a, R> {
    host: Host<'a>,
    rt: &'a R,
    words: &'a str,
}

impl<'a, R> DiskHost<'a, R> {
    /// Returns one with this standard input.
    fn fed(rt: &'a R, alloc: Global, words: &'a str, input: &'a [u8]) -> Self {
        DiskHost {
            host: host_fed(alloc, &[], input),
            rt,
            words,
        }
    }
}

impl<'a> DiskHost<'a, HostRuntime> {
    /// Returns one to which a peer comes that sends two messages.
    fn called(rt: &'a HostRuntime, words: &'a str, address: SocketAddr) -> Self {
        DiskHost {
            host: host_called(rt, &[], None, address, STREAM),
            rt,
            words,
        }
    }
}

impl<R> Alloc for DiskHost<'_, R> {
    type A = Global;

    fn alloc(&self) -> Global {
        self.host.alloc()
    }
}

impl<R> Print for DiskHost<'_, R> {
    fn print<D: Display + Drop>(&self, value: D) -> io::Result<()> {
        self.host.print(value)
    }

    fn println<D: Display + Drop>(&self, value: D) -> io::Result<()> {
        self.host.println(value)
    }

    fn write_all(&self, bytes: &[u8]) -> io::Result<()> {
        self.host.write_all(bytes)
    }
}

impl<R> Eprint for DiskHost<'_, R> {
    fn eprint<D: Display + Drop>(&self, value: D) -> io::Result<()> {
        self.host.eprint(value)
    }

    fn eprintln<D: Display + Drop>(&self, value: D) -> io::Result<()> {
        self.host.eprintln(value)
    }
}

impl<'a, R> Input for DiskHost<'a, R> {
    type Reader = &'a [u8];

    fn read_line<A: Allocator + Clone>(&self, buf: &mut String<A>) -> io::Result<usize> {
        self.host.read_line(buf)
    }

    fn lines<A: Allocator>(&self, alloc: A) -> io::Lines<&'a [u8], A> {
        self.host.lines(alloc)
    }

    fn reader(&self) -> &'a [u8] {
        self.host.reader()
    }
}

/// Its standard input is there at once.
impl<R> AwaitInput for DiskHost<'_, R> {
    fn input_descriptor(&self) -> Option<RawFd> {
        None
    }
}

impl<R> Env for DiskHost<'_, R> {
    fn arg(&self, i: usize, buf: &mut [u8]) -> Result<usize, FillError> {
        fill(self.words.split_whitespace().nth(i), buf)
    }

    fn var(&self, name: &str, buf: &mut [u8]) -> Result<usize, FillError> {
        self.host.var(name, buf)
    }

    fn var_at(&self, i: usize, buf: &mut [u8]) -> Result<usize, FillError> {
        self.host.var_at(i, buf)
    }
}

impl<R: Files> Files for DiskHost<'_, R> {
    type File = R::File;

    type Dir = R::Dir;

    fn open_file(&self, how: &OpenOptions, path: &str) -> io::Result<Self::File> {
        self.rt.open_file(how, path)
    }

    fn open_dir(&self, path: &str) -> io::Result<Self::Dir> {
        self.rt.open_dir(path)
    }

    fn metadata(&self, path: &str) -> io::Result<Metadata> {
        self.rt.metadata(path)
    }

    fn symlink_metadata(&self, path: &str) -> io::Result<Metadata> {
        self.rt.symlink_metadata(path)
    }

    fn copy(&self, from: &str, to: &str) -> io::Result<u64> {
        self.rt.copy(from, to)
    }

    fn rename(&self, from: &str, to: &str) -> io::Result<()> {
        self.rt.rename(from, to)
    }

    fn remove_file(&self, path: &str) -> io::Result<()> {
        self.rt.remove_file(path)
    }

    fn create_dir(&self, path: &str) -> io::Result<()> {
        self.rt.create_dir(path)
    }

    fn create_dir_with_mode(&self, path: &str, mode: u32) -> io::Result<()> {
        self.rt.create_dir_with_mode(path, mode)
    }

    fn remove_dir(&self, path: &str) -> io::Result<()> {
        self.rt.remove_dir(path)
    }

    fn remove_dir_all<B: Allocator>(&self, alloc: B, path: &str) -> io::Result<()> {
        self.rt.remove_dir_all(alloc, path)
    }
}

impl<R> Clock for DiskHost<'_, R> {
    fn monotonic(&self) -> io::Result<Duration> {
        self.host.monotonic()
    }

    fn since_1970(&self) -> io::Result<Duration> {
        self.host.since_1970()
    }
}

impl<R: RandomSource> RandomSource for DiskHost<'_, R> {
    fn fill_bytes(&self, buf: &mut [u8]) -> io::Result<()> {
        self.rt.fill_bytes(buf)
    }
}

impl<R> Net for DiskHost<'_, R> {
    type Stream = TcpStream;

    type Listener = TcpListener;

    fn bind(&self, addr: SocketAddr) -> io::Result<TcpListener> {
        self.host.bind(addr)
    }

    fn connect(&self, addr: SocketAddr) -> io::Result<TcpStream> {
        self.host.connect(addr)
    }
}

/// The name of a segment.
const FIRST: &str = "00000000000000000001.seg";

/// A segment with three records of the messages `m1` to `m3`, as data, a batch each. A model of the format wrote it, in
/// Python, and the files below.
const SEGMENT: &[u8] =
    b"amqpsp1\x0a\x00\x01\x02\x03\x04\x05\x06\x07\x08\x09\x0a\x0b\x0c\x0d\x0e\x0f\x10\x17\x1e%,3:AHOV]dkry\x00\x00\x00\x00\x00\x00\x00\x01\x00\x00\x00\x00\x00\x00\x00\x00\x00\x00\x00\x00\x00\x00\x00\x00\x00\x00\x00\x00\x00\x00\x00\x01F\xb7$OL0d\x13\x00\x00\x00Y\x00\x00\x00\x01\x00\x00\x00\x00\x00\x00\x00\x01\x00\x00\x01\x8b\xcf\xe5h\x012\xd4a\x18n|\x17X\x01\x00\x00\x00\x01\x00\x00\x00\x00\x00\x00\x00\x01\x0e10.0.0.7:50714\x06shop-7\x0borders-link\x00\x00\x00\x06orders\x02\x00\x00\x00\x01\x01\x01\x00\x00\x00\x00\x00\x00\x00\x00\x00\x01\x00\x00\x00\x00\x00\x00\x00\x07\x00Su\xa0\x02m1\x00\x00\x00 \x00\x00\x00\x01\x00\x00\x00\x00\x00\x00\x00\x02\x00\x00\x01\x8b\xcf\xe5h\x01#i\xb1;2\xfbC\x1f\x02\x00\x00\x00\x01\x01\x02\x00\x00\x00\x00\x00\x00\x00\x00\x00\x02\x00\x00\x00\x00\x00\x00\x00\x07\x00Su\xa0\x02m2\x00\x00\x00 \x00\x00\x00\x01\x00\x00\x00\x00\x00\x00\x00\x03\x00\x00\x01\x8b\xcf\xe5h\x01M\xd1\x01|\xa7\xca]\xf8\x02\x00\x00\x00\x01\x01\x03\x00\x00\x00\x00\x00\x00\x00\x00\x00\x03\x00\x00\x00\x00\x00\x00\x00\x07\x00Su\xa0\x02m3";

/// A place in the second batch of it.
const IN_SECOND: usize = 236;

/// The published end of it.
const END: &[u8] =
    b"\x00\x01\x02\x03\x04\x05\x06\x07\x08\x09\x0a\x0b\x0c\x0d\x0e\x0f\x00\x00\x00\x00\x00\x00\x00\x01F\xb7$OL0d\x13\x00\x00\x00\x00\x00\x00\x01I\x00\x00\x00\x00\x00\x00\x00\x04A\x9eH8\xee\x80\x05 ";

/// The position of a consumer that has acknowledged two of them.
const AT_TWO: &[u8] = b"000102030405060708090a0b0c0d0e0f 00000000000000000002 3a84e5987d0f8f30\x0a";

/// Makes a directory with these files.
fn make(rt: &HostRuntime, dir: &str, files: &[(&str, &[u8])]) -> io::Result<()> {
    let _ = fs::remove_dir_all(rt, dir);
    fs::create_dir(rt, dir)?;
    for (name, bytes) in files {
        let path = format!(in rt.alloc(); "{dir}/{name}")?;
        fs::write(rt, path.as_str(), *bytes)?;
    }
    Ok(())
}

/// Returns the lines of records from one number to another.
fn records(alloc: Global, from: u64, to: u64) -> Result<String, AllocError> {
    let mut text = String::new(alloc);
    for number in from..to.saturating_add(1) {
        write!(
            text,
            "number={number} time=1700000000001 life=1 connection=1 peer=\"10.0.0.7:50714\" container=\"shop-7\" user=null link=\"orders-link\" address=\"orders\" tag=0{number}\n{number} channel=0 handle=0 id={number} format=0 size=7 data \"m{number}\"\n"
        )?;
    }
    Ok(text)
}

/// Returns what a row says that is printed: `A to B` are the records of these numbers, and another text is a line.
fn printed(alloc: Global, words: &str) -> Result<String, AllocError> {
    if let Some((from, to)) = words.split_once(" to ") {
        if let (Ok(from), Ok(to)) = (from.parse::<u64>(), to.parse::<u64>()) {
            return records(alloc, from, to);
        }
    }
    line(alloc, words)
}

/// Returns a line, or nothing.
fn line(alloc: Global, words: &str) -> Result<String, AllocError> {
    if words.is_empty() {
        Ok(String::new(alloc))
    } else {
        format!(in alloc; "{words}\n")
    }
}

/// Returns what a row says that standard input has: words, a line each.
fn input(alloc: Global, words: &str) -> Result<String, AllocError> {
    let mut text = String::new(alloc);
    for word in words.split_whitespace() {
        write!(text, "{word}\n")?;
    }
    Ok(text)
}

/// Returns the next column of a row.
fn column<'a>(columns: &mut Split<'a, char>) -> &'a str {
    columns.next().unwrap_or("").trim()
}

/// Runs rows: the words of a command, what standard input has, the exit status, what is printed, and what is told,
/// parted by `|`.
fn assert_rows<R>(rt: &R, rows: &str) -> Result<(), Fail>
where
    R: Abort + Files + RandomSource + AllocGlobal,
    R::File: Exclusive,
{
    for row in rows.lines() {
        assert_row(rt, row)?;
    }
    Ok(())
}

fn assert_row<R>(rt: &R, row: &str) -> Result<(), Fail>
where
    R: Abort + Files + RandomSource + AllocGlobal,
    R::File: Exclusive,
{
    let alloc = rt.alloc();
    let mut columns = row.split('|');
    let words = column(&mut columns);
    let given = input(alloc, column(&mut columns))?;
    let status = column(&mut columns).parse::<u8>().unwrap_or(9);
    let out = printed(alloc, column(&mut columns))?;
    let err = line(alloc, column(&mut columns))?;
    let given = given.as_str().as_bytes();
    assert_ends(
        rt,
        words,
        given,
        ExitCode::from(status),
        out.as_str(),
        err.as_str(),
    )
}

/// Runs a command with this standard input, and asserts how it ends, what it prints, and what it tells.
fn assert_ends<R>(
    rt: &R,
    words: &str,
    given: &[u8],
    status: ExitCode,
    out: &str,
    err: &str,
) -> Result<(), Fail>
where
    R: Abort + Files + RandomSource + AllocGlobal,
    R::File: Exclusive,
{
    let alloc = rt.alloc();
    let host = DiskHost::fed(rt, alloc, words, given);
    let ended = run(&host);
    assert_eq!(rt; host.host.printed(alloc)?.as_str(), out, "{words}");
    assert_eq!(rt; host.host.told(alloc)?.as_str(), err, "{words}");
    assert!(rt; ended == status, "{words}");
    Ok(())
}

/// A consumer begins at what is there, its number rises up to the published end, and none has a name twice.
const CONSUMERS: &str = "\
amqp spool add spool_a a | | 0 | a 0 |
amqp spool add spool_a a | | 1 | | fault: spool_a: Present
amqp spool ack spool_a b 1 | | 1 | | fault: spool_a: Absent
amqp records --spool spool_a --consumer b | | 1 | | fault: spool_a: Absent
amqp records --spool spool_a --consumer a | | 0 | 1 to 3 |
amqp spool ack spool_a a 4 | | 1 | | fault: spool_a: AboveEnd: the last is 3
amqp spool ack spool_a a 2 | | 0 | |
amqp spool ack spool_a a 2 | | 0 | |
amqp spool ack spool_a a 1 | | 1 | | fault: spool_a: BelowPosition: it is at 2
amqp records --spool spool_a --consumer a | | 0 | 3 to 3 |
amqp records --spool spool_a --consumer a --address other | | 0 | |
amqp records --spool spool_a | | 0 | 1 to 3 |
amqp spool remove spool_a a | | 0 | |
amqp spool remove spool_a a | | 1 | | fault: spool_a: Absent";

#[test]
fn a_consumer_is_added_and_acknowledges(rt: HostRuntime) -> Result<(), Fail> {
    make(&rt, "spool_a", &[(FIRST, SEGMENT), ("end", END)])?;
    assert_rows(&rt, CONSUMERS)?;
    fs::remove_dir_all(&rt, "spool_a")?;
    Ok(())
}

/// What standard input has is acknowledged up to a line that is refused, which ends it.
const ACKS: &str = "\
amqp spool add spool_b a | | 0 | a 0 |
amqp records --spool spool_b --consumer a --acks | | 0 | 1 to 3 |
amqp records --spool spool_b --consumer a --acks | 1 2 | 0 | 1 to 3 |
amqp records --spool spool_b --consumer a --acks | 2 3 4 | 1 | 3 to 3 | ack: 4: AboveEnd: the last is 3
amqp records --spool spool_b --consumer a | | 0 | |
amqp records --spool spool_b --consumer a --acks | 2 | 1 | | ack: 2: BelowPosition: it is at 3
amqp spool add spool_b b | | 0 | b 0 |
amqp records --spool spool_b --consumer b --follow --acks | 1 3 | 0 | 1 to 3 |
amqp records --spool spool_b --consumer b --follow --acks | | 0 | |
amqp spool add spool_b c | | 0 | c 0 |
amqp records --spool spool_b --consumer c --acks | 2 1 3 | 1 | 1 to 3 | ack: 1: BelowPosition: it is at 2
amqp records --spool spool_b --consumer c --acks | x 3 | 1 | 3 to 3 | ack: x: no number
amqp records --spool spool_b --consumer c --acks | +3 | 1 | 3 to 3 | ack: +3: no number
amqp records --spool spool_b --consumer c --acks | 18446744073709551616 | 1 | 3 to 3 | ack: 18446744073709551616: no number
amqp records --spool spool_b --consumer c --acks | 000000000000000000003 | 1 | 3 to 3 | ack: 00000000000000000000..: no number
amqp records --spool spool_b --consumer c --acks | 00000000000000000003 | 0 | 3 to 3 |
amqp records --spool spool_b --consumer c --follow --poll 1 --acks | 3 | 0 | |";

#[test]
fn a_consumer_acknowledges_on_standard_input(rt: HostRuntime) -> Result<(), Fail> {
    make(&rt, "spool_b", &[(FIRST, SEGMENT), ("end", END)])?;
    assert_rows(&rt, ACKS)?;
    fs::remove_dir_all(&rt, "spool_b")?;
    Ok(())
}

/// The last line may lack its newline. An empty one is no number, and what is told of another is printable.
#[test]
fn lines_are_read_as_they_come(rt: HostRuntime) -> Result<(), Fail> {
    make(&rt, "spool_c", &[(FIRST, SEGMENT), ("end", END)])?;
    assert_row(&rt, "amqp spool add spool_c a | | 0 | a 0 |")?;
    let words = "amqp records --spool spool_c --consumer a --acks";
    let all = records(rt.alloc(), 1, 3)?;
    let all = all.as_str();
    for (given, err) in [
        (b"\n".as_slice(), "ack: : no number\n"),
        (b"\x1b[2J\n".as_slice(), "ack: \\x1b[2J: no number\n"),
        (b"1\r\n".as_slice(), "ack: 1\\r: no number\n"),
    ] {
        assert_ends(&rt, words, given, ExitCode::FAILURE, all, err)?;
    }
    assert_ends(&rt, words, b"1\n2", ExitCode::SUCCESS, all, "")?;
    let position = fs::read(&rt, "spool_c/a.at")?;
    assert_eq!(rt; position.as_slice(), AT_TWO);
    fs::remove_dir_all(&rt, "spool_c")?;
    Ok(())
}

/// A position that can't be read counts as 0 until it is acknowledged again.
const UNREAD: &str = "\
amqp records --spool spool_d --consumer a | | 0 | 1 to 3 | spool: a.at can't be read, and counts as 0
amqp records --spool spool_d --consumer a --acks | | 0 | 1 to 3 | spool: a.at can't be read, and counts as 0
amqp spool ack spool_d a 2 | | 0 | |
amqp records --spool spool_d --consumer a | | 0 | 3 to 3 |";

#[test]
fn a_position_that_is_torn_counts_as_nothing(rt: HostRuntime) -> Result<(), Fail> {
    let torn = &AT_TWO[..70];
    make(
        &rt,
        "spool_d",
        &[(FIRST, SEGMENT), ("end", END), ("a.at", torn)],
    )?;
    assert_rows(&rt, UNREAD)?;
    fs::remove_dir_all(&rt, "spool_d")?;
    Ok(())
}

/// While another acknowledges, none else does, but what is there can be read.
const LOCKED: &str = "\
amqp records --spool spool_e --consumer a --acks | 3 | 1 | | fault: spool_e: Locked
amqp spool ack spool_e a 3 | | 1 | | fault: spool_e: Locked
amqp spool remove spool_e a | | 1 | | fault: spool_e: Locked
amqp records --spool spool_e --consumer a | | 0 | 3 to 3 |";

#[test]
fn one_acknowledges_at_a_time(rt: HostRuntime) -> Result<(), Fail> {
    let files = [
        (FIRST, SEGMENT),
        ("end", END),
        ("a.at", AT_TWO),
        ("a.at.lock", b""),
    ];
    make(&rt, "spool_e", &files)?;
    let lock = fs::open(&rt, "spool_e/a.at.lock")?;
    assert!(rt; lock.hold()?);
    assert_rows(&rt, LOCKED)?;
    drop(lock);
    assert_row(&rt, "amqp spool ack spool_e a 3 | | 0 | |")?;
    fs::remove_dir_all(&rt, "spool_e")?;
    Ok(())
}

/// A consumer reads up to damage, and its position does not pass it.
const DAMAGED: &str = "\
amqp spool add spool_f a | | 0 | a 0 |
amqp records --spool spool_f --consumer a | | 3 | 1 to 1 | fault: 00000000000000000001.seg 201 Damaged, 2 to 3 are missing
amqp records --spool spool_f --consumer a --acks | 1 | 3 | 1 to 1 | fault: 00000000000000000001.seg 201 Damaged, 2 to 3 are missing
amqp records --spool spool_f --consumer a --follow | | 3 | | fault: 00000000000000000001.seg 201 Damaged, 2 to 3 are missing
amqp records --spool spool_f --after 0 --follow | | 3 | 1 to 1 | fault: 00000000000000000001.seg 201 Damaged, 2 to 3 are missing
amqp records --spool spool_f --follow --consumer a --acks | 1 | 3 | | fault: 00000000000000000001.seg 201 Damaged, 2 to 3 are missing";

#[test]
fn a_consumer_stops_at_damage(rt: HostRuntime) -> Result<(), Fail> {
    let mut segment = Vec::new(rt.alloc());
    segment.extend_from_slice(SEGMENT)?;
    if let Some(byte) = segment.get_mut(IN_SECOND) {
        *byte ^= 1;
    }
    make(&rt, "spool_f", &[(FIRST, &segment), ("end", END)])?;
    assert_rows(&rt, DAMAGED)?;
    fs::remove_dir_all(&rt, "spool_f")?;
    Ok(())
}

/// What came is acknowledged if nothing can be printed any more.
#[test]
fn what_came_is_acknowledged_though_nothing_is_printed(rt: HostRuntime) -> Result<(), Fail> {
    make(&rt, "spool_g", &[(FIRST, SEGMENT), ("end", END)])?;
    assert_row(&rt, "amqp spool add spool_g a | | 0 | a 0 |")?;
    let words = "amqp records --spool spool_g --consumer a --acks";
    let mut host = DiskHost::fed(&rt, rt.alloc(), words, b"2\n");
    host.host.shut();
    assert!(rt; run(&host) == ExitCode::FAILURE);
    assert_eq!(rt; host.host.told(rt.alloc())?.as_str(), "fault: Write\n");
    assert_row(
        &rt,
        "amqp records --spool spool_g --consumer a | | 0 | 3 to 3 |",
    )?;
    fs::remove_dir_all(&rt, "spool_g")?;
    Ok(())
}

/// Runs a gateway whose spool and metrics are in a directory, to which a peer comes that sends two messages. Returns
/// its exit status, and what it told.
fn gateway_ran(rt: &HostRuntime, dir: &str) -> io::Result<(ExitCode, String)> {
    let (_, address) = listening(rt)?;
    let words = format!(in rt.alloc();
        "amqp gateway --listen {address} --connections 1 --spool {dir} --bytes 4293056 --segment 1048688 --reserve 0 --metrics {dir}/m.prom"
    )?;
    gateway_called(rt, words.as_str(), address)
}

/// Runs a gateway by these words, to which a peer comes at an address.
fn gateway_called(
    rt: &HostRuntime,
    words: &str,
    address: SocketAddr,
) -> io::Result<(ExitCode, String)> {
    let host = DiskHost::called(rt, words, address);
    let ended = run(&host);
    let told = host.host.told(rt.alloc())?;
    Ok((ended, told))
}

/// The metrics have how far each consumer is behind. The clock stands.
#[test]
fn a_gateway_counts_what_consumers_lack(rt: HostRuntime) -> Result<(), Fail> {
    let _ = fs::remove_dir_all(&rt, "spool_h");
    let (ended, told) = gateway_ran(&rt, "spool_h")?;
    assert!(rt; ended == ExitCode::SUCCESS, "{told}");
    assert_row(&rt, "amqp spool add spool_h a | | 0 | a 0 |")?;
    assert_row(&rt, "amqp spool add spool_h b | | 0 | b 0 |")?;
    assert_row(&rt, "amqp spool ack spool_h b 2 | | 0 | |")?;
    let (ended, told) = gateway_ran(&rt, "spool_h")?;
    assert!(rt; ended == ExitCode::SUCCESS, "{told}");
    let text = fs::read_to_string(&rt, "spool_h/m.prom")?;
    for line in [
        "amqp_gateway_spool_next 5",
        "amqp_gateway_spool_lag_records{consumer=\"a\"} 4",
        "amqp_gateway_spool_lag_records{consumer=\"b\"} 2",
        "amqp_gateway_spool_lag_seconds{consumer=\"a\"} 0",
    ] {
        assert!(rt; has_line(text.as_str(), line), "{line}");
    }
    fs::remove_dir_all(&rt, "spool_h")?;
    Ok(())
}

/// Returns where a consumer stands.
fn standing(name: &str, number: Option<u64>) -> Option<Standing> {
    let name = ConsumerName::of(name)?;
    Some(Standing { name, number })
}

/// The age of a record is that of the first moment that had it; before the start none is known.
#[test]
fn a_lag_is_told_in_records_and_in_seconds(rt: HostRuntime) -> Result<(), Fail> {
    let mut arrivals = Arrivals::new(rt.alloc());
    for (at, next) in [
        (1_000, 5),
        (1_999, 6),
        (11_000, 8),
        (12_000, 8),
        (21_000, 9),
    ] {
        arrivals.note(at, next);
    }
    for (number, records, seconds) in [
        (None, 8, 30),
        (Some(0), 8, 30),
        (Some(3), 5, 30),
        (Some(4), 4, 20),
        (Some(6), 2, 20),
        (Some(7), 1, 10),
        (Some(8), 0, 0),
    ] {
        let Some(standing) = standing("a", number) else {
            return Err(Fail::from("no name"));
        };
        let told = lags(rt.alloc(), &[standing], &arrivals, 9, 31_000)?;
        assert_eq!(rt; told.len(), 1);
        for Lag {
            records: more,
            seconds: ago,
            ..
        } in told.iter().copied() {
            assert_eq!(rt; (more, ago), (records, seconds));
        }
    }
    Ok(())
}

/// However many moments there were, an age is told at three quarters at least.
#[test]
fn an_age_is_told_well_enough(rt: HostRuntime) {
    let mut arrivals = Arrivals::new(rt.alloc());
    for second in 0..2000u64 {
        arrivals.note(second * 1000, second + 1);
    }
    for second in 0..2000u64 {
        let age = (1999 - second) * 1000;
        let told = arrivals.age(second, 1_999_000);
        assert!(rt;
            told <= age && age * 3 <= told * 4 + 3000,
            "{second} {told}"
        );
    }
}
