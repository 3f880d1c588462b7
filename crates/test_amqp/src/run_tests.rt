//! The program on a host of its own: the exit statuses, and what stands on standard error.

ghost use Rattle.std.specs.Io.{WritesAtMost};

use crate::loopback_tests::{connected, listening};
use crate::recv_tests::{RECORDS, STREAM};
use amqp_commands::run::run;
use amqp_commands::{AwaitInput, Exclusive};
use amqp_frame::HEADER;
use std::alloc::{Alloc, AllocError, Allocator, Global};
use std::cell::RefCell;
use std::env::FillError;
use std::fmt::Display;
use std::fs::{Metadata, OpenFile, OpenOptions};
use std::io::{self, BufRead, ErrorKind, Input, Read, Seek, SeekFrom, Write};
use std::net::{Net, SocketAddr, TcpListener, TcpStream};
use std::os::fd::RawFd;
use std::process::{Abort, ExitCode};
use std::random::RandomSource;
use std::rt::{Env, Files};
use std::str::Split;
use std::test::Fail;
use std::time::{Clock, Duration};

/// What became of the files of a disk.
#[derive(Drop)]
struct Disk {
    appended: RefCell<Vec<u8>>,
    /// The file of metrics that is written, and the one that stands in its place.
    written: RefCell<Vec<u8>>,
    metrics: RefCell<Vec<u8>>,
}

/// A file of a disk.
#[derive(Clone, Copy)]
enum Place {
    Given,
    Metrics,
}

impl Disk {
    fn new(alloc: Global) -> Disk {
        Disk {
            appended: RefCell::new(Vec::new(alloc)),
            written: RefCell::new(Vec::new(alloc)),
            metrics: RefCell::new(Vec::new(alloc)),
        }
    }

    fn file(&self, place: Place) -> &RefCell<Vec<u8>> {
        match place {
            Place::Given => &self.appended,
            Place::Metrics => &self.written,
        }
    }

    /// Puts the metrics that were written in the place of those before.
    fn renew(&self) -> io::Result<()> {
        match (self.written.try_borrow_mut(), self.metrics.try_borrow_mut()) {
            (Ok(mut written), Ok(mut metrics)) => {
                metrics.clear();
                metrics.extend_from_slice(&written)?;
                written.clear();
                Ok(())
            }
            _ => Err(io::Error::from(ErrorKind::Other)),
        }
    }
}

/// A file that gives its bytes, and then ends or fails. Where there is a disk it takes more.
#[derive(Clone, Copy)]
pub struct Bytes<'a> {
    all: &'a [u8],
    bytes: &'a [u8],
    is_broken: bool,
    disk: Option<&'a Disk>,
    place: Place,
}

impl Read for Bytes<'_> {
    fn read(&mut self, buf: &mut [u8]) -> io::Result<usize> {
        let count = self.bytes.len().min(buf.len());
        if count == 0 && self.is_broken {
            return Err(io::Error::from(ErrorKind::Other));
        }
        buf[..count].copy_from_slice(&self.bytes[..count]);
        self.bytes = &self.bytes[count..];
        Ok(count)
    }
}

impl Write for Bytes<'_> {
    fn write(&mut self, buf: &[u8]) -> io::Result<usize> {
        let Some(disk) = self.disk else {
            return Err(io::Error::from(ErrorKind::Unsupported));
        };
        let file = disk.file(self.place);
        match file.try_borrow_mut() {
            Ok(mut file) => file.extend_from_slice(buf)?,
            Err(_) => return Err(io::Error::from(ErrorKind::Other)),
        }
        Ok(buf.len())
    }

    fn flush(&mut self) -> io::Result<()> {
        Ok(())
    }
}

impl Seek for Bytes<'_> {
    fn seek(&mut self, to: SeekFrom) -> io::Result<u64> {
        let SeekFrom::Start(at) = to else {
            return Err(io::Error::from(ErrorKind::Unsupported));
        };
        self.bytes = self.all.get(at as usize..).unwrap_or(&[]);
        Ok(at)
    }
}

impl OpenFile for Bytes<'_> {
    fn metadata(&self) -> io::Result<Metadata> {
        Err(io::Error::from(ErrorKind::Unsupported))
    }

    fn set_len(&self, _size: u64) -> io::Result<()> {
        Err(io::Error::from(ErrorKind::Unsupported))
    }

    fn sync_all(&self) -> io::Result<()> {
        Ok(())
    }

    fn sync_data(&self) -> io::Result<()> {
        Ok(())
    }
}

impl Exclusive for Bytes<'_> {
    fn hold(&self) -> io::Result<bool> {
        Ok(true)
    }
}

/// A host with these words, this one file if any, this standard input, a standard output that may be shut or be full at some
/// time, and a listener if any.
#[derive(Drop)]
pub struct Host<'a> {
    alloc: Global,
    words: &'a [&'a str],
    file: Option<Bytes<'a>>,
    input: &'a [u8],
    is_shut: bool,
    /// How many bytes standard output takes.
    most: usize,
    listener: Option<&'a TcpListener>,
    /// A peer that comes once it is told that it is listened, and stays.
    caller: Option<Caller<'a>>,
    out: RefCell<String>,
    err: RefCell<String>,
}

/// A peer that connects to an address, and sends this.
#[derive(Drop)]
struct Caller<'a> {
    rt: &'a HostRuntime,
    address: SocketAddr,
    bytes: &'a [u8],
    stream: RefCell<Option<TcpStream>>,
}

impl Caller<'_> {
    /// Connects and sends, if it has not yet.
    fn call(&self) -> io::Result<()> {
        let Ok(mut stream) = self.stream.try_borrow_mut() else {
            return Err(io::Error::from(ErrorKind::Other));
        };
        if stream.is_none() {
            *stream = Some(connected(self.rt, self.address, self.bytes)?);
        }
        Ok(())
    }
}

/// Appends text to what a stream took.
fn append(stream: &RefCell<String>, text: impl Display + Drop, end: &str) -> io::Result<()> {
    match stream.try_borrow_mut() {
        Ok(mut taken) => {
            write!(taken, "{text}{end}")?;
            Ok(())
        }
        Err(_) => Err(io::Error::from(ErrorKind::Other)),
    }
}

impl Host<'_> {
    /// Returns what was printed.
    pub fn printed(&self, alloc: Global) -> io::Result<String> {
        taken(alloc, &self.out)
    }

    /// Returns what was told on standard error.
    pub fn told(&self, alloc: Global) -> io::Result<String> {
        taken(alloc, &self.err)
    }

    /// Lets standard output take nothing more.
    pub fn shut(&mut self) {
        self.is_shut = true;
    }

    /// Returns how many bytes more standard output takes.
    fn room(&self) -> usize {
        match self.out.try_borrow() {
            Ok(out) => self.most.saturating_sub(out.len()),
            Err(_) => 0,
        }
    }
}

impl Alloc for Host<'_> {
    type A = Global;

    fn alloc(&self) -> Global {
        self.alloc
    }
}

impl Print for Host<'_> {
    fn print<D: Display + Drop>(&self, value: D) -> io::Result<()> {
        append(&self.out, value, "")
    }

    fn println<D: Display + Drop>(&self, value: D) -> io::Result<()> {
        append(&self.out, value, "\n")
    }

    fn write_all(&self, bytes: &[u8]) -> io::Result<()> {
        if self.is_shut {
            return Err(io::Error::from(ErrorKind::BrokenPipe));
        }
        let (taken, left) = bytes.split_at(self.room().min(bytes.len()));
        match std::str::from_utf8(taken) {
            Ok(text) => append(&self.out, text, "")?,
            Err(_) => append(&self.out, "?", "")?, // what is no text
        }
        if left.is_empty() {
            Ok(())
        } else {
            Err(io::Error::from(ErrorKind::WriteZero))
        }
    }
}

impl Eprint for Host<'_> {
    fn eprint<D: Display + Drop>(&self, value: D) -> io::Result<()> {
        append(&self.err, value, "")
    }

    fn eprintln<D: Display + Drop>(&self, value: D) -> io::Result<()> {
        if let Some(caller) = &self.caller {
            let _ = caller.call(); // none listens any more where it is a fault that is told
        }
        append(&self.err, value, "\n")
    }
}

impl<'a> Input for Host<'a> {
    type Reader = &'a [u8];

    fn read_line<A: Allocator + Clone>(&self, buf: &mut String<A>) -> io::Result<usize> {
        self.reader().read_line(buf)
    }

    fn lines<A: Allocator>(&self, alloc: A) -> io::Lines<&'a [u8], A> {
        self.reader().lines(alloc)
    }

    fn reader(&self) -> &'a [u8] {
        self.input
    }
}

/// Its standard input is there at once.
impl AwaitInput for Host<'_> {
    fn input_descriptor(&self) -> Option<RawFd> {
        None
    }
}

/// Fills a buffer with a word, if there is one.
pub fn fill(word: Option<&str>, buf: &mut [u8]) -> Result<usize, FillError>
    ensures { WritesAtMost result buf.new }
{
    let Some(word) = word else {
        return Err(FillError::NotPresent);
    };
    let word = word.as_bytes();
    if word.len() > buf.len() {
        return Err(FillError::TooLong);
    }
    buf[..word.len()].copy_from_slice(word);
    Ok(word.len())
}

impl Env for Host<'_> {
    fn arg(&self, i: usize, buf: &mut [u8]) -> Result<usize, FillError> {
        fill(self.words.get(i).copied(), buf)
    }

    fn var(&self, _name: &str, _buf: &mut [u8]) -> Result<usize, FillError> {
        Err(FillError::NotPresent)
    }

    fn var_at(&self, _i: usize, _buf: &mut [u8]) -> Result<usize, FillError> {
        Err(FillError::NotPresent)
    }
}

impl<'a> Files for Host<'a> {
    type File = Bytes<'a>;

    type Dir = Bytes<'a>;

    fn open_file(&self, _how: &OpenOptions, path: &str) -> io::Result<Bytes<'a>> {
        match self.file {
            Some(file) if path == "a.amqp" => Ok(file),
            Some(file) if path == "m.prom.new" => Ok(Bytes {
                place: Place::Metrics,
                ..file
            }),
            _ => Err(io::Error::from(ErrorKind::NotFound)),
        }
    }

    fn open_dir(&self, _path: &str) -> io::Result<Bytes<'a>> {
        Err(io::Error::from(ErrorKind::Unsupported))
    }

    fn metadata(&self, _path: &str) -> io::Result<Metadata> {
        Err(io::Error::from(ErrorKind::Unsupported))
    }

    fn symlink_metadata(&self, _path: &str) -> io::Result<Metadata> {
        Err(io::Error::from(ErrorKind::Unsupported))
    }

    fn copy(&self, _from: &str, _to: &str) -> io::Result<u64> {
        Err(io::Error::from(ErrorKind::Unsupported))
    }

    fn rename(&self, from: &str, to: &str) -> io::Result<()> {
        match self.file {
            Some(
                Bytes {
                    disk: Some(disk),
                    ..
                },
            ) if from == "m.prom.new" && to == "m.prom" => disk.renew(),
            _ => Err(io::Error::from(ErrorKind::Unsupported)),
        }
    }

    fn remove_file(&self, _path: &str) -> io::Result<()> {
        Err(io::Error::from(ErrorKind::Unsupported))
    }

    fn create_dir(&self, _path: &str) -> io::Result<()> {
        Err(io::Error::from(ErrorKind::Unsupported))
    }

    fn remove_dir(&self, _path: &str) -> io::Result<()> {
        Err(io::Error::from(ErrorKind::Unsupported))
    }

    fn remove_dir_all<B: std::alloc::Allocator>(&self, _alloc: B, _path: &str) -> io::Result<()> {
        Err(io::Error::from(ErrorKind::Unsupported))
    }
}

/// Its clock stands.
impl Clock for Host<'_> {
    fn monotonic(&self) -> io::Result<Duration> {
        Ok(Duration::from_secs(1))
    }

    fn since_1970(&self) -> io::Result<Duration> {
        Err(io::Error::from(ErrorKind::Unsupported))
    }
}

/// It has no random bytes.
impl RandomSource for Host<'_> {
    fn fill_bytes(&self, _buf: &mut [u8]) -> io::Result<()> {
        Err(io::Error::from(ErrorKind::Unsupported))
    }
}

/// It reaches no other, and listens where its listener does.
impl Net for Host<'_> {
    type Stream = TcpStream;

    type Listener = TcpListener;

    fn bind(&self, _addr: SocketAddr) -> io::Result<TcpListener> {
        match self.listener {
            Some(listener) => listener.try_clone(),
            None => Err(io::Error::from(ErrorKind::Unsupported)),
        }
    }

    fn connect(&self, _addr: SocketAddr) -> io::Result<TcpStream> {
        Err(io::Error::from(ErrorKind::ConnectionRefused))
    }
}

/// Returns a host whose words are these.
fn host_of<'a>(alloc: Global, words: &'a [&'a str], file: Option<Bytes<'a>>) -> Host<'a> {
    Host {
        alloc,
        words,
        file,
        input: &[],
        is_shut: false,
        most: usize::MAX,
        listener: None,
        caller: None,
        out: RefCell::new(String::new(alloc)),
        err: RefCell::new(String::new(alloc)),
    }
}

/// Returns a host whose words are these, with this standard input.
pub fn host_fed<'a>(alloc: Global, words: &'a [&'a str], input: &'a [u8]) -> Host<'a> {
    Host {
        alloc,
        words,
        file: None,
        input,
        is_shut: false,
        most: usize::MAX,
        listener: None,
        caller: None,
        out: RefCell::new(String::new(alloc)),
        err: RefCell::new(String::new(alloc)),
    }
}

/// A host with these words and this file if any, to which a peer comes that sends these bytes.
pub fn host_called<'a>(
    rt: &'a HostRuntime,
    words: &'a [&'a str],
    file: Option<Bytes<'a>>,
    address: SocketAddr,
    bytes: &'a [u8],
) -> Host<'a> {
    Host {
        alloc: rt.alloc(),
        words,
        file,
        input: &[],
        is_shut: false,
        most: usize::MAX,
        listener: None,
        caller: Some(Caller {
            rt,
            address,
            bytes,
            stream: RefCell::new(None),
        }),
        out: RefCell::new(String::new(rt.alloc())),
        err: RefCell::new(String::new(rt.alloc())),
    }
}

const LINE: &str = "header id=0 version=1.0.0\n";

/// The lines of a header and a cut frame.
const CUT_LINES: &str = "header id=0 version=1.0.0\nfault: 8 Cut\n";

/// Runs the program on this file if any, and asserts how it ends and what it writes.
fn assert_ends(rt: &impl Abort, host: Host<'_>, status: ExitCode, out: &str, err: &str) {
    assert!(rt; run(&host) == status);
    let (printed, told) = (host.out.into_inner(), host.err.into_inner());
    assert_eq!(rt; (printed.as_str(), told.as_str()), (out, err));
}

/// Returns a file that gives its bytes and ends.
fn whole<'a>(bytes: &'a [u8]) -> Option<Bytes<'a>> {
    Some(Bytes {
        all: bytes,
        bytes,
        is_broken: false,
        disk: None,
        place: Place::Given,
    })
}

/// One that gives them and fails.
fn broken<'a>(bytes: &'a [u8]) -> Option<Bytes<'a>> {
    Some(Bytes {
        all: bytes,
        bytes,
        is_broken: true,
        disk: None,
        place: Place::Given,
    })
}

/// Returns a file of this disk that gives these bytes and ends.
fn kept<'a>(disk: &'a Disk, bytes: &'a [u8]) -> Option<Bytes<'a>> {
    Some(Bytes {
        all: bytes,
        bytes,
        is_broken: false,
        disk: Some(disk),
        place: Place::Given,
    })
}

#[test]
fn answers_by_status_and_standard_error(rt: HostRuntime) {
    let words = ["amqp", "dump", "a.amqp"];
    let header = HEADER.as_slice();
    let cut = b"AMQP\x00\x01\x00\x00\x00".as_slice();
    for (file, is_shut, status, out, err) in [
        (whole(header), false, ExitCode::SUCCESS, LINE, ""),
        (whole(cut), false, ExitCode::FAILURE, CUT_LINES, ""),
        (
            broken(header),
            false,
            ExitCode::FAILURE,
            LINE,
            "fault: Read\n",
        ),
        (None, false, ExitCode::FAILURE, "", "fault: Open\n"),
        (whole(header), true, ExitCode::FAILURE, "", "fault: Write\n"),
    ] {
        let mut host = host_of(rt.alloc(), &words, file);
        host.is_shut = is_shut;
        assert_ends(&rt, host, status, out, err);
    }
}

#[test]
fn dumps_standard_input(rt: HostRuntime) {
    let words: [&str; 3] = ["amqp", "dump", "-"];
    let host = host_fed(rt.alloc(), &words, HEADER.as_slice());
    assert_ends(&rt, host, ExitCode::SUCCESS, LINE, "");
    let host = host_fed(rt.alloc(), &words, b"AMQP\x00\x01\x00\x00\x00");
    assert_ends(&rt, host, ExitCode::FAILURE, CUT_LINES, "");
}

/// A record of the message `hello` as data, on channel 1 and handle 2, with id 3.
const HELLO: &[u8] =
    b"\x00\x01\x00\x00\x00\x02\x00\x00\x00\x03\x00\x00\x00\x00\x00\x00\x00\x0a\x00Su\xa0\x05hello";

/// That record, and a beginning of another one.
const HELLO_AND_CUT: &[u8] =
    b"\x00\x01\x00\x00\x00\x02\x00\x00\x00\x03\x00\x00\x00\x00\x00\x00\x00\x0a\x00Su\xa0\x05hello\x00\x01";

/// Its line.
const HELLO_LINE: &str = "1 channel=1 handle=2 id=3 format=0 size=10 data \"hello\"\n";

const HELLO_OBJECT: &str =
    "{\"channel\":1,\"data\":\"hello\",\"format\":0,\"handle\":2,\"id\":3,\"number\":1,\"size\":10}\n";

#[test]
fn prints_records(rt: HostRuntime) {
    let words = ["amqp", "records", "a.amqp"];
    let out = HELLO_LINE;
    for (file, is_shut, status, out, err) in [
        (whole(HELLO), false, ExitCode::SUCCESS, out, ""),
        (
            whole(HELLO_AND_CUT),
            false,
            ExitCode::FAILURE,
            out,
            "fault: 28 Cut\n",
        ),
        (
            broken(HELLO),
            false,
            ExitCode::FAILURE,
            out,
            "fault: Read\n",
        ),
        (None, false, ExitCode::FAILURE, "", "fault: Open\n"),
        (whole(HELLO), true, ExitCode::FAILURE, "", "fault: Write\n"),
    ] {
        let mut host = host_of(rt.alloc(), &words, file);
        host.is_shut = is_shut;
        assert_ends(&rt, host, status, out, err);
    }
}

#[test]
fn prints_records_as_asked_for(rt: HostRuntime) {
    let (good, bad) = (ExitCode::SUCCESS, ExitCode::FAILURE);
    let cases: [(&[&str], ExitCode, &str, &str); 5] = [
        (&["amqp", "records", "--json", "-"], good, HELLO_OBJECT, ""),
        (
            &["amqp", "records", "--only", "2", "-"],
            bad,
            "",
            "fault: Absent\n",
        ),
        (
            &["amqp", "records", "--max-message", "11", "-"],
            good,
            HELLO_LINE,
            "",
        ),
        (
            &["amqp", "records", "--max-message", "10", "-"],
            good,
            HELLO_LINE,
            "",
        ),
        (
            &["amqp", "records", "--max-message", "9", "-"],
            bad,
            "",
            "fault: 0 TooLong\n",
        ),
    ];
    for (words, status, out, err) in cases {
        assert_ends(&rt, host_fed(rt.alloc(), words, HELLO), status, out, err);
    }
}

#[test]
fn runs_a_script(rt: HostRuntime) {
    let words = ["amqp", "replay", "a.amqp"];
    let good = b"config r 512 0 1 4 10 100\nfeed 414d5150\nfinish\n".as_slice();
    let bad = b"config r 512 0 1 4 10 100\nheld\nfeed 4\n".as_slice();
    let lines = "used=4 More\nend Inside 4\n";
    for (file, is_shut, status, out, err) in [
        (whole(good), false, ExitCode::SUCCESS, lines, ""),
        (whole(bad), false, ExitCode::FAILURE, "", "fault: line 3\n"),
        (broken(good), false, ExitCode::FAILURE, "", "fault: Read\n"),
        (None, false, ExitCode::FAILURE, "", "fault: Open\n"),
        (whole(good), true, ExitCode::FAILURE, "", "fault: Write\n"),
    ] {
        let mut host = host_of(rt.alloc(), &words, file);
        host.is_shut = is_shut;
        assert_ends(&rt, host, status, out, err);
    }
}

/// Returns a script with this many calls that ask what is held and so many that feed nothing, of whose answers one
/// has 7 bytes and the other 12, and the lines that it is answered with.
fn answered(alloc: Global, held: usize, fed: usize) -> Result<(String, String), AllocError> {
    let mut script = String::from_str(alloc, "config r 512 0 1 4 10 100\n")?;
    let mut lines = String::new(alloc);
    for _ in 0..fed {
        script.push_str("feed\n")?;
        lines.push_str("used=0 More\n")?;
    }
    for _ in 0..held {
        script.push_str("held\n")?;
        lines.push_str("held 0\n")?;
    }
    Ok((script, lines))
}

/// Answers go out whole, however many they are beside what is gathered of them.
#[test]
fn sends_out_all_answers_of_a_script(rt: HostRuntime) -> Result<(), Fail> {
    let words = ["amqp", "replay", "a.amqp"];
    for (held, fed, len) in [
        (9357, 3, 65_535),
        (9352, 6, 65_536),
        (9359, 2, 65_537),
        (18_723, 1, 131_073),
    ] {
        let (script, lines) = answered(rt.alloc(), held, fed)?;
        assert_eq!(rt; lines.len(), len);
        let host = host_of(rt.alloc(), &words, whole(script.as_bytes()));
        assert_ends(&rt, host, ExitCode::SUCCESS, &lines, "");
    }
    Ok(())
}

/// Where standard output is full it has taken the first answers, as many bytes as it could. They are told of as not written, also where they
/// fit what is gathered.
#[test]
fn says_that_standard_output_is_full(rt: HostRuntime) -> Result<(), Fail> {
    let words = ["amqp", "replay", "a.amqp"];
    for (held, most) in [(2, 13), (9400, 65_000), (18_723, 70_000)] {
        let (script, lines) = answered(rt.alloc(), held, 1)?;
        let mut host = host_of(rt.alloc(), &words, whole(script.as_bytes()));
        host.most = most;
        assert!(rt; run(&host) == ExitCode::FAILURE);
        let (printed, told) = (host.out.into_inner(), host.err.into_inner());
        assert_eq!(rt; told.as_str(), "fault: Write\n");
        let first = lines.as_str().as_bytes().get(..most).unwrap_or(&[]);
        assert!(rt; printed.as_str().as_bytes() == first);
    }
    Ok(())
}

#[test]
fn says_that_an_address_is_not_open(rt: HostRuntime) {
    let send: [&str; 5] = ["amqp", "send", "--to", "127.0.0.1:5672", "a.amqp"];
    for file in [whole(b"hi"), None] {
        let host = host_of(rt.alloc(), &send, file);
        assert_ends(&rt, host, ExitCode::FAILURE, "", "fault: Open\n");
    }
    let recv: [&str; 4] = ["amqp", "recv", "--listen", "127.0.0.1:5672"];
    let host = host_of(rt.alloc(), &recv, None);
    assert_ends(&rt, host, ExitCode::FAILURE, "", "fault: Open\n");
}

/// Seventeen rows.
const MANY: &[u8] =
    b"a 1 1\nb 1 1\nc 1 1\nd 1 1\ne 1 1\nf 1 1\ng 1 1\nh 1 1\ni 1 1\nj 1 1\nk 1 1\nl 1 1\nm 1 1\nn 1 1\no 1 1\np 1 1\nq 1 1\n";

/// A prefix of 256 bytes.
const LONG: &[u8] =
    b"aaaaaaaaaaaaaaaaaaaaaaaaaaaaaaaaaaaaaaaaaaaaaaaaaaaaaaaaaaaaaaaaaaaaaaaaaaaaaaaaaaaaaaaaaaaaaaaaaaaaaaaaaaaaaaaaaaaaaaaaaaaaaaaaaaaaaaaaaaaaaaaaaaaaaaaaaaaaaaaaaaaaaaaaaaaaaaaaaaaaaaaaaaaaaaaaaaaaaaaaaaaaaaaaaaaaaaaaaaaaaaaaaaaaaaaaaaaaaaaaaaaaaaaaaaaaaaaa 1 1\n";

/// After limits that are read the address isn't open; after others it is not asked for.
#[test]
fn names_the_line_of_a_bad_limit(rt: HostRuntime) {
    let words: [&str; 6] = [
        "amqp",
        "recv",
        "--listen",
        "127.0.0.1:5672",
        "--limits",
        "a.amqp",
    ];
    for (file, told) in [
        (whole(&MANY[..96]), "fault: Open\n"),
        (whole(b"l 2 5"), "fault: Open\n"),
        (whole(MANY), "fault: line 17\n"),
        (whole(LONG), "fault: line 1\n"),
        (whole(&LONG[1..]), "fault: Open\n"),
        (whole(b""), "fault: line 1\n"),
        (whole(b" 2 5\n"), "fault: line 1\n"),
        (whole(b"l 2 5\nm 0 5\n"), "fault: line 2\n"),
        (whole(b"l 2 5\nm 1025 5\n"), "fault: line 2\n"),
        (whole(b"l 2 0\n"), "fault: line 1\n"),
        (whole(b"l 2 1073741825\n"), "fault: line 1\n"),
        (whole(b"l 2 5\nm 2 5\nl 3 6\n"), "fault: line 3\n"),
        (whole(b"l 2 5\r\n"), "fault: line 1\n"),
        (whole(b"l 2 5\n\xff 2 5\n"), "fault: line 2\n"),
        (whole(b"limit l 2 5\n"), "fault: line 1\n"),
        (broken(b"l 2 5\n"), "fault: Read\n"),
        (None, "fault: Open\n"),
    ] {
        let host = host_of(rt.alloc(), &words, file);
        assert_ends(&rt, host, ExitCode::FAILURE, "", told);
    }
}

/// Two peers that have sent all that they send wait at a listener of this machine.
#[test]
fn ends_where_standard_output_is_closed(rt: HostRuntime) -> Result<(), Fail> {
    let words: [&str; 6] = [
        "amqp",
        "recv",
        "--listen",
        "127.0.0.1:5672",
        "--connections",
        "2",
    ];
    let closed = "connection 1: Closed\nconnection 2: Closed\n";
    for (is_shut, status, told, records) in [
        (false, ExitCode::SUCCESS, closed, 2 * RECORDS.len()),
        (true, ExitCode::FAILURE, "connection 1: Sink\n", 0),
    ] {
        let (listener, address) = listening(&rt)?;
        let first = connected(&rt, address, STREAM)?;
        let second = connected(&rt, address, STREAM)?;
        let mut host = host_of(rt.alloc(), &words, None);
        host.is_shut = is_shut;
        host.listener = Some(&listener);
        assert!(rt; run(&host) == status);
        let (out, err) = (host.out.into_inner(), host.err.into_inner());
        assert_eq!(rt; (out.len(), err.as_str()), (records, told));
        drop((first, second));
    }
    Ok(())
}

#[test]
fn answers_a_command_line(rt: HostRuntime) {
    let alloc = rt.alloc();
    let host = host_of(alloc, &["amqp", "--version"], None);
    assert_ends(&rt, host, ExitCode::SUCCESS, "amqp 0.1.0\n", "");
    let lines: [&[&str]; 41] = [
        &["amqp"],
        &["amqp", "records"],
        &["amqp", "records", "a", "--only", "0"],
        &["amqp", "records", "a", "--json", "--only", "1"],
        &["amqp", "records", "a", "--spool", "b"],
        &["amqp", "records", "a", "--after", "1"],
        &["amqp", "records", "--spool", "a", "--after", "-1"],
        &["amqp", "records", "--spool", "a", "--blocks"],
        &["amqp", "records", "--spool", "a", "--only", "1"],
        &["amqp", "records", "a", "--consumer", "b"],
        &["amqp", "records", "a", "--follow"],
        &["amqp", "records", "--spool", "a", "--acks"],
        &["amqp", "records", "--spool", "a", "--poll", "5"],
        &["amqp", "records", "--spool", "a", "--follow", "--poll", "0"],
        &[
            "amqp", "records", "--spool", "a", "--follow", "--poll", "60001",
        ],
        &[
            "amqp",
            "records",
            "--spool",
            "a",
            "--consumer",
            "b",
            "--after",
            "1",
        ],
        &["amqp", "records", "--spool", "a", "--after", "1", "--acks"],
        &["amqp", "spool"],
        &["amqp", "spool", "check"],
        &["amqp", "spool", "add", "a"],
        &["amqp", "spool", "remove", "a"],
        &["amqp", "spool", "ack", "a", "b"],
        &["amqp", "spool", "ack", "a", "b", "-1"],
        &["amqp", "spool", "ack", "a", "b", "x"],
        &["amqp", "dump"],
        &["amqp", "dump", "a", "b"],
        &["amqp", "replay"],
        &["amqp", "send", "a"],
        &["amqp", "recv"],
        &["amqp", "recv", "--listen", "a:1", "--allowed", "0"],
        &["amqp", "recv", "--listen", "a:1", "--connections", "1001"],
        &["amqp", "recv", "--listen", "a:1", "--max-frame", "x"],
        &["amqp", "gateway", "--listen", "a:1", "--sessions", "0"],
        &["amqp", "gateway", "--listen", "a:1", "--sessions", "9"],
        &["amqp", "gateway", "--listen", "a:1", "--links", "0"],
        &["amqp", "gateway", "--listen", "a:1", "--links", "65"],
        &["amqp", "gateway", "--listen", "a:1", "--links", "x"],
        &["amqp", "gateway", "--listen", "a:1", "--spool", "a"],
        &["amqp", "gateway", "--listen", "a:1", "--bytes", "1"],
        &["amqp", "gateway", "--listen", "a:1", "--addresses"],
        &["amqp", "recv", "--listen", "a:1", "--addresses", "a"],
    ];
    for words in lines {
        let host = host_of(alloc, words, None);
        assert!(rt; run(&host) == ExitCode::from(2), "{words:?}");
        assert_eq!(rt; host.out.into_inner().as_str(), "");
    }
}

/// A name that no consumer may have is refused with what one may be.
#[test]
fn tells_what_the_name_of_a_consumer_is(rt: HostRuntime) -> Result<(), Fail> {
    let long = "a1-_a1-_a1-_a1-_a1-_a1-_a1-_a1-_a1-_a1-_a1-_a1-_a1-_a1-_a1-_a1-_a";
    for name in ["", "A", "a.b", "_a", "-a", "\u{e4}", long] {
        assert_no_name(&rt, &["amqp", "spool", "add", "d", "--", name], name)?;
        assert_no_name(&rt, &["amqp", "spool", "remove", "d", "--", name], name)?;
        assert_no_name(&rt, &["amqp", "spool", "ack", "d", "--", name, "1"], name)?;
        let option = format!(in rt.alloc(); "--consumer={name}")?;
        assert_no_name(
            &rt,
            &["amqp", "records", "--spool", "d", option.as_str()],
            name,
        )?;
    }
    Ok(())
}

/// Asserts that a command line is refused since no consumer may have this name.
fn assert_no_name<R>(rt: &R, words: &[&str], name: &str) -> Result<(), Fail>
where
    R: Abort + AllocGlobal,
{
    let told = format!(in rt.alloc();
        "error: '{name}' is no name of a consumer: 1 to 64 of a-z, 0-9, - and _, the first a letter or a digit\n"
    )?;
    let host = host_of(rt.alloc(), words, None);
    assert_ends(rt, host, ExitCode::from(2), "", told.as_str());
    Ok(())
}

/// An option that is gone is refused with what is there in its place.
#[test]
fn tells_what_stands_for_an_option_that_is_gone(rt: HostRuntime) {
    let gateway = ["amqp", "gateway", "--listen", "a:1"];
    let [amqp, name, listen, address] = gateway;
    let file = [amqp, name, listen, address, "--records", "b"];
    let sync = [amqp, name, listen, address, "--sync"];
    for (words, err) in [
        (
            file.as_slice(),
            "error: --records is gone: use --spool DIR --bytes D\n",
        ),
        (
            sync.as_slice(),
            "error: --sync is gone: use --spool DIR --bytes D\n",
        ),
    ] {
        let host = host_of(rt.alloc(), words, None);
        assert_ends(&rt, host, ExitCode::from(2), "", err);
    }
}

/// The words of `recv` with a trace in a file.
const TRACED: [&str; 6] = [
    "amqp",
    "recv",
    "--listen",
    "127.0.0.1:5672",
    "--trace",
    "a.amqp",
];

/// What stands on standard error where that file takes nothing.
const LOST: &str = "trace: Write, nothing more is told there\nconnection 1: Closed\n";

/// Where the file can't be opened no peer is accepted; if it takes nothing the peer is served all the same.
#[test]
fn goes_on_where_a_trace_is_lost(rt: HostRuntime) -> Result<(), Fail> {
    for (file, status, told, records) in [
        (None, ExitCode::FAILURE, "fault: Open\n", 0),
        (whole(b""), ExitCode::SUCCESS, LOST, RECORDS.len()),
    ] {
        let (listener, address) = listening(&rt)?;
        let peer = connected(&rt, address, STREAM)?;
        let mut host = host_of(rt.alloc(), &TRACED, file);
        host.listener = Some(&listener);
        assert!(rt; run(&host) == status);
        let (out, err) = (host.out.into_inner(), host.err.into_inner());
        assert_eq!(rt; (out.len(), err.as_str()), (records, told));
        drop(peer);
    }
    Ok(())
}

/// The lines of a trace and of events on standard error, after the peer's address.
const TOLD: &str = "\n1 0ms <- header id=0 version=1.0.0\n";

const EVENTS: &str =
    "\n1 0ms the peer is \"a\"\n1 0ms session 0 began\n1 0ms link \"l\" began in session 0\n1 0ms message id=0 length=1 on link \"l\": accepted\n1 0ms message id=1 length=1 on link \"l\": accepted\n1 0ms the connection was closed by the peer\nconnection 1: Closed\n";

#[test]
fn tells_on_standard_error(rt: HostRuntime) -> Result<(), Fail> {
    for (word, first, last) in [
        (
            "--trace",
            TOLD,
            "\n1 0ms -- end Closed\nconnection 1: Closed\n",
        ),
        ("--events", EVENTS, EVENTS),
    ] {
        let (listener, address) = listening(&rt)?;
        let peer = connected(&rt, address, STREAM)?;
        let words = ["amqp", "recv", "--listen", "127.0.0.1:5672", word, "-"];
        let mut host = host_of(rt.alloc(), &words, None);
        host.listener = Some(&listener);
        assert!(rt; run(&host) == ExitCode::SUCCESS);
        let err = host.err.into_inner();
        assert!(rt; err.contains(" connection from 127.0.0.1:"));
        assert!(rt; err.contains(first) && err.ends_with(last));
        drop(peer);
    }
    Ok(())
}

/// A block of the connection 7 with the record of `hello`, as long as its head says.
const BLOCK: &[u8] =
    b"\x00\x00\x00\x00\x00\x00\x00\x07\x00\x00\x00\x1c\x00\x01\x00\x00\x00\x02\x00\x00\x00\x03\x00\x00\x00\x00\x00\x00\x00\x0a\x00Su\xa0\x05hello";

#[test]
fn prints_blocks(rt: HostRuntime) {
    let words = ["amqp", "records", "--blocks", "a.amqp"];
    let line = "connection=7 1 channel=1 handle=2 id=3 format=0 size=10 data \"hello\"\n";
    let host = host_of(rt.alloc(), &words, whole(BLOCK));
    assert_ends(&rt, host, ExitCode::SUCCESS, line, "");
    let host = host_of(rt.alloc(), &words, whole(&BLOCK[..39]));
    assert_ends(&rt, host, ExitCode::FAILURE, "", "fault: 0 Cut\n");
}

/// A free port of this machine.
fn free_port(rt: &HostRuntime) -> io::Result<SocketAddr> {
    let (_, address) = listening(rt)?;
    Ok(address)
}

/// Whether a text has this line.
pub fn has_line(text: &str, line: &str) -> bool {
    text.split('\n').any(|other| other == line)
}

/// What the program left: how it ended, and what it printed and told.
#[derive(Drop)]
pub struct Left {
    pub status: ExitCode,
    printed: String,
    pub told: String,
}

/// Returns a copy of what a stream took.
fn taken(alloc: Global, stream: &RefCell<String>) -> io::Result<String> {
    match stream.try_borrow() {
        Ok(text) => Ok(String::from_str(alloc, text.as_str())?),
        Err(_) => Err(io::Error::from(ErrorKind::Other)),
    }
}

/// Runs the program on this host.
fn ran(host: &Host<'_>) -> io::Result<Left> {
    let status = run(host);
    let printed = host.printed(host.alloc)?;
    let told = host.told(host.alloc)?;
    Ok(Left {
        status,
        printed,
        told,
    })
}

/// Runs a gateway with two words more, to which one peer comes that sends a stream, on a disk whose one file has these bytes.
fn gateway_heard(
    rt: &HostRuntime,
    more: [&str; 2],
    stream: &[u8],
    disk: &Disk,
    bytes: &[u8],
) -> io::Result<Left> {
    let address = free_port(rt)?;
    let at = format!(in rt.alloc(); "{address}")?;
    let words = [
        "amqp",
        "gateway",
        "--listen",
        at.as_str(),
        "--connections",
        "1",
        more[0],
        more[1],
    ];
    ran_with(rt, &words, address, stream, kept(disk, bytes))
}

/// Runs the program with these words on this file, to which one peer comes that sends a stream.
fn ran_with<'a>(
    rt: &'a HostRuntime,
    words: &'a [&'a str],
    address: SocketAddr,
    stream: &'a [u8],
    file: Option<Bytes<'a>>,
) -> io::Result<Left> {
    let host = host_called(rt, words, file, address, stream);
    ran(&host)
}

/// Runs a gateway with a spool of these sizes, to which the peer comes that sends [`STREAM`].
fn gateway_spooled(rt: &HostRuntime, sizes: [&str; 2], disk: &Disk) -> io::Result<Left> {
    let address = free_port(rt)?;
    let at = format!(in rt.alloc(); "{address}")?;
    let words = [
        "amqp",
        "gateway",
        "--listen",
        at.as_str(),
        "--spool",
        "d",
        sizes[0],
        sizes[1],
    ];
    ran_with(rt, &words, address, STREAM, kept(disk, b""))
}

/// Runs a gateway with two words more, to which the peer comes that sends [`STREAM`].
fn gateway_ran(rt: &HostRuntime, more: [&str; 2], disk: &Disk, bytes: &[u8]) -> io::Result<Left> {
    gateway_heard(rt, more, STREAM, disk, bytes)
}

/// Runs a gateway with two words more, to which a peer comes that sends a stream.
pub fn gateway_served(rt: &HostRuntime, more: [&str; 2], stream: &[u8]) -> io::Result<Left> {
    let disk = Disk::new(rt.alloc());
    gateway_heard(rt, more, stream, &disk, b"")
}

/// Runs a gateway with two words more, to which a peer comes that sends a stream. Its one file is `a.amqp`, with these bytes.
pub fn gateway_served_by(
    rt: &HostRuntime,
    more: [&str; 2],
    stream: &[u8],
    bytes: &[u8],
) -> io::Result<Left> {
    let disk = Disk::new(rt.alloc());
    gateway_heard(rt, more, stream, &disk, bytes)
}

/// A file of addresses that can't be used is named before anything is listened to.
#[test]
fn names_the_line_of_a_bad_address(rt: HostRuntime) {
    let words: [&str; 6] = [
        "amqp",
        "gateway",
        "--listen",
        "127.0.0.1:5672",
        "--addresses",
        "a.amqp",
    ];
    for (file, told) in [
        (
            whole(b"orders 4\n# orders\n\norders 5\n"),
            "fault: a.amqp: line 4: Twice\n",
        ),
        (whole(b"orders 0"), "fault: a.amqp: line 1: BadCredit\n"),
        (whole(b"a b\x5cx20\n"), "fault: a.amqp: line 1: BadCredit\n"),
        (whole(b"a\x5c\n"), "fault: a.amqp: line 1: BadEscape\n"),
        (whole(b"a\t4\n"), "fault: a.amqp: line 1: BadCharacter\n"),
        (
            whole(b"# \xff\na\xff 4\n"),
            "fault: a.amqp: line 2: NotText\n",
        ),
        (whole(b" orders 4\n"), "fault: a.amqp: line 1: NoAddress\n"),
        (whole(&LONG_LINE), "fault: a.amqp: line 1: TooLong\n"),
        (broken(b"orders 4\n"), "fault: a.amqp: Read\n"),
        (None, "fault: a.amqp: Open\n"),
    ] {
        let host = host_of(rt.alloc(), &words, file);
        assert_ends(&rt, host, ExitCode::FAILURE, "", told);
    }
}

/// A line of 4097 bytes.
const LONG_LINE: [u8; 4097] = [b'a'; 4097];

/// The bound that is told is that of the largest link that a table of limits allows.
#[test]
fn a_gateway_tells_the_bound_of_its_limits(rt: HostRuntime) -> Result<(), Fail> {
    let disk = Disk::new(rt.alloc());
    let limits = b"telemetry/ 64 4096\nfirmware/ 1 268435456\n";
    let left = gateway_ran(&rt, ["--limits", "a.amqp"], &disk, limits)?;
    assert!(rt; left.status == ExitCode::SUCCESS);
    // 16384 + 78528 + 16 * (1407 + 268435456 + 96) for a peer, and 250 peers
    let line = "a peer holds at most 4295086256 bytes, and all together 1078066912430";
    assert!(rt; has_line(&left.told, line));
    Ok(())
}

/// The block of a gateway's first peer, if that sends the stream.
const SERVED: &[u8] =
    b"\x00\x00\x00\x00\x00\x00\x00\x01\x00\x00\x00\x26\x00\x00\x00\x00\x00\x00\x00\x00\x00\x00\x00\x00\x00\x00\x00\x00\x00\x01\x78\x00\x00\x00\x00\x00\x00\x00\x00\x00\x01\x00\x00\x00\x00\x00\x00\x00\x01\x78";

/// A spool that can't be had is a fault that says what would do, and nothing is served.
#[test]
fn a_gateway_says_what_its_spool_needs(rt: HostRuntime) -> Result<(), Fail> {
    for (bytes, segment, line) in [
        // 3 * 67108864 + 32000 * (32768 + 1923 + 112) + 1048576 + 112 + 32768 + 65536
        (
            "--bytes=1316169583",
            "--segment=67108864",
            "fault: d: Bound: --bytes 1316169584 would do",
        ),
        (
            "--bytes=2000000000",
            "--segment=1048687",
            "fault: d: Bound: --segment 1048688 would do",
        ),
        (
            "--bytes=1316169584",
            "--segment=67108864",
            "fault: d: Random",
        ),
    ] {
        let disk = Disk::new(rt.alloc());
        let left = gateway_spooled(&rt, [bytes, segment], &disk)?;
        assert!(rt;
            left.status == ExitCode::FAILURE && has_line(&left.told, line),
            "{line}"
        );
    }
    Ok(())
}

/// Passes lines up to this one, and returns whether it came.
fn pass_to(lines: &mut Split<'_, char>, line: &str) -> bool {
    lines.any(|other| other == line)
}

/// Asserts that a gateway told these lines of a peer that sent the stream, in this order.
fn assert_served(rt: &impl Abort, told: &str) {
    let mut lines = told.split('\n');
    for line in [
        "a peer holds at most 4324016 bytes, and all together 1085590190",
        "connection 1: opened by \"a\"",
        "1 0ms <- header id=0 version=1.0.0",
        "1 0ms -> header id=0 version=1.0.0",
        "1 0ms the peer is \"a\"",
        "1 0ms session 0 began",
        "1 0ms link \"l\" began in session 0",
        "1 0ms message id=0 length=1 on link \"l\": accepted",
        "1 0ms message id=1 length=1 on link \"l\": accepted",
        "1 0ms the connection was closed by the peer",
        "1 0ms -- end Closed",
        "connection 1: Closed",
    ] {
        assert!(rt; pass_to(&mut lines, line), "{line}");
    }
}

/// What is told of the peer of a gateway, but for its address, and the block of its records.
#[test]
fn a_gateway_serves_a_peer_and_tells_of_it(rt: HostRuntime) -> Result<(), Fail> {
    let disk = Disk::new(rt.alloc());
    let left = gateway_ran(&rt, ["--trace=-", "--events=-"], &disk, b"")?;
    assert!(rt; left.status == ExitCode::SUCCESS);
    assert_eq!(rt; left.printed.as_bytes(), SERVED);
    assert_served(&rt, &left.told);
    Ok(())
}

/// Whether a line is one of Prometheus' text format: a help, a type, or a name, its labels if any, and a number.
fn is_metric(line: &str) -> bool {
    if let Some(rest) = line.strip_prefix("# HELP amqp_gateway_") {
        return rest.contains(' ');
    }
    if let Some(rest) = line.strip_prefix("# TYPE amqp_gateway_") {
        return rest.ends_with(" counter") || rest.ends_with(" gauge");
    }
    match line.split_once(' ') {
        Some((name, number)) => name.starts_with("amqp_gateway_") && number.parse::<u64>().is_ok(),
        None => false,
    }
}

/// The number of a metric, if it is there.
fn metric(text: &str, name: &str) -> Option<u64> {
    for line in text.lines() {
        if let Some(rest) = line.strip_prefix("amqp_gateway_") {
            if let Some((other, number)) = rest.split_once(' ') {
                if other == name {
                    return number.parse::<u64>().ok();
                }
            }
        }
    }
    None
}

/// Asserts that a text is one of metrics, and what it has of a peer that sends the stream.
fn assert_counted(rt: &impl Abort, text: &str) {
    for line in text.lines() {
        assert!(rt; is_metric(line), "{line}");
    }
    for (name, value) in [
        ("peers_open", 0),
        ("connections_accepted_total", 1),
        ("connections_ended_total{cause=\"Closed\"}", 1),
        ("connections_ended_total{cause=\"Failed\"}", 0),
        ("messages_total", 2),
        ("message_bytes_total", 2),
        ("held_bytes", 0),
        ("held_bytes_bound", 1_085_590_190),
        ("longest_turn_milliseconds", 0),
    ] {
        assert_eq!(rt; metric(text, name), Some(value), "{name}");
    }
}

/// Asserts what the file of metrics on a disk has of a peer that sends the stream.
fn assert_metrics(rt: &impl Abort, disk: &Disk) -> io::Result<()> {
    match disk.metrics.try_borrow() {
        Ok(metrics) => {
            assert_counted(rt, std::str::from_utf8(&metrics).unwrap_or(""));
            Ok(())
        }
        Err(_) => Err(io::Error::from(ErrorKind::Other)),
    }
}

/// What a gateway counts of a peer that sends two messages of one byte and closes is in its file of metrics, in lines of
/// Prometheus' text format.
#[test]
fn a_gateway_counts_in_a_file(rt: HostRuntime) -> Result<(), Fail> {
    let disk = Disk::new(rt.alloc());
    let left = gateway_ran(&rt, ["--metrics", "m.prom"], &disk, b"")?;
    assert!(rt; left.status == ExitCode::SUCCESS);
    assert_metrics(&rt, &disk)?;
    Ok(())
}
