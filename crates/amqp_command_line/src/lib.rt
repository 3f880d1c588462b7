//! The command line of the program `amqp`.
//!
//! Begin reading at [`Order`], which is what a command line asks for; [`command_line`] says what may stand on it. The tests are in
//! `test_amqp`.
#![tactic(auto)]

use amqp_records::Output;
use amqp_spool::ConsumerName;
use clap::{Arg, ArgAction, ArgMatches, Command, value_parser};
use std::alloc::{AllocError, Global};

/// The version that `amqp --version` prints.
const VERSION: &str = "0.1.0";

/// What a command line asks for.
#[derive(Clone, Copy, Debug, PartialEq, Eq)]
pub enum Order<'a> {
    /// To print the frames of this file, or of standard input if it is `-`.
    Dump {
        file: &'a str,
    },
    /// To run the calls of this script.
    Replay {
        script: &'a str,
    },
    /// To serve connections at this address.
    Recv {
        address: &'a str,
        settings: RecvSettings,
        /// The file of the limits for links, if there is one.
        limits: Option<&'a str>,
        told: ToldTo<'a>,
    },
    /// To serve many peers at a time at this address.
    Gateway {
        address: &'a str,
        settings: GatewaySettings,
        files: GatewayFiles<'a>,
    },
    /// To print the records of this file, or of standard input if it is `-`.
    Records {
        file: &'a str,
        output: Output,
        max_message: u32,
        /// Whether the records are in blocks.
        blocks: bool,
    },
    /// To do this with the spool in this directory.
    Spool {
        dir: &'a str,
        task: SpoolTask<'a>,
    },
    /// Nothing: this option is no longer there.
    Gone {
        option: &'static str,
    },
    /// Nothing: no consumer may have this name.
    NoName {
        name: &'a str,
    },
    /// To send this file as one message to the listener at this address.
    Send {
        address: &'a str,
        file: &'a str,
    },
}

/// What is done with a spool.
#[derive(Clone, Copy, Debug, PartialEq, Eq)]
pub enum SpoolTask<'a> {
    /// To print its records.
    Print {
        begin: Begin,
        /// Those alone whose target has this address, if there is one.
        address: Option<&'a str>,
        /// Whether they are printed as JSON.
        json: bool,
        /// How often it is looked for more, in milliseconds, if it is.
        poll: Option<u32>,
    },
    /// To list its segments.
    List,
    /// To read all of it, and to say what is damaged.
    Check,
    /// To do this with a consumer of it.
    Consumer {
        name: ConsumerName,
        task: ConsumerTask,
    },
}

/// What is done with a consumer of a spool.
#[derive(Clone, Copy, Debug, PartialEq, Eq)]
pub enum ConsumerTask {
    /// To add it.
    Add,
    /// To remove it.
    Remove,
    /// To acknowledge for it the records up to this number.
    Acknowledge(u64),
}

/// Where the records of a spool begin that are printed.
#[derive(Clone, Copy, Debug, PartialEq, Eq)]
pub enum Begin {
    /// After this number; without one at the first that is not gone.
    After(Option<u64>),
    /// After the position of this consumer.
    Consumer {
        name: ConsumerName,
        /// Whether standard input has what it acknowledges.
        acks: bool,
    },
}

/// The files to which lines about what is served go, if there are any; `-` is standard error.
#[derive(Clone, Copy, Debug, PartialEq, Eq)]
pub struct ToldTo<'a> {
    /// Lines about frames, and what they resulted in.
    pub trace: Option<&'a str>,
    /// Lines about sessions, links and messages alone.
    pub events: Option<&'a str>,
}

/// How many connections are served, and with which settings.
#[derive(Clone, Copy, Debug, PartialEq, Eq)]
pub struct RecvSettings {
    pub connections: u32,
    /// In seconds; 0 means without end.
    pub idle: u32,
    pub max_frame: u32,
    pub allowed: u32,
    pub max_message: u32,
    pub window: u32,
}

/// How many peers are served at a time, and with which settings. Times are in seconds.
#[derive(Clone, Copy, Debug, PartialEq, Eq)]
pub struct GatewaySettings {
    pub open: u32,
    /// 0 means without end.
    pub connections: u32,
    pub idle: u32,
    pub slow: u32,
    pub grace: u32,
    pub every: u32,
    pub until_eof: bool,
    /// How many sessions a peer may have at a time, and how many links each.
    pub sessions: u32,
    pub links: u32,
    pub max_frame: u32,
    pub allowed: u32,
    pub max_message: u32,
    pub window: u32,
}

/// The files of a gateway, if there are any.
#[derive(Clone, Copy, Debug, PartialEq, Eq)]
pub struct GatewayFiles<'a> {
    /// Where records go in place of standard output.
    pub spool: Option<SpoolOrder<'a>>,
    /// The limits for links.
    pub limits: Option<&'a str>,
    /// The addresses that links may have. Without it each link is admitted.
    pub addresses: Option<&'a str>,
    /// Where the counts go.
    pub metrics: Option<&'a str>,
    pub told: ToldTo<'a>,
}

/// The spool of a gateway.
#[derive(Clone, Copy, Debug, PartialEq, Eq)]
pub struct SpoolOrder<'a> {
    pub dir: &'a str,
    /// The bytes of all its files, at most.
    pub bytes: u64,
    /// Where a segment ends, in bytes.
    pub segment: u64,
    /// How many bytes are kept free for credit that was given. Without it as many as all credit may bring.
    pub reserve: Option<u64>,
}

/// Where a segment ends if the command line doesn't say it.
const SEGMENT: u64 = 67_108_864;

/// How often it is looked for more records if the command line doesn't say it, in milliseconds.
const POLL: u32 = 100;

/// Makes an option that takes a number between these two.
fn number<'a>(alloc: Global, name: &'a str, least: i64, most: i64, default: &'a str) -> Arg<'a> {
    Arg::new(alloc, name)
        .long(name)
        .value_name("N")
        .value_parser(value_parser!(u32).range(least..=most))
        .default_value(default)
}

// Each function below makes one option after the other and adds it at once: one that holds several at each `?` takes a minute to
// prove.

/// Makes the command that serves connections.
fn recv_line<'a>(alloc: Global) -> Result<Command<'a>, AllocError> {
    let recv = Command::new(alloc, "recv").about(
        "Serves connections, and writes the records of their messages",
    );
    let recv = recv.arg(listen_at(alloc))?;
    let recv = recv.arg(number(alloc, "connections", 1, 1000, "1").help(
        "How many connections are served, one after the other",
    ))?;
    let recv = recv.arg(number(alloc, "idle", 0, 86400, "0").help(
        "A peer that says nothing, or takes nothing, for so many seconds is dropped; 0 is never",
    ))?;
    with_told(
        alloc,
        with_bounds(alloc, recv, ["65536", "16", "1048576", "2048"])?,
    )
}

/// Makes the option that names where to listen.
fn listen_at<'a>(alloc: Global) -> Arg<'a> {
    Arg::new(alloc, "ADDR")
        .long("listen")
        .required(true)
        .help("Where to listen: HOST:PORT")
}

/// Makes an option that names a file.
fn file<'a>(alloc: Global, name: &'a str) -> Arg<'a> {
    Arg::new(alloc, name).long(name).value_name("FILE")
}

/// Makes an option that takes no value.
fn flag<'a>(alloc: Global, name: &'a str) -> Arg<'a> {
    Arg::new(alloc, name).long(name).action(ArgAction::SetTrue)
}

/// Adds the files to which lines about what is served go.
fn with_told<'a>(alloc: Global, line: Command<'a>) -> Result<Command<'a>, AllocError> {
    let line = line.arg(file(alloc, "trace").help(
        "Tells each frame, what it came to, and how connections end; - is standard error",
    ))?;
    line.arg(file(alloc, "events").help(
        "Tells sessions, links and messages, without frames; - is standard error",
    ))
}

/// Adds the limits of what its peers may send, with these defaults in their order.
fn with_bounds<'a>(
    alloc: Global,
    line: Command<'a>,
    defaults: [&'a str; 4],
) -> Result<Command<'a>, AllocError> {
    let [max_frame, allowed, max_message, window] = defaults;
    let line = line.arg(number(alloc, "max-frame", 512, 1048576, max_frame).help(
        "The longest frame that is accepted, in bytes",
    ))?;
    let line = line.arg(number(alloc, "allowed", 1, 1024, allowed).help(
        "The deliveries that a link may have open, and its credit",
    ))?;
    let line = line.arg(number(alloc, "max-message", 1, 1073741824, max_message).help(
        "The longest message, in bytes",
    ))?;
    let line = line.arg(number(alloc, "window", 0, 2147483647, window).help(
        "The places of a session's window at its begin",
    ))?;
    line.arg(file(alloc, "limits").help(
        "Other limits for links by how their names begin: PREFIX ALLOWED MAX_MESSAGE on each line",
    ))
}

/// Makes the command that serves many peers at a time.
fn gateway_line<'a>(alloc: Global) -> Result<Command<'a>, AllocError> {
    let gateway = Command::new(alloc, "gateway").about(
        "Serves many peers at a time, and writes blocks of the records of their messages",
    );
    let gateway = gateway.arg(listen_at(alloc))?;
    let gateway = gateway.arg(number(alloc, "open", 1, 65536, "250").help(
        "How many peers are served at a time; by default each holds at most 4.3 MB, and all 1.08 GB",
    ))?;
    let gateway = gateway.arg(number(alloc, "connections", 0, 4294967295, "0").help(
        "How many are served before it ends; 0 is without end",
    ))?;
    let gateway = gateway.arg(flag(alloc, "until-eof").help(
        "Ends it at the end of standard input",
    ))?;
    let gateway = with_files(alloc, with_times(alloc, gateway)?)?;
    let gateway = with_places(alloc, with_spool(alloc, gateway)?)?;
    with_told(
        alloc,
        with_bounds(alloc, gateway, ["16384", "8", "32768", "256"])?,
    )
}

/// Adds how many sessions and links a peer may have.
fn with_places<'a>(alloc: Global, gateway: Command<'a>) -> Result<Command<'a>, AllocError> {
    let gateway = gateway.arg(number(alloc, "sessions", 1, 8, "2").help(
        "How many sessions a peer may have at a time",
    ))?;
    gateway.arg(number(alloc, "links", 1, 64, "8").help(
        "How many links a session may have at a time",
    ))
}

/// Adds the time-outs.
fn with_times<'a>(alloc: Global, gateway: Command<'a>) -> Result<Command<'a>, AllocError> {
    let gateway = gateway.arg(number(alloc, "idle", 1, 86400, "60").help(
        "A peer that says nothing for so many seconds is closed",
    ))?;
    let gateway = gateway.arg(number(alloc, "slow", 1, 86400, "10").help(
        "A peer that takes none of its answers for so many seconds is dropped",
    ))?;
    let gateway = gateway.arg(number(alloc, "grace", 0, 86400, "5").help(
        "For how many seconds what waits may still go out at the end",
    ))?;
    gateway.arg(number(alloc, "every", 1, 86400, "10").help(
        "How often the file of metrics is written, in seconds",
    ))
}

/// Adds the files.
fn with_files<'a>(alloc: Global, gateway: Command<'a>) -> Result<Command<'a>, AllocError> {
    let gateway = gateway.arg(file(alloc, "records").hide(true))?;
    let gateway = gateway.arg(flag(alloc, "sync").hide(true))?;
    let gateway = gateway.arg(file(alloc, "addresses").help(
        "Admits links to these addresses alone: ADDRESS CREDIT or PREFIX* CREDIT on each line",
    ))?;
    gateway.arg(file(alloc, "metrics").help(
        "Writes what it counts, in the text format of Prometheus",
    ))
}

/// Adds the spool.
fn with_spool<'a>(alloc: Global, gateway: Command<'a>) -> Result<Command<'a>, AllocError> {
    let spool = dir(alloc, "spool").requires_arg("bytes")?;
    let gateway = gateway.arg(spool.help(
        "Keeps the records in a spool in this directory, and not on standard output",
    ))?;
    let gateway = gateway.arg(of_spool(alloc, "bytes", "BYTES")?.help(
        "All files of the spool have at most so many",
    ))?;
    let gateway = gateway.arg(of_spool(alloc, "segment", "BYTES")?.help(
        "Where a segment of the spool ends [default: 67108864]",
    ))?;
    gateway.arg(of_spool(alloc, "reserve", "BYTES")?.help(
        "How many are kept free for credit that was given; by default as many as all credit may bring",
    ))
}

/// Makes an option that names a directory.
fn dir<'a>(alloc: Global, name: &'a str) -> Arg<'a> {
    Arg::new(alloc, name).long(name).value_name("DIR")
}

/// Makes an option that takes a number, which this word stands for, and needs `--spool`.
fn of_spool<'a>(alloc: Global, name: &'a str, word: &'a str) -> Result<Arg<'a>, AllocError> {
    Arg::new(alloc, name)
        .long(name)
        .value_name(word)
        .value_parser(value_parser!(u64))
        .requires_arg("spool")
}

/// Returns the settings of a command line that was read as one of [`gateway_line`].
fn gateway_settings(gateway: &ArgMatches<'_>) -> Option<GatewaySettings> {
    Some(GatewaySettings {
        open: gateway.get_one("open")?,
        connections: gateway.get_one("connections")?,
        idle: gateway.get_one("idle")?,
        slow: gateway.get_one("slow")?,
        grace: gateway.get_one("grace")?,
        every: gateway.get_one("every")?,
        until_eof: gateway.get_flag("until-eof"),
        sessions: gateway.get_one("sessions")?,
        links: gateway.get_one("links")?,
        max_frame: gateway.get_one("max-frame")?,
        allowed: gateway.get_one("allowed")?,
        max_message: gateway.get_one("max-message")?,
        window: gateway.get_one("window")?,
    })
}

/// Returns the spool of a command line that was read as one of [`gateway_line`], if it has one.
fn spool_of<'a>(gateway: &ArgMatches<'a>) -> Option<SpoolOrder<'a>> {
    Some(SpoolOrder {
        dir: gateway.get_str("spool")?,
        bytes: gateway.get_one("bytes")?,
        segment: gateway.get_one("segment").unwrap_or(SEGMENT),
        reserve: gateway.get_one("reserve"),
    })
}

/// Returns the option of a command line that was read as one of [`gateway_line`], and that is no longer there, if it
/// has one.
fn gone_of(gateway: &ArgMatches<'_>) -> Option<&'static str> {
    if gateway.get_str("records").is_some() {
        Some("--records")
    } else if gateway.get_flag("sync") {
        Some("--sync")
    } else {
        None
    }
}

/// Returns what a command line that was read as one of [`gateway_line`] asks for.
fn gateway_order<'a>(gateway: &ArgMatches<'a>) -> Option<Order<'a>> {
    if let Some(option) = gone_of(gateway) {
        return Some(Order::Gone { option });
    }
    Some(Order::Gateway {
        address: gateway.get_str("ADDR")?,
        settings: gateway_settings(gateway)?,
        files: GatewayFiles {
            spool: spool_of(gateway),
            limits: gateway.get_str("limits"),
            addresses: gateway.get_str("addresses"),
            metrics: gateway.get_str("metrics"),
            told: told_to(gateway),
        },
    })
}

/// Returns the files of a command line that was read as one [`with_told`].
fn told_to<'a>(line: &ArgMatches<'a>) -> ToldTo<'a> {
    ToldTo {
        trace: line.get_str("trace"),
        events: line.get_str("events"),
    }
}

/// Returns the settings of a command line that was read as one of [`recv_line`].
fn recv_settings(recv: &ArgMatches<'_>) -> Option<RecvSettings> {
    Some(RecvSettings {
        connections: recv.get_one("connections")?,
        idle: recv.get_one("idle")?,
        max_frame: recv.get_one("max-frame")?,
        allowed: recv.get_one("allowed")?,
        max_message: recv.get_one("max-message")?,
        window: recv.get_one("window")?,
    })
}

/// Makes the command that prints records.
fn records_line<'a>(alloc: Global) -> Result<Command<'a>, AllocError> {
    let records = Command::new(alloc, "records").about(
        "Prints the records that recv or gateway wrote, as they come",
    );
    let records = records.arg(records_file(alloc)?)?;
    let records = records.arg(flag(alloc, "json").help("Prints one JSON object on a line"))?;
    let records = records.arg(only(alloc)?)?;
    let blocks = flag(alloc, "blocks").conflicts_with("spool")?;
    let records = records.arg(blocks.help("The records stand in blocks, as gateway writes them"))?;
    let most = number(alloc, "max-message", 1, 1073741824, "1073741824");
    let records = records.arg(
        most.conflicts_with("spool")?
            .help("The longest message, in bytes"),
    )?;
    with_spooled(alloc, records)
}

/// Makes the file of records, which is there unless a spool is.
fn records_file<'a>(alloc: Global) -> Result<Arg<'a>, AllocError> {
    let file = Arg::new(alloc, "FILE").required_unless_present("spool")?;
    let file = file.conflicts_with("spool")?;
    Ok(file.help("The records that recv or gateway wrote; - is standard input"))
}

/// Adds the spool whose records are printed.
fn with_spooled<'a>(alloc: Global, records: Command<'a>) -> Result<Command<'a>, AllocError> {
    let records = records.arg(dir(alloc, "spool").help(
        "Prints the records of the spool in this directory",
    ))?;
    let records = with_begin(alloc, records)?;
    let records = with_following(alloc, records)?;
    let address = Arg::new(alloc, "address").long("address").value_name("A");
    let address = address.requires_arg("spool")?.conflicts_with("FILE")?;
    records.arg(address.help("Prints only records of the spool whose target has this address"))
}

/// Adds where the records of a spool begin.
fn with_begin<'a>(alloc: Global, records: Command<'a>) -> Result<Command<'a>, AllocError> {
    let after = of_spool(alloc, "after", "N")?.conflicts_with("FILE")?;
    let records = records.arg(after.help(
        "Leaves out the records of the spool up to the number N",
    ))?;
    let consumer = Arg::new(alloc, "consumer")
        .long("consumer")
        .value_name("NAME");
    let consumer = consumer.requires_arg("spool")?.conflicts_with("FILE")?;
    let consumer = consumer.conflicts_with("after")?;
    let records = records.arg(consumer.help(
        "Leaves out what this consumer of the spool has acknowledged",
    ))?;
    let acks = flag(alloc, "acks").requires_arg("consumer")?;
    let acks = acks.conflicts_with("FILE")?.conflicts_with("after")?;
    records.arg(acks.help(
        "Acknowledges for the consumer up to the numbers that standard input has, one on each line",
    ))
}

/// Adds whether more records of a spool are waited for.
fn with_following<'a>(alloc: Global, records: Command<'a>) -> Result<Command<'a>, AllocError> {
    let follow = flag(alloc, "follow")
        .requires_arg("spool")?
        .conflicts_with("FILE")?;
    let records = records.arg(follow.help(
        "Waits for more records of the spool, and does not end",
    ))?;
    let poll = Arg::new(alloc, "poll").long("poll").value_name("MS");
    let poll = poll.value_parser(value_parser!(u32).range(1..=60000));
    let poll = poll.requires_arg("follow")?.conflicts_with("FILE")?;
    records.arg(poll.help("How often it looks for more, in milliseconds [default: 100]"))
}

/// Makes the command that tells of a spool.
fn spool_line<'a>(alloc: Global) -> Result<Command<'a>, AllocError> {
    let list = Command::new(alloc, "list")
        .about("Lists the segments")
        .arg(spool_dir(alloc))?;
    let check = Command::new(alloc, "check")
        .about("Reads all of it, and says what is damaged")
        .arg(spool_dir(alloc))?;
    let spool = Command::new(alloc, "spool")
        .about("Tells of the spool that gateway keeps in a directory")
        .subcommand_required(true)
        .arg_required_else_help(true)
        .subcommand(list)?
        .subcommand(check)?;
    with_consumers(alloc, spool)
}

/// Adds the commands on the consumers of a spool.
fn with_consumers<'a>(alloc: Global, spool: Command<'a>) -> Result<Command<'a>, AllocError> {
    let add = Command::new(alloc, "add").about(
        "Adds a consumer, whose records stay until it acknowledges them",
    );
    let spool = spool.subcommand(of_consumer(alloc, add)?)?;
    let remove = Command::new(alloc, "remove").about("Removes a consumer");
    let spool = spool.subcommand(of_consumer(alloc, remove)?)?;
    let ack = Command::new(alloc, "ack").about("Acknowledges records for a consumer");
    let number = Arg::new(alloc, "N")
        .required(true)
        .value_parser(value_parser!(u64));
    let number = number.help("The number up to which they are acknowledged");
    spool.subcommand(of_consumer(alloc, ack)?.arg(number)?)
}

/// Adds the directory of a spool, and the name of a consumer.
fn of_consumer<'a>(alloc: Global, line: Command<'a>) -> Result<Command<'a>, AllocError> {
    let line = line.arg(spool_dir(alloc))?;
    let name = Arg::new(alloc, "NAME").required(true);
    line.arg(name.help("The name of the consumer"))
}

/// Makes the directory of a spool.
fn spool_dir<'a>(alloc: Global) -> Arg<'a> {
    Arg::new(alloc, "DIR")
        .required(true)
        .help("The directory of the spool")
}

/// Returns what a command line that was read as one of [`spool_line`] asks for.
fn spool_order<'a>(spool: &ArgMatches<'a>) -> Option<Order<'a>> {
    if let Some(list) = spool.subcommand_matches("list") {
        let task = SpoolTask::List;
        return Some(Order::Spool {
            dir: list.get_str("DIR")?,
            task,
        });
    }
    if let Some(check) = spool.subcommand_matches("check") {
        let task = SpoolTask::Check;
        return Some(Order::Spool {
            dir: check.get_str("DIR")?,
            task,
        });
    }
    consumer_order(spool)
}

/// Returns what a command line that was read as one of [`with_consumers`] asks for.
fn consumer_order<'a>(spool: &ArgMatches<'a>) -> Option<Order<'a>> {
    if let Some(add) = spool.subcommand_matches("add") {
        return order_on(add, ConsumerTask::Add);
    }
    if let Some(remove) = spool.subcommand_matches("remove") {
        return order_on(remove, ConsumerTask::Remove);
    }
    let ack = spool.subcommand_matches("ack")?;
    order_on(ack, ConsumerTask::Acknowledge(ack.get_one("N")?))
}

/// Returns the order to do something with the consumer that a command line names. It was read as [`of_consumer`].
fn order_on<'a>(line: &ArgMatches<'a>, task: ConsumerTask) -> Option<Order<'a>> {
    let dir = line.get_str("DIR")?;
    let name = line.get_str("NAME")?;
    Some(match ConsumerName::of(name) {
        Some(name) => {
            let task = SpoolTask::Consumer { name, task };
            Order::Spool { dir, task }
        }
        None => Order::NoName { name },
    })
}

/// Returns what a command line that was read as one of [`records_line`] asks for.
fn records_order<'a>(records: &ArgMatches<'a>) -> Option<Order<'a>> {
    if let Some(dir) = records.get_str("spool") {
        return Some(spool_records_order(records, dir));
    }
    Some(Order::Records {
        file: records.get_str("FILE")?,
        output: records_output(records),
        max_message: records.get_one("max-message")?,
        blocks: records.get_flag("blocks"),
    })
}

/// Returns what a command line asks for that names the spool in this directory. It was read as one of
/// [`records_line`].
fn spool_records_order<'a>(records: &ArgMatches<'a>, dir: &'a str) -> Order<'a> {
    let begin = match begin_of(records) {
        Ok(begin) => begin,
        Err(name) => return Order::NoName { name },
    };
    let task = SpoolTask::Print {
        begin,
        address: records.get_str("address"),
        json: records.get_flag("json"),
        poll: poll_of(records),
    };
    Order::Spool { dir, task }
}

/// Returns where the records begin, or a name that no consumer may have. The line was read as one of [`with_begin`].
fn begin_of<'a>(records: &ArgMatches<'a>) -> Result<Begin, &'a str> {
    let Some(name) = records.get_str("consumer") else {
        return Ok(Begin::After(records.get_one("after")));
    };
    let acks = records.get_flag("acks");
    match ConsumerName::of(name) {
        Some(name) => Ok(Begin::Consumer { name, acks }),
        None => Err(name),
    }
}

/// Returns how often it is looked for more, if it is. The line was read as one of [`with_following`].
fn poll_of(records: &ArgMatches<'_>) -> Option<u32> {
    if records.get_flag("follow") {
        Some(records.get_one("poll").unwrap_or(POLL))
    } else {
        None
    }
}

/// Makes the option that takes the number of one record.
fn only<'a>(alloc: Global) -> Result<Arg<'a>, AllocError> {
    let only = Arg::new(alloc, "only")
        .long("only")
        .value_name("N")
        .value_parser(value_parser!(u64).range(1..));
    let only = only.conflicts_with("json")?.conflicts_with("spool")?;
    Ok(only.help("Writes the bytes of the Nth message, and nothing else"))
}

/// Returns the output that a command line asks for. It was read as one of [`records_line`].
fn records_output(records: &ArgMatches<'_>) -> Output {
    match records.get_one("only") {
        Some(number) => Output::Only(number),
        None if records.get_flag("json") => Output::Json,
        None => Output::Text,
    }
}

/// Makes the command that runs a script.
fn replay_line<'a>(alloc: Global) -> Result<Command<'a>, AllocError> {
    let script = Arg::new(alloc, "SCRIPT")
        .required(true)
        .help("Calls, one on each line");
    Command::new(alloc, "replay")
        .about("Runs the calls of a script on a new endpoint, and prints the answers")
        .arg(script)
}

/// Makes the command that sends a file.
fn send_line<'a>(alloc: Global) -> Result<Command<'a>, AllocError> {
    let message = Arg::new(alloc, "FILE").required(true).help("The message");
    let address = Arg::new(alloc, "ADDR")
        .long("to")
        .required(true)
        .help("Where the receiver listens: HOST:PORT");
    Command::new(alloc, "send")
        .about("Sends a file as one message, and prints what became of it")
        .arg(address)?
        .arg(message)
}

/// Returns the command line that `amqp` takes, or `AllocError` if memory is refused.
pub fn command_line<'a>(alloc: Global) -> Result<Command<'a>, AllocError> {
    let file = Arg::new(alloc, "FILE").required(true).help(
        "The bytes of one direction of a connection; - is standard input",
    );
    let dump = Command::new(alloc, "dump")
        .about("Prints the frames of a file or of standard input, as they come")
        .arg(file)?;
    Command::new(alloc, "amqp")
        .version(VERSION)
        .about("Reads and speaks AMQP 1.0")
        .subcommand_required(true)
        .arg_required_else_help(true)
        .subcommand(dump)?
        .subcommand(replay_line(alloc)?)?
        .subcommand(recv_line(alloc)?)?
        .subcommand(gateway_line(alloc)?)?
        .subcommand(records_line(alloc)?)?
        .subcommand(spool_line(alloc)?)?
        .subcommand(send_line(alloc)?)
}

/// Returns what a command line asks for, or `None` if it names no command. It was read as one of
/// [`command_line`].
pub fn order_of<'a>(matches: &ArgMatches<'a>) -> Option<Order<'a>> {
    if let Some(send) = matches.subcommand_matches("send") {
        let address = send.get_str("ADDR")?;
        let file = send.get_str("FILE")?;
        return Some(Order::Send { address, file });
    }
    if let Some(recv) = matches.subcommand_matches("recv") {
        let address = recv.get_str("ADDR")?;
        let settings = recv_settings(recv)?;
        let limits = recv.get_str("limits");
        return Some(Order::Recv {
            address,
            settings,
            limits,
            told: told_to(recv),
        });
    }
    if let Some(gateway) = matches.subcommand_matches("gateway") {
        return gateway_order(gateway);
    }
    if let Some(records) = matches.subcommand_matches("records") {
        return records_order(records);
    }
    if let Some(spool) = matches.subcommand_matches("spool") {
        return spool_order(spool);
    }
    if let Some(replay) = matches.subcommand_matches("replay") {
        let script = replay.get_str("SCRIPT")?;
        return Some(Order::Replay { script });
    }
    let dump = matches.subcommand_matches("dump")?;
    let file = dump.get_str("FILE")?;
    Some(Order::Dump { file })
}
