//! The commands that serve connections, and the settings that they serve them by.

use crate::addresses::{Entrance, read_addresses};
use crate::faults::{Fault, USAGE};
use crate::gateway::{self, Plan};
use crate::spool::{self, Shelf};
use crate::told::{Desk, Told};
use crate::traces::Traces;
use amqp_command_line::{GatewayFiles, GatewaySettings, RecvSettings, SpoolOrder, ToldTo};
use amqp_endpoint::Config;
use amqp_frame::Device;
use amqp_gateway::{Outlet, Unsynced, outlet_most};
use amqp_perform::Outcome;
use amqp_receive::{BUFFER, recv_on};
use amqp_script::{ScriptFault, read_limits};
use amqp_serve::Policy;
use amqp_spool::Exclusive;
use amqp_spool_commands::refused;
use amqp_trace::Trace;
use std::alloc::{AllocError, Global};
use std::io::Read;
use std::net::{Net, TcpListener};
use std::process::ExitCode;
use std::random::RandomSource;
use std::rt::Files;
use std::time::{Clock, Duration};
use std::{fs, io};

/// The container-id of the receiver, and the highest channel and handle that it offers.
const RECEIVER: &str = "recv";

/// The container-id of a gateway.
const GATEWAY: &str = "gateway";

const CHANNEL_MAX: u32 = 7;

const HANDLE_MAX: u32 = 7;

/// Serves connections, with the records on standard output and how each was served on standard error.
pub fn recv<R: Print + Eprint + Files + Net + Clock + AllocGlobal>(
    rt: &R,
    address: &str,
    settings: RecvSettings,
    limits: Option<&str>,
    told: ToldTo<'_>,
) -> Result<ExitCode, Fault> {
    let alloc = rt.alloc();
    let policy = Policy {
        credit: settings.allowed,
        outcome: Outcome::Accepted,
    };
    let RecvSettings {
        connections,
        idle,
        ..
    } = settings;
    keep_freed(alloc, settings.max_message);
    let Some(config) = configured(alloc, settings)? else {
        return Ok(ExitCode::from(USAGE));
    };
    let config = match limits {
        Some(path) => limited(rt, config, path)?,
        None => config,
    };
    let trace = traced(rt, told, policy)?;
    let Ok(listener) = TcpListener::bind(rt, address) else {
        return Err(Fault::Open);
    };
    let Ok(output) = io::BufWriter::with_capacity(alloc, BUFFER, io::writer(rt)) else {
        return Err(Fault::NoMemory);
    };
    let mut sink = Device::new(output);
    let all_closed = recv_on(
        alloc,
        &listener,
        &config,
        policy,
        connections,
        seconds(idle),
        &mut sink,
        rt,
        trace.as_ref(),
    );
    let _ = sink.into_inner().into_parts(); // what standard output refused is not tried again
    Ok(if all_closed {
        ExitCode::SUCCESS
    } else {
        ExitCode::FAILURE
    })
}

/// Returns this many seconds, or `None` for 0.
fn seconds(count: u32) -> Option<Duration> {
    if count > 0 {
        Some(Duration::from_secs(u64::from(count)))
    } else {
        None
    }
}

/// Serves many peers at a time, with the records in a spool or in blocks on standard output. The spool is opened after
/// the listener is had, so that a second program at the same address touches nothing.
pub fn serve_many<R>(
    rt: &R,
    address: &str,
    settings: GatewaySettings,
    files: GatewayFiles<'_>,
) -> Result<ExitCode, Fault>
where
    R: Print + Eprint + Input + Files + Net + Clock + RandomSource + AllocGlobal,
    R::File: Exclusive,
{
    let alloc = rt.alloc();
    let Some(config) = gateway_config(alloc, settings)? else {
        return Ok(ExitCode::from(USAGE));
    };
    let (config, most) = match files.limits {
        Some(path) => gateway_limits(rt, config, path)?,
        None => {
            let most = Most::of(&config, "");
            (config, most)
        }
    };
    let known = match files.addresses {
        Some(path) => match read_addresses(rt, path, settings.allowed) {
            Ok(addresses) => Some(addresses),
            Err(fault) => return Ok(refused(rt, path, fault)),
        },
        None => None,
    };
    let entrance = Entrance::new(alloc, known)?;
    let Ok(listener) = gateway::listen(rt, address) else {
        return Err(Fault::Open);
    };
    let plan = Plan {
        listener,
        records: outlet_most(&config, most.link),
        config,
        settings,
        link: most.link,
        metrics: files.metrics,
        entrance,
    };
    match files.spool {
        None => {
            let outlet = Outlet::new(alloc, Unsynced(io::writer(rt)), false);
            serve_told(rt, plan, outlet, files.told)
        }
        Some(order) => serve_spooled(rt, plan, order, most.message, files.told),
    }
}

/// Serves many peers by a plan, with the records in a spool. Messages have at most so many bytes.
fn serve_spooled<R>(
    rt: &R,
    plan: Plan<'_>,
    order: SpoolOrder<'_>,
    message: u32,
    told: ToldTo<'_>,
) -> Result<ExitCode, Fault>
where
    R: Print + Eprint + Input + Files + Net + Clock + RandomSource + AllocGlobal,
    R::File: Exclusive,
{
    let links = most_links(&plan.settings);
    let messages = links.saturating_mul(plan.settings.allowed as u64);
    let sizes = match spool::sizes(&order, message, messages) {
        Ok(sizes) => sizes,
        Err(fault) => return Ok(refused(rt, order.dir, fault)),
    };
    let plan = Plan {
        records: spool::most_held(&sizes, links),
        ..plan
    };
    match spool::started(rt, rt.alloc(), order.dir, sizes) {
        Ok(keeper) => serve_told(rt, plan, keeper, told),
        Err(fault) => Ok(refused(rt, order.dir, fault)),
    }
}

/// Returns how many links all peers may have at a time.
fn most_links(settings: &GatewaySettings) -> u64 {
    (settings.open as u64)
        .saturating_mul(settings.sessions as u64)
        .saturating_mul(settings.links as u64)
}

/// Serves many peers by a plan, with the records to a keeper, and tells of them in these files.
fn serve_told<R, K>(rt: &R, plan: Plan<'_>, keeper: K, told: ToldTo<'_>) -> Result<ExitCode, Fault>
where
    R: Print + Eprint + Input + Files + Net + Clock + AllocGlobal,
    K: Shelf + Drop,
{
    let frames = opened(rt, told.trace)?;
    let events = opened(rt, told.events)?;
    let traces = Traces::new(rt.alloc(), Desk::new(rt), frames, events)?;
    match gateway::serve_to(rt, plan, keeper, traces) {
        Ok(()) => Ok(ExitCode::SUCCESS),
        Err(fault) => Err(Fault::Gateway(fault)),
    }
}

/// What links may have, in bytes.
#[derive(Clone, Copy)]
struct Most {
    /// What one keeps.
    link: u64,
    /// The longest message.
    message: u32,
}

impl Most {
    /// Returns what links have at most by these settings, which have this table of limits.
    fn of(config: &Config, table: &str) -> Most {
        Most {
            link: gateway::most_of_links(config, table),
            message: spool::longest_message(config, table),
        }
    }
}

/// Returns the settings with the limits of a file, and what links may have by them.
fn gateway_limits<R: Files + AllocGlobal>(
    rt: &R,
    config: Config,
    path: &str,
) -> Result<(Config, Most), Fault> {
    let alloc = rt.alloc();
    let mut file = match fs::open(rt, path) {
        Ok(file) => file,
        Err(_) => return Err(Fault::Open),
    };
    let mut table = Vec::new(alloc);
    if file.read_to_end(&mut table).is_err() {
        return Err(Fault::Script(ScriptFault::Read));
    }
    match read_limits(alloc, config, &mut Device::new(table.as_slice())) {
        Ok(config) => {
            let text = str::from_utf8(&table).unwrap_or("");
            let most = Most::of(&config, text);
            Ok((config, most))
        }
        Err(fault) => Err(Fault::Script(fault)),
    }
}

/// Returns the settings of a gateway's endpoints, or `None` if one is outside its range.
fn gateway_config(alloc: Global, settings: GatewaySettings) -> Result<Option<Config>, AllocError> {
    let name = String::from_str(alloc, GATEWAY)?;
    let Some(config) = Config::checked(
        name,
        settings.max_frame,
        settings.sessions.saturating_sub(1),
        settings.links.saturating_sub(1),
        settings.allowed,
        settings.max_message,
        settings.window,
    ) else {
        return Ok(None);
    };
    Ok(Some(announced(config, settings.idle)))
}

/// Returns the trace that was requested, if one was.
fn traced<'a, R: Eprint + Files + Clock + AllocGlobal>(
    rt: &'a R,
    told: ToldTo<'_>,
    policy: Policy,
) -> Result<Option<Trace<Told<'a, R>, Desk<'a, R>>>, Fault> {
    if told.trace.is_none() && told.events.is_none() {
        return Ok(None);
    }
    let frames = opened(rt, told.trace)?;
    let events = opened(rt, told.events)?;
    let trace = Trace::new(rt.alloc(), Desk::new(rt), frames, events, policy.outcome)?;
    Ok(Some(trace))
}

/// Returns the file of lines at a path, if one is named.
fn opened<'a, R: Eprint + Files>(
    rt: &'a R,
    path: Option<&str>,
) -> Result<Option<Told<'a, R>>, Fault> {
    let Some(path) = path else {
        return Ok(None);
    };
    match Told::open(rt, path) {
        Ok(told) => Ok(Some(told)),
        Err(_) => Err(Fault::Open),
    }
}

/// The largest block, in bytes, by which the C library raises its threshold, less what it needs of it itself.
const LARGEST_BLOCK: usize = 33_554_432 - 8_192;

/// Takes a block of twice the longest message and gives it back. From then on the C library keeps up to twice the
/// block of what is freed. Otherwise it would return memory to the system after each long message and fetch it
/// anew (`M_MMAP_THRESHOLD` of `mallopt(3)`). If the block is refused, nothing changes.
fn keep_freed(alloc: Global, max_message: u32) {
    let block = (max_message as usize).saturating_mul(2);
    drop(Vec::<u8>::with_capacity(alloc, block.min(LARGEST_BLOCK)));
}

/// Returns the settings of a receiver's endpoints, or `None` if one is outside its range.
fn configured(alloc: Global, settings: RecvSettings) -> Result<Option<Config>, AllocError> {
    let RecvSettings {
        idle,
        max_frame,
        allowed,
        max_message,
        window,
        ..
    } = settings;
    let name = String::from_str(alloc, RECEIVER)?;
    let Some(config) = Config::checked(
        name,
        max_frame,
        CHANNEL_MAX,
        HANDLE_MAX,
        allowed,
        max_message,
        window,
    ) else {
        return Ok(None);
    };
    Ok(Some(announced(config, idle)))
}

/// Returns these settings with an idle time-out for the open: half of the time after which a silent peer is left,
/// if it is [2.4.5].
fn announced(config: Config, idle: u32) -> Config {
    config.with_idle_time_out(idle.saturating_mul(1000) / 2)
}

/// Returns these settings with the limits of a file.
fn limited<R: Files + AllocGlobal>(rt: &R, config: Config, path: &str) -> Result<Config, Fault> {
    let file = match fs::open(rt, path) {
        Ok(file) => file,
        Err(_) => return Err(Fault::Open),
    };
    match read_limits(rt.alloc(), config, &mut Device::new(file)) {
        Ok(config) => Ok(config),
        Err(fault) => Err(Fault::Script(fault)),
    }
}
