//! What a receiver does: it accepts each message and prints it, and keeps its sessions and links supplied.

use amqp_endpoint::{CallFault, Config, Endpoint, Event, Outcome};
use amqp_perform::Outcome as Settlement;
use amqp_serve::supply_session;
use anyhow::{Error, Result, anyhow, bail};
use std::alloc::Global;

const MAX_FRAME: u32 = 65_536;

const MAX_MESSAGE: u32 = 1_048_576;

/// The highest channel, and the highest handle of a session.
const CHANNEL_MAX: u16 = 7;

const HANDLE_MAX: u32 = 7;

/// The messages of a link that are on their way or not settled, at most.
const CREDIT: u32 = 16;

/// The transfer frames of a session that are on their way, at most.
const WINDOW: u32 = 2048;

/// This many bytes of a message are printed.
const SHOWN: usize = 60;

/// Returns an endpoint before its peer's header.
pub fn new_endpoint(alloc: Global) -> Result<Endpoint> {
    let name = String::from_str(alloc, "receive")?;
    let checked = Config::checked(
        name,
        MAX_FRAME,
        CHANNEL_MAX as u32,
        HANDLE_MAX,
        CREDIT,
        MAX_MESSAGE,
        WINDOW,
    );
    let Some(config) = checked else {
        bail!("a setting is outside its range");
    };
    Ok(Endpoint::new(alloc, config)?)
}

/// Does what follows from the result of the bytes that were read.
pub fn follow(rt: &impl Print, endpoint: &mut Endpoint, told: Outcome) -> Result<()> {
    match told {
        Outcome::Event(event) => hear(rt, endpoint, event)?,
        Outcome::More | Outcome::Dead => {}
        Outcome::Blocked => bail!("what waits to be sent was not sent"),
        Outcome::NoMemory => bail!("out of memory"),
    }
    top_up(endpoint).map_err(refused)
}

/// Receives the message that is ready, and prints what this side ended with an error. The other events ask for nothing here.
fn hear(rt: &impl Print, endpoint: &mut Endpoint, event: Event) -> Result<()> {
    match event {
        Event::Ready { channel, handle } => receive(rt, endpoint, channel, handle)?,
        Event::Failed {
            scope,
            condition,
            ..
        } => {
            println!(rt; "failed: {scope:?}, {}", condition.name().escape_ascii())?;
        }
        _ => {}
    }
    Ok(())
}

/// Takes the message that is ready on a link, prints it, and accepts it.
fn receive(rt: &impl Print, endpoint: &mut Endpoint, channel: u16, handle: u32) -> Result<()> {
    let taken = endpoint.take(channel, handle).map_err(refused)?;
    if let Some(link) = endpoint.link(channel, handle) {
        let (name, count) = (link.name.escape_ascii(), taken.message.len());
        let front = taken.message.piece(0);
        let shown = front.get(..SHOWN).unwrap_or(front).escape_ascii();
        println!(rt; "{name}: {count} bytes, {shown}")?;
    }
    if !taken.settled {
        let told = endpoint.settle(channel, taken.delivery_id, Settlement::Accepted);
        told.map_err(refused)?;
    }
    Ok(())
}

/// Widens the window of each session of which half is used up, and grants each link credit of which half is.
fn top_up(endpoint: &mut Endpoint) -> Result<(), CallFault> {
    for channel in 0..=CHANNEL_MAX {
        if endpoint.window(channel).is_some() {
            supply_session(endpoint, channel, CREDIT, WINDOW)?;
        }
    }
    Ok(())
}

/// Returns the error of a call that was refused. Nothing has changed then.
fn refused(fault: CallFault) -> Error {
    anyhow!("the endpoint refused a call: {fault:?}")
}
