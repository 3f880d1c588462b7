//! Setting an endpoint up, and giving it back.
ghost use Rattle.std.specs.Prelude.{◌≡◌, ◌<◌, ◌⊎◌, [], map, None, OnOk, IsErr, IfOk, IfErr};
ghost use Rattle.amqp_endpoint.specs.Limits.{IsTable};
ghost use Rattle.wuleshomia.specs.Codes.{open_fault_at};
ghost use Rattle.wuleshomia.specs.Exports.{configured, limit_of, AreSettings, IsNew, WhyNot, IsOpened, OpenRefused};

use crate::codes::{OK, OpenFault, of_open_fault};
use crate::data::{LimitRow, Settings};
use crate::handle::EndpointHandle;
use crate::held::Held;
use crate::waiting::Waiting;
use amqp_endpoint::{Config, Endpoint, LinkLimit};
use std::alloc::{AllocError, Global};

/// The version of this library: 65,536 times its first number, 256 times its second, and its third.
pub const VERSION: u32 = 256;

/// Returns the version of the library that runs.
#[unsafe(no_mangle)]
pub extern "C" fn wule_version() -> u32
    ensures { result ≡ 256 }
{
    VERSION
}

/// Sets an endpoint up, with these settings, this container-id and this table of limits. Returns `OK`, or the code
/// of a refusal: the handle is unchanged then, and if a row of the limits is at fault, `row` says which.
#[unsafe(no_mangle)]
pub extern "C" fn wuleshomia_open(
    alloc: Global,
    endpoint: &mut EndpointHandle,
    settings: &Settings,
    container_id: &[u8],
    limits: &[LimitRow],
    row: &mut usize,
) -> u32
    ensures opened { result ≡ 0 → IsOpened settings.now container_id.now (map limit_of limits.now) endpoint.old.held endpoint.new.held }
    ensures refused { 0 < result → OpenRefused settings.now container_id.now (map limit_of limits.now) endpoint.old.held (open_fault_at result row.new) }
    ensures same { 0 < result → endpoint.new.held ≡ endpoint.old.held }
    ensures code { (result ≡ 0) ⊎ ((20 < result) × (result < 27)) }
    ensures row { result < 25 → row.new ≡ row.old }
{
    match open(alloc, endpoint, settings, container_id, limits) {
        Ok(()) => OK,
        Err(fault) => of_open_fault(fault, row),
    }
}

fn open(
    alloc: Global,
    endpoint: &mut EndpointHandle,
    settings: &Settings,
    container_id: &[u8],
    limits: &[LimitRow],
) -> Result<(), OpenFault>
    ensures opened { OnOk result (IsOpened settings.now container_id.now (map limit_of limits.now) endpoint.old.held endpoint.new.held) }
    ensures refused { IfErr result (λ f. OpenRefused settings.now container_id.now (map limit_of limits.now) endpoint.old.held f) }
    ensures same { IsErr result → endpoint.new.held ≡ endpoint.old.held }
{
    if let Some(held) = endpoint.take(alloc) {
        endpoint.put_back(alloc, held);
        return Err(OpenFault::InUse);
    }
    let held = made(alloc, settings, container_id, limits)?;
    endpoint.put(alloc, held);
    Ok(())
}

/// Returns a new endpoint, to be held.
fn made(
    alloc: Global,
    settings: &Settings,
    container_id: &[u8],
    limits: &[LimitRow],
) -> Result<Box<Held>, OpenFault>
    ensures ok { IfOk result (λ b. IsNew settings.now container_id.now (map limit_of limits.now) b.value) }
    ensures err { IfErr result (λ f. WhyNot settings.now container_id.now (map limit_of limits.now) f) }
{
    let config = configured(alloc, settings, container_id, limits)?;
    let Ok(endpoint) = Endpoint::new(alloc, config) else {
        return Err(OpenFault::NoMemory);
    };
    let held = Held {
        endpoint,
        message: None,
        answers: Waiting::of(Vec::new(alloc)),
        records: Waiting::of(Vec::new(alloc)),
        lost: None,
    };
    match Box::new(alloc, held) {
        Ok(held) => Ok(held),
        Err(_) => Err(OpenFault::NoMemory),
    }
}

/// Returns the configuration that these settings, this container-id and these limits make.
fn configured(
    alloc: Global,
    settings: &Settings,
    container_id: &[u8],
    limits: &[LimitRow],
) -> Result<Config, OpenFault>
    ensures settings { OnOk result (AreSettings settings.now container_id.now) }
    ensures table { OnOk result (IsTable (map limit_of limits.now)) }
    ensures ok { IfOk result (λ c. c ≡ configured settings.now container_id.now (map limit_of limits.now)) }
    ensures err { IfErr result (λ f. WhyNot settings.now container_id.now (map limit_of limits.now) f) }
{
    let config = checked(alloc, settings, container_id)?;
    let Ok(rows) = rows_of(alloc, limits) else {
        return Err(OpenFault::NoMemory);
    };
    match config.with_limits(rows) {
        Ok(config) => Ok(config),
        Err((fault, _, _)) => Err(OpenFault::Limits(fault)),
    }
}

/// Returns the configuration that these settings and this container-id make, without limits.
fn checked(alloc: Global, settings: &Settings, container_id: &[u8]) -> Result<Config, OpenFault>
    ensures settings { OnOk result (AreSettings settings.now container_id.now) }
    ensures ok { IfOk result (λ c. c ≡ configured settings.now container_id.now []) }
    ensures err { IfErr result (λ f. (f ≡ OpenFault.NoMemory) ⊎ ((f ≡ OpenFault.Settings) × ¬ (AreSettings settings.now container_id.now))) }
{
    let Ok(text) = std::str::from_utf8(container_id) else {
        return Err(OpenFault::Settings);
    };
    let Ok(name) = String::from_str(alloc, text) else {
        return Err(OpenFault::NoMemory);
    };
    let checked = Config::checked(
        name,
        settings.max_frame,
        settings.channel_max,
        settings.handle_max,
        settings.allowed,
        settings.max_message,
        settings.window,
    );
    match checked {
        Some(config) => Ok(config.with_idle_time_out(settings.idle_time_out)),
        None => Err(OpenFault::Settings),
    }
}

/// Returns the rows of a table.
fn rows_of(alloc: Global, limits: &[LimitRow]) -> Result<Vec<LinkLimit>, AllocError>
    ensures { IfOk result (λ rows. rows.items ≡ map limit_of limits.now) }
{
    let mut rows = Vec::with_capacity(alloc, limits.len())?;
    for limit in limits {
        rows.push(row_of(alloc, limit)?)?;
    }
    Ok(rows)
}

/// Returns a row of a table.
fn row_of(alloc: Global, limit: &LimitRow) -> Result<LinkLimit, AllocError>
    ensures { IfOk result (λ row. row ≡ limit_of limit.now) }
{
    let count = limit.prefix_len as usize;
    let prefix = if count <= limit.prefix.len() {
        &limit.prefix[..count]
    } else {
        &[]
    };
    Ok(LinkLimit {
        prefix: Vec::from_slice(alloc, prefix)?,
        allowed: limit.allowed,
        max_message: limit.max_message,
    })
}

/// Gives back all that the endpoint holds. The handle holds none then.
#[unsafe(no_mangle)]
pub extern "C" fn wule_free(alloc: Global, endpoint: &mut EndpointHandle)
    ensures { endpoint.new.held ≡ None }
{
    drop(endpoint.take(alloc));
}
