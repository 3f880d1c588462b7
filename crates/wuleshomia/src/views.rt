//! The state of an endpoint. These calls change nothing.
ghost use Rattle.std.specs.Prelude.{◌≡◌, ◌<◌, ◌⊎◌, length, min};
ghost use Rattle.std.specs.Option.{option_map};
ghost use Rattle.amqp_session.specs.Lacking.{IsFirstLacking};
ghost use Rattle.amqp_session.specs.Places.{live_in};
ghost use Rattle.amqp_endpoint.specs.Connections.{slot_at};
ghost use Rattle.amqp_endpoint.specs.Held.{held};
ghost use Rattle.amqp_endpoint.specs.Takings.{link_at};
ghost use Rattle.wuleshomia.specs.Codes.{Found, found_at};
ghost use Rattle.amqp_perform.specs.Addresses.{node_of};
ghost use Rattle.wuleshomia.specs.Exports.{Did, report_of, Shows, ShowsAddress, ShowsNode, ShowsPart, terminus_of};

use crate::codes::{NO_ENDPOINT, NO_LINK, NO_SESSION, OK, of_found};
use crate::data::{AddressReport, LinkReport};
use crate::handle::EndpointHandle;
use crate::messages::put;
use crate::requests::number;
use amqp_perform::Address;
use amqp_session::LinkView;
use std::alloc::Global;

/// Returns how many bytes count as held: 0 if the handle holds no endpoint.
#[unsafe(no_mangle)]
pub extern "C" fn wule_held(alloc: Global, endpoint: &mut EndpointHandle) -> u64
    ensures { Did endpoint.old.held endpoint.new.held (λ before after. (after ≡ before) × (result ≡ held before.endpoint)) (result ≡ 0) }
{
    let Some(held) = endpoint.take(alloc) else {
        return 0;
    };
    let count = held.as_ref().endpoint.held();
    endpoint.put_back(alloc, held);
    count
}

/// Stores in `places` how many places are left of a session's window. Returns `OK`, `NO_SESSION` or
/// `NO_ENDPOINT`; `places` changes only at `OK`.
#[unsafe(no_mangle)]
pub extern "C" fn wule_window(
    alloc: Global,
    endpoint: &mut EndpointHandle,
    channel: u32,
    places: &mut u32,
) -> u32
    ensures { Did endpoint.old.held endpoint.new.held (λ before after. (after ≡ before) × Found (option_map (λ s. s.window) (live_in (slot_at before.endpoint.connection (min channel 65535)))) 3 result places.old places.new) ((result ≡ 20) × (places.new ≡ places.old)) }
{
    let Some(held) = endpoint.take(alloc) else {
        return NO_ENDPOINT;
    };
    let window = held.as_ref().endpoint.window(number(channel));
    endpoint.put_back(alloc, held);
    of_found(window, NO_SESSION, places)
}

/// Stores the state of a link in `link`, and the first bytes of its name in `name`, as many as fit.
/// Returns `OK`, `NO_LINK` or `NO_ENDPOINT`; both change only at `OK`.
#[unsafe(no_mangle)]
pub extern "C" fn wuleshomia_link(
    alloc: Global,
    endpoint: &mut EndpointHandle,
    channel: u32,
    handle: u32,
    link: &mut LinkReport,
    name: &mut [u8],
) -> u32
    ensures { Did endpoint.old.held endpoint.new.held (λ before after. (after ≡ before) × Shows (link_at before.endpoint.connection (min channel 65535) handle) result link.old link.new name.old name.new) ((result ≡ 20) × (link.new ≡ link.old) × (name.new ≡ name.old)) }
{
    let Some(held) = endpoint.take(alloc) else {
        return NO_ENDPOINT;
    };
    let code = match held.as_ref().endpoint.link(number(channel), handle) {
        Some(view) => {
            *link = of_view(&view);
            let _ = put(view.name, name, 0);
            OK
        }
        None => NO_LINK,
    };
    endpoint.put_back(alloc, held);
    code
}

fn of_view(view: &LinkView<'_>) -> LinkReport
    ensures { result ≡ report_of view.now }
{
    LinkReport {
        credit: view.credit,
        opened: view.opened,
        ready: view.ready,
        allowed: view.bounds.allowed(),
        max_message: view.bounds.max_message_size(),
        name_len: count_of(view.name),
        source_len: count_of(view.source),
        target_len: count_of(view.target),
    }
}

fn count_of(bytes: &[u8]) -> u32
    ensures { result ≡ min (length bytes.now) 4294967295 }
{
    bytes.len().min(u32::MAX as usize) as u32
}

/// Copies the first bytes of a link's source, as its attach spells it, as many as fit. Returns
/// `OK`, `NO_LINK` or `NO_ENDPOINT`; `room` changes only at `OK`.
#[unsafe(no_mangle)]
pub extern "C" fn wuleshomia_link_source(
    alloc: Global,
    endpoint: &mut EndpointHandle,
    channel: u32,
    handle: u32,
    room: &mut [u8],
) -> u32
    ensures { Did endpoint.old.held endpoint.new.held (λ before after. (after ≡ before) × ShowsPart (link_at before.endpoint.connection (min channel 65535) handle) (λ l. l.source) result room.old room.new) ((result ≡ 20) × (room.new ≡ room.old)) }
{
    show_terminus(alloc, endpoint, channel, handle, Terminus::Source, room)
}

/// Copies the first bytes of a link's target, as its attach spells it, as many as fit. Returns
/// `OK`, `NO_LINK` or `NO_ENDPOINT`; `room` changes only at `OK`.
#[unsafe(no_mangle)]
pub extern "C" fn wuleshomia_link_target(
    alloc: Global,
    endpoint: &mut EndpointHandle,
    channel: u32,
    handle: u32,
    room: &mut [u8],
) -> u32
    ensures { Did endpoint.old.held endpoint.new.held (λ before after. (after ≡ before) × ShowsPart (link_at before.endpoint.connection (min channel 65535) handle) (λ l. l.target) result room.old room.new) ((result ≡ 20) × (room.new ≡ room.old)) }
{
    show_terminus(alloc, endpoint, channel, handle, Terminus::Target, room)
}

/// An end of a link.
#[derive(Clone, Copy)]
enum Terminus {
    Source,
    Target,
}

/// Copies the first bytes of an end of a link, as many as fit.
fn show_terminus(
    alloc: Global,
    endpoint: &mut EndpointHandle,
    channel: u32,
    handle: u32,
    terminus: Terminus,
    room: &mut [u8],
) -> u32
    ensures { Did endpoint.old.held endpoint.new.held (λ before after. (after ≡ before) × ShowsPart (link_at before.endpoint.connection (min channel 65535) handle) (λ l. terminus_of terminus l.source l.target) result room.old room.new) ((result ≡ 20) × (room.new ≡ room.old)) }
{
    let Some(held) = endpoint.take(alloc) else {
        return NO_ENDPOINT;
    };
    let code = match held.as_ref().endpoint.link(number(channel), handle) {
        Some(view) => {
            let _ = put(terminus_in(&view, terminus), room, 0);
            OK
        }
        None => NO_LINK,
    };
    endpoint.put_back(alloc, held);
    code
}

fn terminus_in<'a>(view: &LinkView<'a>, terminus: Terminus) -> &'a [u8]
    ensures { result.now ≡ terminus_of terminus view.now.source.now view.now.target.now }
{
    match terminus {
        Terminus::Source => view.source,
        Terminus::Target => view.target,
    }
}

/// Stores in `address` what a link's target says of its node, and copies the first bytes of its address, as many as
/// fit. Returns `OK`, `NO_LINK` or `NO_ENDPOINT`; `address` and `room` change only at `OK`.
#[unsafe(no_mangle)]
pub extern "C" fn wuleshomia_link_address(
    alloc: Global,
    endpoint: &mut EndpointHandle,
    channel: u32,
    handle: u32,
    address: &mut AddressReport,
    room: &mut [u8],
) -> u32
    ensures { Did endpoint.old.held endpoint.new.held (λ before after. (after ≡ before) × ShowsAddress (link_at before.endpoint.connection (min channel 65535) handle) result address.old address.new room.old room.new) ((result ≡ 20) × (address.new ≡ address.old) × (room.new ≡ room.old)) }
{
    let Some(held) = endpoint.take(alloc) else {
        return NO_ENDPOINT;
    };
    let code = match held.as_ref().endpoint.link(number(channel), handle) {
        Some(view) => {
            *address = show_address(view.address(), room);
            OK
        }
        None => NO_LINK,
    };
    endpoint.put_back(alloc, held);
    code
}

/// Copies the first bytes of an address, as many as fit. Returns which kind it is, and how many bytes it has.
fn show_address(address: Address<'_>, room: &mut [u8]) -> AddressReport
    ensures { ShowsNode (node_of address.entry) result room.old room.new }
{
    let kind = match address {
        Address::Name(_) => 0,
        Address::Dynamic => 1,
        Address::Absent => 2,
        Address::NoTarget => 3,
        Address::Other => 4,
    };
    let name = match address {
        Address::Name(name) => name.as_bytes(),
        _ => &[],
    };
    let _ = put(name, room, 0);
    AddressReport {
        kind,
        len: count_of(name),
    }
}

/// Stores in `found` the first handle, from `from` on, whose link has less credit than `credit` and
/// is allowed more. Returns `OK`, `NO_LINK` if there is none, or `NO_ENDPOINT`; `found` changes
/// only at `OK`.
#[unsafe(no_mangle)]
pub extern "C" fn wule_first_lacking(
    alloc: Global,
    endpoint: &mut EndpointHandle,
    channel: u32,
    from: u32,
    credit: u32,
    found: &mut u32,
) -> u32
    ensures first { Did endpoint.old.held endpoint.new.held (λ before after. (after ≡ before) × IsFirstLacking credit from (link_at before.endpoint.connection (min channel 65535)) (found_at result found.new) × ((result ≡ 0) ⊎ (result ≡ 4))) (result ≡ 20) }
    ensures kept { 0 < result → found.new ≡ found.old }
{
    let Some(held) = endpoint.take(alloc) else {
        return NO_ENDPOINT;
    };
    let lacking = held
        .as_ref()
        .endpoint
        .first_lacking(number(channel), from, credit);
    endpoint.put_back(alloc, held);
    of_found(lacking, NO_LINK, found)
}
