//! What `amqp_endpoint` promises for settings.

ghost use Rattle.std.specs.Prelude.{◌≡◌, ◌↔◌, [], None, ◌+◌, ◌≤◌, ◌^◌, ◌<◌, length, IfOk, OnOk, IfErr, IsSome, IfSome};
ghost use Rattle.std.specs.String.{string_bytes};
ghost use Rattle.amqp_endpoint.specs.Configs.{IsConfigured, MayBeConfigured, bounds_for, time_out};
ghost use Rattle.amqp_endpoint.specs.Limits.{IsTable, IsFault};

use amqp_endpoint::{Answer, Call, CallFault, Config, End, Endpoint, Fed, LimitFault, LinkLimit};
use amqp_link::{LinkBounds, Taken};
use amqp_perform::Outcome as Settlement;
use amqp_session::LinkView;
use std::alloc::{AllocError, Allocator};

/// Makes a configuration of these settings; `None` if one is outside its range.
pub fn checked<A: Allocator + Copy>(
    container_id: String<A>,
    max_frame: u32,
    channel_max: u32,
    handle_max: u32,
    allowed: u32,
    max_message: u32,
    window: u32,
) -> Option<Config<A>>
    ensures some { IsSome result ↔ MayBeConfigured (string_bytes container_id) max_frame channel_max handle_max allowed max_message window }
    ensures is { IfSome result (λ c. c ≡ record { container_id = string_bytes container_id; max_frame = max_frame; channel_max = channel_max; handle_max = handle_max; bounds = record { allowed = allowed; max_message_size = max_message }; limits = []; window = window; idle_time_out = None }) }
{
    Config::checked(
        container_id,
        max_frame,
        channel_max,
        handle_max,
        allowed,
        max_message,
        window,
    )
}

/// Returns these settings with this table of limits, in place of one that they had. The table has at most 16
/// rows with different prefixes.
pub fn with_limits<A: Allocator + Copy>(
    config: Config<A>,
    limits: Vec<LinkLimit<A>, A>,
) -> Result<Config<A>, (LimitFault, Config<A>, Vec<LinkLimit<A>, A>)>
    ensures fine { OnOk result (IsTable limits.items) }
    ensures is { IfOk result (λ c. c ≡ record config { limits = limits.items }) }
    ensures fault { IfErr result (λ e. IsFault limits.items e.0) }
    ensures back { IfErr result (λ e. e.1 ≡ config) }
    ensures table { IfErr result (λ e. e.2.items ≡ limits.items) }
{
    config.with_limits(limits)
}

/// Returns these settings with this idle-time-out, in milliseconds; 0 is none.
pub fn with_idle_time_out<A: Allocator + Copy>(config: Config<A>, milliseconds: u32) -> Config<A>
    ensures { result ≡ record config { idle_time_out = time_out milliseconds } }
{
    config.with_idle_time_out(milliseconds)
}

/// A law: the settings are within their ranges.
pub fn is_within<A: Allocator + Copy>(config: &Config<A>)
    ensures { IsConfigured config.now.container_id config.now.max_frame config.now.window }
{
    config.is_within();
}

/// Returns the container-id of this side [2.7.1].
pub fn container_id<A: Allocator + Copy>(config: &Config<A>) -> &str
    ensures name { result.now ≡ config.now.container_id }
    ensures some { 1 ≤ length result.now }
    ensures short { length result.now ≤ 255 }
{
    config.container_id()
}

/// Returns the length of the longest frame that is accepted, in bytes.
pub fn max_frame<A: Allocator + Copy>(config: &Config<A>) -> u32
    ensures value { result ≡ config.now.max_frame }
    ensures least { 512 ≤ result }
    ensures most { result ≤ 1048576 }
{
    config.max_frame()
}

/// Returns the highest channel that is offered.
pub fn channel_max<A: Allocator + Copy>(config: &Config<A>) -> u8
    ensures value { result ≡ config.now.channel_max }
    ensures most { result < 256 }
{
    config.channel_max()
}

/// Returns the highest handle that is offered [2.7.2].
pub fn handle_max<A: Allocator + Copy>(config: &Config<A>) -> u8
    ensures { result ≡ config.now.handle_max }
{
    config.handle_max()
}

/// Returns what a link may hold whose name begins with no prefix of the limits.
pub fn bounds<A: Allocator + Copy>(config: &Config<A>) -> LinkBounds
    ensures { result ≡ config.now.bounds }
{
    config.bounds()
}

/// Returns what a link of this name may hold.
pub fn bounds_for<A: Allocator + Copy>(config: &Config<A>, name: &[u8]) -> LinkBounds
    ensures { result ≡ bounds_for config.now name.now }
{
    config.bounds_for(name)
}

/// Returns how many places a session's window has at its begin [2.5.6].
pub fn window<A: Allocator + Copy>(config: &Config<A>) -> u32
    ensures value { result ≡ config.now.window }
    ensures most { result < 2 ^ 31 }
{
    config.window()
}

/// Returns the idle-time-out that the open announces, in milliseconds; `None` if it announces none.
pub fn idle_time_out<A: Allocator + Copy>(config: &Config<A>) -> Option<u32>
    ensures { result ≡ config.now.idle_time_out }
{
    config.idle_time_out()
}

/// Returns an equal configuration. It is an error if memory for the container-id or the limits is refused.
pub fn copy<A: Allocator + Copy>(config: &Config<A>, alloc: A) -> Result<Config<A>, AllocError>
    ensures { IfOk result (λ c. c ≡ config.now) }
{
    config.copy(alloc)
}
