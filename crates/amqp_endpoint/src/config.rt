//! What an endpoint is set up with.
ghost use Rattle.std.specs.Prelude.{◌≡◌, ◌↔◌, ◌≤◌, ◌<◌, ◌^◌, length, [], None, IsSome, IfSome, IfOk, IfErr, OnOk};
ghost use Rattle.std.specs.String.{string_bytes};
ghost use Rattle.amqp_endpoint.specs.Configs.{Configured, IsConfigured, MayBeConfigured, bounds_for, time_out};
ghost use Rattle.amqp_endpoint.specs.Limits.{IsTable, IsFault};

use crate::limits::{self, LimitFault, LinkLimit};
use amqp_link::LinkBounds;
use std::alloc::{AllocError, Allocator, Global};
use std::marker::Model;

/// What an endpoint is set up with: what it states of itself, and how much its peer may make it hold.
#[derive(Drop)]
pub struct Config<A: Allocator + Copy = Global> {
    container_id: String<A>,
    max_frame: u32,
    channel_max: u8,
    handle_max: u8,
    bounds: LinkBounds,
    limits: Vec<LinkLimit<A>, A>,
    window: u32,
    idle_time_out: Option<u32>,
}

impl<A: Allocator + Copy> Model for Config<A> {
    ghost use Rattle.std.specs.String.{string_bytes};
    ghost use Rattle.amqp_endpoint.specs.Configs.{Configured, IsConfigured};
    ghost use Rattle.amqp_endpoint.specs.Limits.{IsTable};

    ghost Value = { Configured };

    ghost view = { λ a. record { container_id = string_bytes a.container_id; max_frame = a.max_frame; channel_max = a.channel_max; handle_max = a.handle_max; bounds = a.bounds; limits = a.limits.items; window = a.window; idle_time_out = a.idle_time_out } };

    ghost invariant = { λ a. IsConfigured (string_bytes a.container_id) a.max_frame a.window × IsTable a.limits.items };
}

impl<A: Allocator + Copy> Config<A> {
    /// Makes a configuration of these settings; `None` if one is outside its range.
    ///
    /// - `container_id`: 1 to 255 bytes.
    /// - `max_frame`, the longest frame: 512 to 1048576 bytes [2.7.1].
    /// - `channel_max` and `handle_max`: 0 to 255.
    /// - `allowed`, credit and open deliveries of a link together: 1 to 1024.
    /// - `max_message`: 1 to 2^30 bytes [2.7.3].
    /// - `window`, places of a session's window at its begin: at most 2147483647 [2.5.6].
    pub fn checked(
        container_id: String<A>,
        max_frame: u32,
        channel_max: u32,
        handle_max: u32,
        allowed: u32,
        max_message: u32,
        window: u32,
    ) -> Option<Self>
        ensures some { IsSome result ↔ MayBeConfigured (string_bytes container_id) max_frame channel_max handle_max allowed max_message window }
        ensures is { IfSome result (λ c. c ≡ record { container_id = string_bytes container_id; max_frame = max_frame; channel_max = channel_max; handle_max = handle_max; bounds = record { allowed = allowed; max_message_size = max_message }; limits = []; window = window; idle_time_out = None }) }
    {
        let bounds = LinkBounds::new(allowed, max_message)?;
        let is_named = 1 <= container_id.len() && container_id.len() <= 255;
        let is_framed = 512 <= max_frame && max_frame <= 1048576;
        if !is_named || !is_framed || window >= 1 << 31 || channel_max > 255 || handle_max > 255 {
            return None;
        }
        let limits = Vec::new(*container_id.allocator());
        Some(Config {
            container_id,
            max_frame,
            channel_max: channel_max as u8,
            handle_max: handle_max as u8,
            bounds,
            limits,
            window,
            idle_time_out: None,
        })
    }

    /// Returns these settings with this table of limits, in place of one that they had. Takes no memory.
    ///
    /// A link may hold what the row of the longest prefix with which its name begins says, compared byte by
    /// byte. If there is none, `allowed` and `max_message` of these settings apply. The table has at most 16
    /// rows with different prefixes.
    ///
    /// The first fault is returned, with the settings and the table: `TooMany`; then, by rising row, `BadRow`
    /// if the prefix has not 1 to 255 bytes or a number is outside its range, `SamePrefix` if an earlier row
    /// has the prefix.
    pub fn with_limits(
        self,
        limits: Vec<LinkLimit<A>, A>,
    ) -> Result<Self, (LimitFault, Self, Vec<LinkLimit<A>, A>)>
        ensures fine { OnOk result (IsTable limits.items) }
        ensures is { IfOk result (λ c. c ≡ record self { limits = limits.items }) }
        ensures fault { IfErr result (λ e. IsFault limits.items e.0) }
        ensures back { IfErr result (λ e. e.1 ≡ self) }
        ensures table { IfErr result (λ e. e.2.items ≡ limits.items) }
    {
        if let Some(fault) = limits::fault(&limits) {
            return Err((fault, self, limits));
        }
        let Config {
            container_id,
            max_frame,
            channel_max,
            handle_max,
            bounds,
            limits: _,
            window,
            idle_time_out,
        } = self;
        Ok(Config {
            container_id,
            max_frame,
            channel_max,
            handle_max,
            bounds,
            limits,
            window,
            idle_time_out,
        })
    }

    /// Returns these settings with this idle-time-out, in milliseconds: the open asks the peer for at least one
    /// frame in each such time. 0 is none, as it is for the peer [2.7.1].
    ///
    /// An endpoint has no clock. Its caller has to end the connection of a peer that is silent for twice as
    /// long, and to send heartbeats to a peer that asks for them [2.4.5].
    pub fn with_idle_time_out(mut self, milliseconds: u32) -> Self
        ensures { result ≡ record self { idle_time_out = time_out milliseconds } }
    {
        self.idle_time_out = (milliseconds > 0).then_some(milliseconds);
        self
    }

    /// A law: the settings are within their ranges.
    pub fn is_within(&self)
        ensures { IsConfigured self.now.container_id self.now.max_frame self.now.window }
    {
        let _ = &self.container_id;
    }

    /// Returns the container-id of this side [2.7.1].
    pub fn container_id(&self) -> &str
        ensures name { result.now ≡ self.now.container_id }
        ensures some { 1 ≤ length result.now }
        ensures short { length result.now ≤ 255 }
    {
        self.container_id.as_str()
    }

    /// Returns the length of the longest frame that is accepted, in bytes.
    pub fn max_frame(&self) -> u32
        ensures value { result ≡ self.now.max_frame }
        ensures least { 512 ≤ result }
        ensures most { result ≤ 1048576 }
    {
        self.max_frame
    }

    /// Returns the highest channel that is offered.
    pub fn channel_max(&self) -> u8
        ensures value { result ≡ self.now.channel_max }
        ensures most { result < 256 }
    {
        self.channel_max
    }

    /// Returns the highest handle that is offered [2.7.2].
    pub fn handle_max(&self) -> u8
        ensures { result ≡ self.now.handle_max }
    {
        self.handle_max
    }

    /// Returns what a link may hold whose name begins with no prefix of the limits.
    pub fn bounds(&self) -> LinkBounds
        ensures { result ≡ self.now.bounds }
    {
        self.bounds
    }

    /// Returns what a link of this name may hold.
    pub fn bounds_for(&self, name: &[u8]) -> LinkBounds
        ensures { result ≡ bounds_for self.now name.now }
    {
        match limits::longest(&self.limits, name) {
            Some(limit) => limit.bounds(),
            None => self.bounds,
        }
    }

    /// Returns how many places a session's window has at its begin [2.5.6].
    pub fn window(&self) -> u32
        ensures value { result ≡ self.now.window }
        ensures most { result < 2 ^ 31 }
    {
        self.window
    }

    /// Returns the idle-time-out that the open announces, in milliseconds; `None` if it announces none [2.4.5].
    pub fn idle_time_out(&self) -> Option<u32>
        ensures { result ≡ self.now.idle_time_out }
    {
        self.idle_time_out
    }

    /// Returns an equal configuration. It is an error if memory for the container-id or the limits is refused.
    pub fn copy(&self, alloc: A) -> Result<Self, AllocError>
        ensures { IfOk result (λ c. c ≡ self.now) }
    {
        Ok(Config {
            container_id: String::from_str(alloc, self.container_id.as_str())?,
            max_frame: self.max_frame,
            channel_max: self.channel_max,
            handle_max: self.handle_max,
            bounds: self.bounds,
            limits: limits::copies(alloc, &self.limits)?,
            window: self.window,
            idle_time_out: self.idle_time_out,
        })
    }
}
