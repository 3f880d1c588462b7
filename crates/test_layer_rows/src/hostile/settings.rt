//! What an endpoint is set up with.

use amqp_endpoint::Config;
use test_row_files::words::six_numbers;
use test_row_files::{Heap, Miss};

/// In the order of `Config::checked`, after the name.
#[derive(Clone, Copy)]
pub struct Settings {
    max_frame: u32,
    channel_max: u32,
    handle_max: u32,
    pub allowed: u32,
    max_message: u32,
    window: u32,
}

/// Small ones, until a row says others.
pub const SMALL: Settings = Settings {
    max_frame: 512,
    channel_max: 0,
    handle_max: 1,
    allowed: 4,
    max_message: 10,
    window: 100,
};

impl Settings {
    /// Returns the settings that six numbers give.
    pub fn of(words: &str) -> Result<Settings, Miss> {
        let [
            max_frame,
            channel_max,
            handle_max,
            allowed,
            max_message,
            window,
        ] = six_numbers(words)?;
        Ok(Settings {
            max_frame,
            channel_max,
            handle_max,
            allowed,
            max_message,
            window,
        })
    }

    pub fn config<'a>(self, heap: Heap<'a>) -> Result<Config<Heap<'a>>, Miss> {
        let name = String::from_str(heap, "r")?;
        let config = Config::checked(
            name,
            self.max_frame,
            self.channel_max,
            self.handle_max,
            self.allowed,
            self.max_message,
            self.window,
        );
        config.ok_or(Miss::Unread("no such settings"))
    }

    /// Returns the most bytes that may be held with this many sessions and links.
    pub fn bound(self, sessions: u64, links: u64) -> u64 {
        let each = u64::from(self.max_message).saturating_add(96);
        let link = u64::from(self.allowed)
            .saturating_mul(each)
            .saturating_add(1407);
        u64::from(self.max_frame)
            .saturating_add(8192)
            .saturating_add(sessions.saturating_mul(64))
            .saturating_add(links.saturating_mul(link))
    }
}
