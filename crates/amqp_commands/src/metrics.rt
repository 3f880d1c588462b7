//! What a gateway counts, in the text format of Prometheus.

use crate::lags::Lag;
use crate::spool::Stock;
use amqp_gateway::{Counts, Ending, HeldUp};
use amqp_spool::ConsumerName;
use std::alloc::{AllocError, Global};
use std::fs;
use std::io::{self, Write};
use std::rt::Files;

/// What the file of metrics has.
#[derive(Clone, Copy, Debug)]
pub struct Metrics<'a> {
    pub counts: Counts,
    /// How many peers there are.
    pub open: u64,
    /// How many bytes they hold, and how many they may.
    pub held: u64,
    pub bound: u64,
    /// The longest turn since the file was written last, in milliseconds.
    pub longest: u64,
    /// How the spool stands, if there is one.
    pub spooled: Option<Spooled<'a>>,
}

/// How a spool stands, what it holds up, and how far its consumers are behind.
#[derive(Clone, Copy, Debug)]
pub struct Spooled<'a> {
    pub stock: Stock,
    pub held_up: Option<HeldUp>,
    pub lags: &'a [Lag],
}

impl Spooled<'_> {
    /// Puts their text after another.
    fn put_to(&self, alloc: Global, text: &mut String) -> Result<(), AllocError> {
        let Stock {
            used,
            limit,
            segments,
            next,
        } = self.stock;
        put(
            alloc,
            text,
            "spool_bytes",
            "gauge",
            "Bytes that the segments of the spool have.",
            used,
        )?;
        put(
            alloc,
            text,
            "spool_bytes_bound",
            "gauge",
            "Bytes that they may have.",
            limit,
        )?;
        put(
            alloc,
            text,
            "spool_segments",
            "gauge",
            "Segments of the spool.",
            segments,
        )?;
        put(
            alloc,
            text,
            "spool_next",
            "gauge",
            "The number of the next record.",
            next,
        )?;
        self.put_held_up(alloc, text)?;
        self.put_lags(alloc, text)
    }

    /// Puts what is held up, by cause.
    fn put_held_up(&self, alloc: Global, text: &mut String) -> Result<(), AllocError> {
        put_head(
            text,
            "spool_held_up",
            "gauge",
            "Whether senders are held up, by cause.",
        )?;
        for (cause, what) in [
            ("credit", HeldUp::Credit),
            ("room", HeldUp::Peers),
            ("disk", HeldUp::Records),
        ] {
            let is = u8::from(self.held_up == Some(what));
            let line = format!(in alloc; "amqp_gateway_spool_held_up{{cause=\"{cause}\"}} {is}\n")?;
            text.push_str(line.as_str())?;
        }
        Ok(())
    }

    /// Puts how far each consumer is behind.
    fn put_lags(&self, alloc: Global, text: &mut String) -> Result<(), AllocError> {
        put_head(
            text,
            "spool_lag_records",
            "gauge",
            "Records that a consumer has not acknowledged.",
        )?;
        for lag in self.lags {
            put_lag(alloc, text, "spool_lag_records", &lag.name, lag.records)?;
        }
        put_head(
            text,
            "spool_lag_seconds",
            "gauge",
            "How long ago the first of them arrived, as far as it is known since the start.",
        )?;
        for lag in self.lags {
            put_lag(alloc, text, "spool_lag_seconds", &lag.name, lag.seconds)?;
        }
        Ok(())
    }
}

impl Metrics<'_> {
    /// Returns their text.
    pub fn text(&self, alloc: Global) -> Result<String, AllocError> {
        let mut text = String::new(alloc);
        put(
            alloc,
            &mut text,
            "peers_open",
            "gauge",
            "Peers that are served.",
            self.open,
        )?;
        put(
            alloc,
            &mut text,
            "connections_accepted_total",
            "counter",
            "Connections that were accepted.",
            self.counts.accepted,
        )?;
        put_head(
            &mut text,
            "connections_ended_total",
            "counter",
            "Connections that ended, by cause.",
        )?;
        for ending in Ending::ALL {
            let count = self.counts.ended.get(ending.place()).copied().unwrap_or(0);
            let line = format!(in alloc;
                "amqp_gateway_connections_ended_total{{cause=\"{ending}\"}} {count}\n"
            )?;
            text.push_str(line.as_str())?;
        }
        put(
            alloc,
            &mut text,
            "messages_total",
            "counter",
            "Messages that were recorded.",
            self.counts.messages,
        )?;
        put(
            alloc,
            &mut text,
            "message_bytes_total",
            "counter",
            "Bytes of messages that were recorded.",
            self.counts.bytes,
        )?;
        put(
            alloc,
            &mut text,
            "held_bytes",
            "gauge",
            "Bytes that all peers hold.",
            self.held,
        )?;
        put(
            alloc,
            &mut text,
            "held_bytes_bound",
            "gauge",
            "Bytes that as many peers as may be open can hold.",
            self.bound,
        )?;
        put(
            alloc,
            &mut text,
            "longest_turn_milliseconds",
            "gauge",
            "The longest turn of the loop since this file was written last.",
            self.longest,
        )?;
        if let Some(spooled) = &self.spooled {
            spooled.put_to(alloc, &mut text)?;
        }
        Ok(text)
    }

    /// Writes them to a new file beside this one and puts that in its place, so that a reader finds all of
    /// them or all those before.
    pub fn write<R: Files>(&self, rt: &R, alloc: Global, path: &str) -> io::Result<()> {
        let text = self.text(alloc)?;
        let beside = format!(in alloc; "{path}.new")?;
        let mut file = fs::create(rt, beside.as_str())?;
        file.write_all(text.as_bytes())?;
        drop(file);
        rt.rename(beside.as_str(), path)
    }
}

/// Puts a number's name, kind and help.
fn put_head(text: &mut String, name: &str, kind: &str, help: &str) -> Result<(), AllocError> {
    text.push_str("# HELP amqp_gateway_")?;
    text.push_str(name)?;
    text.push_str(" ")?;
    text.push_str(help)?;
    text.push_str("\n# TYPE amqp_gateway_")?;
    text.push_str(name)?;
    text.push_str(" ")?;
    text.push_str(kind)?;
    text.push_str("\n")
}

/// Puts a number of a consumer.
fn put_lag(
    alloc: Global,
    text: &mut String,
    name: &str,
    consumer: &ConsumerName,
    number: u64,
) -> Result<(), AllocError> {
    let line = format!(in alloc; "amqp_gateway_{name}{{consumer=\"{consumer}\"}} {number}\n")?;
    text.push_str(line.as_str())
}

/// Puts a number.
fn put(
    alloc: Global,
    text: &mut String,
    name: &str,
    kind: &str,
    help: &str,
    number: u64,
) -> Result<(), AllocError> {
    put_head(text, name, kind, help)?;
    let line = format!(in alloc; "amqp_gateway_{name} {number}\n")?;
    text.push_str(line.as_str())
}
