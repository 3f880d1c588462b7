//! `amqp spool check`: all of a spool read, and what is damaged said.

use crate::damage::{Damage, damage_text};
use crate::faults::SpoolFault;
use crate::numbers::{Missing, gap_text};
use crate::printing::write_out;
use crate::visiting::{Found, Visitor};
use crate::walk::walk;
use amqp_spool::DirFiles;
use std::alloc::{AllocError, Global};
use std::fs::Files;
use std::io::Write;

/// Reads all of the spool in this directory that is not gone, and says what is damaged: a line on `told` for each segment
/// that is, `fault: SEGMENT PLACE Damaged, A to B are missing`, and a line on `out` for numbers that are missing, `gap A to
/// B`. The last line on `out` is `N records in M segments, K damaged`. Returns whether nothing is damaged or missing.
///
/// # Errors
///
/// As those of [`print_spool`](crate::print_spool). There is no last line then.
pub fn check_spool<R: Files + Drop, W: Write + Drop, E: Write + Drop>(
    rt: R,
    alloc: Global,
    dir: &str,
    out: W,
    told: E,
) -> Result<bool, SpoolFault> {
    let files = DirFiles::new(rt, alloc, dir)?;
    let mut checker = Checker {
        alloc,
        records: 0,
        segments: 0,
        damaged: 0,
        gaps: 0,
        out,
        told,
    };
    walk(files, alloc, None, &mut checker)?;
    checker.end()
}

/// One that counts what it is told of.
#[derive(Drop)]
struct Checker<W, E> {
    alloc: Global,
    records: u64,
    segments: u64,
    damaged: u64,
    gaps: u64,
    out: W,
    told: E,
}

impl<W: Write + Drop, E: Write + Drop> Checker<W, E> {
    /// Writes the last line, and returns whether nothing is damaged or missing.
    fn end(&mut self) -> Result<bool, SpoolFault> {
        let text = self.text()?;
        write_out(&mut self.out, text.as_bytes())?;
        Ok(self.damaged == 0 && self.gaps == 0)
    }

    fn text(&self) -> Result<String, AllocError> {
        let Checker {
            alloc,
            records,
            segments,
            damaged,
            ..
        } = self;
        format!(in *alloc; "{records} records in {segments} segments, {damaged} damaged\n")
    }
}

impl<W: Write + Drop, E: Write + Drop> Visitor for Checker<W, E> {
    fn segment(&mut self) {
        self.segments = self.segments.saturating_add(1);
    }

    fn record(&mut self, _found: &Found<'_>) -> Result<(), SpoolFault> {
        self.records = self.records.saturating_add(1);
        Ok(())
    }

    fn gap(&mut self, _spool: &[u8; 16], missing: &Missing) -> Result<(), SpoolFault> {
        self.gaps = self.gaps.saturating_add(1);
        let text = gap_text(self.alloc, missing)?;
        write_out(&mut self.out, text.as_bytes())
    }

    fn damage(&mut self, damage: &Damage) -> Result<(), SpoolFault> {
        self.damaged = self.damaged.saturating_add(1);
        let text = damage_text(self.alloc, damage)?;
        write_out(&mut self.told, text.as_bytes())
    }
}
