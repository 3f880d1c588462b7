//! Runs the rows of a title.

use crate::file::Title;
use crate::heap::Mark;
use crate::row::{Run, Tally};
use crate::{Miss, Subject};
use std::mem;

impl<S: Subject> Run<'_, '_, S> {
    /// Runs a title in ample memory, and with each request refused that it names. Returns its lines of the report.
    pub fn title(&mut self, title: &Title<'_>) -> Result<String, Miss> {
        let ample = self.once(title, 0)?;
        let (alloc, name, held) = (self.alloc, title.title, ample.held);
        let mut report = format!(in alloc; "{name}: {held} rows")?;
        let mut misses = ample.misses;
        if ample.refused > 0 {
            misses.push_str("    memory was refused that there was\n")?;
        }
        if title.refusals > 0 {
            let refused = self.refused(title, held)?;
            let met = refused.refused;
            write!(report, ", {met} requests refused in turn")?;
            misses.push_str(refused.misses.as_str())?;
        }
        writeln!(report)?;
        report.push_str(misses.as_str())?;
        Ok(report)
    }

    /// Runs a title with each of its requests refused in turn, and with two numbers after them. Returns how many
    /// were met by one call, in runs where as many rows held.
    fn refused(&mut self, title: &Title<'_>, held: u32) -> Result<Tally, Miss> {
        let mut all = Tally::new(self.alloc);
        for number in 1..title.refusals.saturating_add(3) {
            let wanted = if number <= title.refusals { 1 } else { 0 };
            let run = self.once(title, number)?;
            if (run.held, run.refused) == (held, wanted) && run.misses.is_empty() {
                all.refused = all.refused.saturating_add(wanted);
            } else {
                let (rows, met) = (run.held, run.refused);
                writeln!(
                    all.misses,
                    "    request {number} refused: met by {met} calls, {rows} rows held"
                )?;
                all.misses.push_str(run.misses.as_str())?;
            }
        }
        Ok(all)
    }

    /// Runs a title with the request of this number refused, and none at 0.
    fn once(&mut self, title: &Title<'_>, number: u32) -> Result<Tally, Miss> {
        self.heap.restart(u64::from(number));
        self.subject.begin();
        self.mark = Mark::new();
        for row in title.rows.iter() {
            self.row(*row)?;
        }
        self.subject.begin();
        let live = self.heap.live();
        if live > 0 {
            writeln!(self.tally.misses, "    {live} bytes live behind the run")?;
        }
        Ok(mem::replace(&mut self.tally, Tally::new(self.alloc)))
    }
}
