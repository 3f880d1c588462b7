//! A file of rows, read.

use crate::heap::Mark;
use crate::row::{Row, Run, Tally};
use crate::spelling::{Name, is_in_name};
use crate::words::{cut, name_of, number};
use crate::{Heap, Miss, Subject};
use std::alloc::Global;

/// The head of a file and its titles.
#[derive(Drop)]
pub struct RowFile<'t> {
    subject: &'t str,
    names: Vec<Name<'t>>,
    titles: Vec<Title<'t>>,
}

/// A title and what stands below it.
#[derive(Drop)]
pub struct Title<'t> {
    pub title: &'t str,
    /// Those between `repeat` and `end` come as often as they are run.
    pub rows: Vec<Row<'t>>,
    pub refusals: u32,
    /// The `repeat` whose `end` is to come.
    open: Option<Repeat<'t>>,
}

#[derive(Drop)]
struct Repeat<'t> {
    count: u32,
    first: u32,
    step: u32,
    rows: Vec<&'t str>,
}

impl<'t> RowFile<'t> {
    pub fn read(alloc: Global, text: &'t str) -> Result<RowFile<'t>, Miss> {
        let mut file = RowFile {
            subject: "",
            names: Vec::new(alloc),
            titles: Vec::new(alloc),
        };
        for line in text.lines() {
            let line = line.trim();
            if !line.is_empty() && !line.starts_with('#') {
                file.line(alloc, line)?;
            }
        }
        file.check_end()?;
        Ok(file)
    }

    /// Returns what the rows are about; empty where the file doesn't say it.
    pub fn subject(&self) -> &'t str {
        self.subject
    }

    /// Runs all rows, and reports how many held, and which did not.
    pub fn run<'r, S: Subject>(
        &'r self,
        alloc: Global,
        heap: Heap<'r>,
        subject: &'r mut S,
    ) -> Result<String, Miss> {
        let mut run = Run {
            alloc,
            heap,
            names: self.names.as_slice(),
            subject,
            mark: Mark::new(),
            tally: Tally::new(alloc),
        };
        let mut report = String::new(alloc);
        for title in self.titles.iter() {
            report.push_str(run.title(title)?.as_str())?;
        }
        Ok(report)
    }

    fn line(&mut self, alloc: Global, line: &'t str) -> Result<(), Miss> {
        if let Some(title) = line.strip_prefix("== ") {
            self.check_end()?;
            self.titles.push(Title {
                title: title.trim(),
                rows: Vec::new(alloc),
                refusals: 0,
                open: None,
            })?;
            return Ok(());
        }
        match self.titles.last_mut() {
            Some(title) => title.line(alloc, line),
            None => self.head(line),
        }
    }

    fn head(&mut self, line: &'t str) -> Result<(), Miss> {
        if let Some(subject) = line.strip_prefix("subject ") {
            self.subject = subject.trim();
            return Ok(());
        }
        let named = line.strip_prefix('@').ok_or("no line of a head")?;
        let (name, hex) = cut(named, '=')?;
        if name.is_empty() || !name.bytes().all(is_in_name) {
            return Err(Miss::Unread("no name"));
        }
        self.names.push((name, hex))?;
        Ok(())
    }

    /// That each `repeat` has its `end`.
    fn check_end(&self) -> Result<(), Miss> {
        match self.titles.last() {
            Some(title) if title.open.is_some() => Err(Miss::Unread("a repeat has no end")),
            _ => Ok(()),
        }
    }
}

impl<'t> Title<'t> {
    fn line(&mut self, alloc: Global, line: &'t str) -> Result<(), Miss> {
        match (name_of(line), &mut self.open) {
            (("repeat", words), None) => self.open = Some(Repeat::of(alloc, words)?),
            (("end", ""), Some(_)) => self.close()?,
            (("repeat" | "end", _), _) => return Err(Miss::Unread("no such repeat or end")),
            (("refuse", count), _) => self.refusals = number(count)?,
            (_, Some(repeat)) => repeat.rows.push(line)?,
            (_, None) => self.rows.push(Row { text: line, n: 0 })?,
        }
        Ok(())
    }

    /// Puts down the rows of the `repeat` that ends.
    fn close(&mut self) -> Result<(), Miss> {
        let repeat = self.open.take().ok_or("no repeat")?;
        let mut n = repeat.first;
        for _ in 0..repeat.count {
            self.put(repeat.rows.as_slice(), n)?;
            n = n.wrapping_add(repeat.step);
        }
        Ok(())
    }

    fn put(&mut self, rows: &[&'t str], n: u32) -> Result<(), Miss> {
        for row in rows {
            self.rows.push(Row { text: *row, n })?;
        }
        Ok(())
    }
}

impl<'t> Repeat<'t> {
    /// Returns the repeat of the words `50 from 7 by 2`.
    fn of(alloc: Global, words: &str) -> Result<Repeat<'t>, Miss> {
        let (count, range) = words.split_once(" from ").ok_or("no from")?;
        let (first, step) = range.split_once(" by ").ok_or("no by")?;
        Ok(Repeat {
            count: number(count)?,
            first: number(first)?,
            step: number(step)?,
            rows: Vec::new(alloc),
        })
    }
}
