//! Tests `amqp_addresses` by the rows of `data/`: which addresses a file admits, and why one is refused.
//!
//! `line TEXT` puts a line behind the file, and `line` alone an empty one; `bytes HEX` puts bytes behind it, and `many N TEXT` so many
//! lines of this text with a number behind it, from 0 on. `read N` reads the file, whose lines without a credit have N, and answers the
//! fault, if it has one. `most ADDRESS` answers the most credit of an address, and `most-bytes HEX` of one that is no printable text.
#![tactic(auto)]

use amqp_addresses::Addresses;
use std::alloc::Global;
use std::{env, fs};
use test_heap::TestHeap;
use test_row_files::words::{bytes_of, cut, name_of, number};
use test_row_files::{Miss, RowFile, Subject};

/// A file, and what was read of it last.
#[derive(Drop)]
struct File {
    alloc: Global,
    text: Vec<u8>,
    addresses: Option<Addresses>,
}

impl Subject for File {
    fn begin(&mut self) {
        self.text = Vec::new(self.alloc);
        self.addresses = None;
    }

    fn call(&mut self, alloc: Global, words: &str) -> Result<String, Miss> {
        let (name, rest) = name_of(words);
        match name {
            "line" => self.put(&[rest.as_bytes(), b"\n"])?,
            "bytes" => self.put(&[bytes_of(alloc, rest)?.as_slice()])?,
            "many" => self.put_many(alloc, rest)?,
            "read" => return self.read(alloc, number(rest)?),
            "most" => return self.most(alloc, rest.as_bytes()),
            "most-bytes" => return self.most(alloc, &bytes_of(alloc, rest)?),
            _ => return Err(Miss::Unread("no such call")),
        }
        Ok(String::from_str(alloc, "()")?)
    }

    fn shown(&self, alloc: Global) -> Result<String, Miss> {
        Ok(String::new(alloc))
    }
}

impl File {
    /// Puts these bytes behind the file.
    fn put(&mut self, parts: &[&[u8]]) -> Result<(), Miss> {
        for part in parts {
            self.text.extend_from_slice(part)?;
        }
        Ok(())
    }

    /// Puts so many lines behind it.
    fn put_many(&mut self, alloc: Global, words: &str) -> Result<(), Miss> {
        let (count, text) = cut(words, ' ')?;
        for n in 0..number(count)? {
            let line = format!(in alloc; "{text}{n}\n")?;
            self.put(&[line.as_bytes()])?;
        }
        Ok(())
    }

    /// Reads it.
    fn read(&mut self, alloc: Global, credit: u32) -> Result<String, Miss> {
        self.addresses = None;
        match Addresses::of(self.alloc, &self.text, credit) {
            Ok(addresses) => {
                self.addresses = Some(addresses);
                Ok(String::from_str(alloc, "()")?)
            }
            Err(fault) => Ok(format!(in alloc; "{fault}")?),
        }
    }

    /// Returns the most credit of an address.
    fn most(&self, alloc: Global, address: &[u8]) -> Result<String, Miss> {
        let addresses = self.addresses.as_ref().ok_or("nothing was read")?;
        match addresses.most(address) {
            Some(credit) => Ok(format!(in alloc; "{credit}")?),
            None => Ok(String::from_str(alloc, "None")?),
        }
    }
}

fn main(rt: HostRuntime) -> Result<(), Miss> {
    let heap = TestHeap::new(rt.alloc(), 0);
    for name in env::args(&rt)?.skip(1) {
        let text = fs::read_to_string(&rt, name.as_str())?;
        let file = RowFile::read(rt.alloc(), text.as_str())?;
        let mut subject = File {
            alloc: rt.alloc(),
            text: Vec::new(rt.alloc()),
            addresses: None,
        };
        let report = file.run(rt.alloc(), &heap, &mut subject)?;
        rt.print(report.as_str())?;
    }
    Ok(())
}
