//! Schedules that follow from a number.

use crate::schedule::{MODIFIED, Schedule, Settings};
use amqp_pair::Turn;
use amqp_perform::Outcome;
use std::alloc::Global;
use test_row_files::Miss;

/// Numbers that follow from a first one (xorshift).
#[derive(Drop)]
struct Numbers {
    last: u64,
}

impl Numbers {
    fn of(seed: u64) -> Numbers {
        Numbers {
            last: seed.wrapping_mul(0x9e37_79b9_7f4a_7c15) | 1,
        }
    }

    /// Returns a number below `end`; 0 if that is 0.
    fn below(&mut self, end: u32) -> u32 {
        let mut next = self.last;
        next ^= next << 13;
        next ^= next >> 7;
        next ^= next << 17;
        self.last = next;
        let high = (next >> 32) % (1 << 32);
        (high as u32).checked_rem(end).unwrap_or(0)
    }

    /// Returns whether a draw of one in `count` succeeds.
    fn is_one_of(&mut self, count: u32) -> bool {
        self.below(count) == 0
    }

    /// Returns one of these; 0 of none.
    fn of_these(&mut self, all: &[u32]) -> u32 {
        let at = self.below((all.len() as u64).min(100) as u32);
        all.get(at as usize).copied().unwrap_or(0)
    }
}

/// How many bytes a turn moves.
const COUNTS: [u32; 9] = [0, 1, 8, 20, 64, 100, 512, 3000, 8192];

/// Lengths of messages, at which a frame is just full or just too short among them.
const LENGTHS: [u32; 9] = [0, 1, 2, 487, 489, 490, 600, 979, 2000];

/// The widest window.
const WIDEST: u32 = 0x7fff_ffff;

/// Makes a schedule turn by turn.
#[derive(Drop)]
struct Maker<'a> {
    numbers: Numbers,
    bytes: &'a [u8],
    schedule: Schedule<'a>,
    offers: u32,
}

/// Returns the schedule of a number. Most are short; in a few pipes get full.
pub fn schedule<'a>(alloc: Global, bytes: &'a [u8], seed: u64) -> Result<Schedule<'a>, Miss> {
    let mut numbers = Numbers::of(seed);
    let is_long = numbers.is_one_of(32);
    let settings = settings(&mut numbers, is_long);
    let mut maker = Maker {
        numbers,
        bytes,
        schedule: Schedule::new(alloc, settings),
        offers: 0,
    };
    if !maker.numbers.is_one_of(8) {
        maker.open()?;
    }
    if !maker.numbers.is_one_of(4) {
        maker.offer_with_credit()?;
    }
    let count = maker.numbers.below(80).saturating_add(10);
    for _ in 0..count {
        if is_long && maker.numbers.is_one_of(16) {
            maker.repeat()?;
        } else {
            maker.any()?;
        }
    }
    Ok(maker.schedule)
}

/// Small settings, so that each bound is met; in long schedules those with which pipes get full.
fn settings(numbers: &mut Numbers, is_long: bool) -> Settings {
    if is_long {
        return Settings {
            window: numbers.of_these(&[3, 40, 100, WIDEST]),
            max_frame: numbers.of_these(&[512, 512, 4096, 10_000]),
            allowed: numbers.of_these(&[4, 16]),
            max_message: numbers.of_these(&[2000, 20_000, 30_000]),
        };
    }
    Settings {
        window: numbers.of_these(&[0, 1, 2, 3, 0, 1, 2, 3, 9, WIDEST]),
        max_frame: numbers.of_these(&[512, 512, 512, 600, 5000]),
        allowed: numbers.of_these(&[1, 2, 4, 4]),
        max_message: numbers.of_these(&[1, 600, 2000, 2000]),
    }
}

impl<'a> Maker<'a> {
    fn push(&mut self, turn: Turn<'a>) -> Result<(), Miss> {
        self.schedule.turns.push(turn)?;
        Ok(())
    }

    /// Each end gets all of the other's opening.
    fn open(&mut self) -> Result<(), Miss> {
        for _ in 0..5 {
            self.push(Turn::ToEndpoint(8192))?;
            self.push(Turn::ToSender(8192))?;
        }
        Ok(())
    }

    /// A message is offered for which there is credit, if the ends got as far.
    fn offer_with_credit(&mut self) -> Result<(), Miss> {
        self.push(Turn::Grant(1))?;
        self.offer()?;
        for _ in 0..3 {
            self.push(Turn::ToSender(8192))?;
        }
        Ok(())
    }

    fn any(&mut self) -> Result<(), Miss> {
        let turn = match self.numbers.below(48) {
            0..=12 => Turn::ToEndpoint(self.count()),
            13..=24 => Turn::ToSender(self.count()),
            25..=29 => return self.offer(),
            30..=34 => Turn::Grant(self.numbers.of_these(&[0, 1, 1, 2, 5])),
            35..=37 => Turn::Widen(self.numbers.of_these(&[0, 1, 1, 2, 3, 7, WIDEST])),
            38..=39 => Turn::Drain,
            40..=43 => Turn::Take,
            _ => self.settle(),
        };
        self.push(turn)
    }

    /// Returns how many bytes a turn moves: half of the time all that there are.
    fn count(&mut self) -> usize {
        if self.numbers.is_one_of(2) {
            return 8192;
        }
        self.numbers.of_these(&COUNTS) as usize
    }

    fn offer(&mut self) -> Result<(), Miss> {
        let longest = self.schedule.settings.max_message;
        let len = if self.numbers.is_one_of(4) {
            longest
        } else {
            self.numbers.of_these(&LENGTHS).min(longest)
        };
        let message = self.schedule.message(self.bytes, len).unwrap_or(&[]);
        self.offers = self.offers.saturating_add(1);
        self.push(Turn::Offer(message))
    }

    fn settle(&mut self) -> Turn<'a> {
        let outcome = match self.numbers.below(4) {
            0 => Outcome::Accepted,
            1 => Outcome::Rejected,
            2 => Outcome::Released,
            _ => MODIFIED,
        };
        let id = self.numbers.below(self.offers);
        Turn::Settle { id, outcome }
    }

    /// Makes the same turn many times, mostly with bytes for one end after it.
    fn repeat(&mut self) -> Result<(), Miss> {
        let turn = match self.numbers.below(5) {
            0 => Turn::Grant(0),
            1 => Turn::Widen(0),
            2 => Turn::Drain,
            3 => Turn::ToEndpoint(8192),
            _ => Turn::ToSender(8192),
        };
        let count = self.numbers.below(280).saturating_add(20);
        for _ in 0..count {
            self.push(turn)?;
        }
        match self.numbers.below(3) {
            0 => self.push(Turn::ToSender(8192)),
            1 => self.push(Turn::ToEndpoint(8192)),
            _ => self.offer(),
        }
    }
}
