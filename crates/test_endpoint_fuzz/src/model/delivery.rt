//! A delivery: the transfers of a link from a head up to the next one.

use crate::model::history::Part;

/// Where a delivery's transfers stand in the history, and how it stands.
#[derive(Clone, Copy, Debug)]
pub struct Delivery {
    /// Where its first transfer stands, and its last.
    pub head: usize,
    pub last: usize,
    pub id: u32,
    /// Its mode.
    pub is_second: bool,
    pub is_aborted: bool,
    pub is_whole: bool,
    pub is_taken: bool,
    pub is_settled: bool,
    /// The sender was told what became of it, and has to settle it.
    pub is_told: bool,
    /// The bytes of its tag, and of its payloads that are not aborted.
    pub tag_len: u64,
    pub len: u64,
}

impl Delivery {
    /// That which the transfer at this place begins, on a link of that mode.
    pub fn begun(at: usize, part: &Part, is_second: bool) -> Delivery {
        let named = if part.settled { None } else { part.second };
        Delivery {
            head: at,
            last: at,
            id: part.id.unwrap_or(0),
            is_second: named.unwrap_or(is_second),
            is_aborted: false,
            is_whole: false,
            is_taken: false,
            is_settled: false,
            is_told: false,
            tag_len: match &part.tag {
                Some(tag) => tag.len() as u64,
                None => 0,
            },
            len: 0,
        }
    }

    /// A transfer of it, its first one too.
    pub fn go_on(&mut self, at: usize, part: &Part) {
        self.last = at;
        self.is_aborted = part.aborted;
        self.is_whole = !part.more && !part.aborted;
        self.is_settled = self.is_settled || part.settled;
        if !part.aborted {
            self.len = self.len.saturating_add(part.payload.len() as u64);
        }
    }

    pub fn is_ready(&self) -> bool {
        self.is_whole && !self.is_taken
    }

    pub fn is_open(&self) -> bool {
        !self.is_aborted && !(self.is_taken && self.is_settled)
    }

    /// Returns what counts as held of it.
    pub fn held(&self) -> u64 {
        let message = if self.is_taken { 0 } else { self.len };
        64_u64.saturating_add(self.tag_len).saturating_add(message)
    }
}

/// Returns whether an id is one of a range that goes round, of at most half of all ids.
pub fn covers(first: u32, last: u32, id: u32) -> bool {
    let length = last.wrapping_sub(first);
    length < 1 << 31 && id.wrapping_sub(first) <= length
}
