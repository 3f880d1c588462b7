//! The entries of a batch: who sends on a link, and the records of its messages.

ghost use Rattle.std.specs.Prelude.{◌≡◌, ◌≢◌, ℕ, ◌+◌, ◌<◌, ◌≤◌, ◌^◌, ◌∷◌, ◌++◌, ◌↔◌, List, [], length, None, IfSome, OnOk, IsTrue};
ghost use Rattle.std.specs.Int.{w16, w32, w64, to_be_bytes};
ghost use Rattle.amqp_spool.specs.Entries.{BeginsEntry, Introduced, Recorded, IsIntroduced, short, long, introduction, record_entry};
ghost use Rattle.amqp_spool.specs.Entries.{Entry as BatchEntry};
ghost use Rattle.amqp_spool.specs.Waitings.{numbered, IsKept};
ghost use Rattle.amqp_spool.specs.EntryReading.{introduced_in, recorded_in, entry_in, IsWhole, GoesOnIntroducing, GoesOnRecording, HoldsEntries};

use std::alloc::AllocError;

/// The most bytes that the address of a peer has.
pub(crate) const PEER_MOST: u8 = 58;

/// The most bytes that a delivery-tag has.
pub(crate) const TAG_MOST: u8 = 32;

/// The last number of a kind of target.
pub(crate) const KIND_MOST: u8 = 3;

/// The most bytes that a target has.
pub(crate) const TARGET_MOST: u16 = 1024;

/// How many bytes a record has before the length of its message, which has 4.
const BEFORE_LENGTH: usize = 14;

/// Who sends on a link.
#[derive(Clone, Copy, Debug, PartialEq, Eq)]
pub struct Introduction<'a> {
    /// The number of the link, for the life of the gateway.
    pub link: u32,
    /// The number of the connection.
    pub connection: u64,
    /// The address of the peer, at most 58 bytes.
    pub peer: &'a [u8],
    /// The container-id of the peer, at most 255 bytes.
    pub container: &'a [u8],
    /// The name of the link, at most 255 bytes.
    pub name: &'a [u8],
    /// The user, at most 255 bytes. It is empty if none is known.
    pub user: &'a [u8],
    /// What the target is, below 4.
    pub kind: u8,
    /// The address of the target, or the target itself, encoded, if it is no string. It has at most 1024 bytes.
    pub target: &'a [u8],
}

/// A message that arrived on a link.
#[derive(Clone, Copy, Debug, PartialEq, Eq)]
pub struct Record<'a> {
    /// The number of the link.
    pub link: u32,
    /// The delivery-tag, at most 32 bytes.
    pub tag: &'a [u8],
    /// The record: 18 bytes, the last 4 of which are the length of the message, and the message.
    pub record: &'a [u8],
}

/// An entry of a batch.
#[derive(Clone, Copy, Debug, PartialEq, Eq)]
pub enum Entry<'a> {
    Introduction(Introduction<'a>),
    Record(Record<'a>),
}

/// The entries of a body, one after the other.
#[derive(Clone, Copy, Debug, PartialEq, Eq)]
pub struct Entries<'a> {
    /// The bytes that are not read yet.
    pub rest: &'a [u8],
}

impl<'a> Entries<'a> {
    /// Returns the entries of the body, from the first on.
    pub fn new(body: &'a [u8]) -> Entries<'a>
        ensures { result.rest.now ≡ body.now }
    {
        Entries { rest: body }
    }

    /// Reads the next entry. Returns `None`, and then each time, if the bytes that are left begin with none.
    pub fn next(&mut self) -> Option<Entry<'a>>
        ensures some { IfSome result (λ e. BeginsEntry self.old.rest.now (entry_in e) self.new.rest.now) }
        ensures none { result ≡ None → (e : BatchEntry) (rest : List ℕ) → BeginsEntry self.old.rest.now e rest → ⊥ }
        ensures stays { result ≡ None → self.new.rest.now ≡ self.old.rest.now }
    {
        let (entry, rest) = next_entry(self.rest)?;
        self.rest = rest;
        Some(entry)
    }

    /// Returns whether all bytes are read.
    pub fn is_at_end(&self) -> bool
        ensures { IsTrue result ↔ (self.now.rest.now ≡ []) }
    {
        self.rest.is_empty()
    }
}

/// Returns whether a body is entries, one after the other, and nothing else.
pub fn holds_entries(body: &[u8]) -> bool
    ensures { IsTrue result ↔ HoldsEntries body.now }
{
    let mut rest = body;
    'entries: while let Some((_, behind)) = next_entry(rest) {
        rest = behind;
    }
    rest.is_empty()
}

/// Reads the entry that these bytes begin with, and returns it and the bytes after it. Returns `None` if they
/// begin with none.
pub fn next_entry<'a>(bytes: &'a [u8]) -> Option<(Entry<'a>, &'a [u8])>
    ensures some { IfSome result (λ x. BeginsEntry bytes.now (entry_in x.0) x.1.now) }
    ensures none { result ≡ None → (e : BatchEntry) (rest : List ℕ) → BeginsEntry bytes.now e rest → ⊥ }
{
    let (kind, rest) = byte_front(bytes, 2)?;
    if kind == 1 {
        let (introduction, rest) = introduction_front(rest)?;
        Some((Entry::Introduction(introduction), rest))
    } else if kind == 2 {
        let (record, rest) = record_front(rest)?;
        Some((Entry::Record(record), rest))
    } else {
        None
    }
}

/// Returns whether these bytes are the introduction of a link of this number, on which sends who this says, whatever
/// number it has.
pub(crate) fn introduces(bytes: &[u8], link: u32, from: &Introduction) -> bool
    ensures { IsTrue result ↔ IsKept link bytes.now (numbered link (introduced_in from.now)) }
{
    match next_entry(bytes) {
        Some((Entry::Introduction(told), rest)) => rest.is_empty() && is_same(&told, link, from),
        Some((Entry::Record(_), _)) => false,
        None => false,
    }
}

/// Returns whether an introduction is this one, with this number of the link.
fn is_same(told: &Introduction, link: u32, from: &Introduction) -> bool
    ensures { IsTrue result ↔ (introduced_in told.now ≡ numbered link (introduced_in from.now)) }
{
    told.link == link
        && told.connection == from.connection
        && told.peer == from.peer
        && told.container == from.container
        && told.name == from.name
        && told.user == from.user
        && told.kind == from.kind
        && told.target == from.target
}

/// Reads an introduction whose first byte was read. Returns `None` if there is none.
fn introduction_front<'a>(bytes: &'a [u8]) -> Option<(Introduction<'a>, &'a [u8])>
    ensures some { IfSome result (λ x. GoesOnIntroducing bytes.now (introduced_in x.0) x.1.now) }
    ensures none { result ≡ None → (i : Introduced) (rest : List ℕ) → GoesOnIntroducing bytes.now i rest → ⊥ }
{
    let (link, rest) = word32_front(bytes)?;
    let (connection, rest) = word64_front(rest)?;
    let (peer, rest) = short_front(rest, PEER_MOST)?;
    let (container, rest) = short_front(rest, u8::MAX)?;
    let (name, rest) = short_front(rest, u8::MAX)?;
    let (user, rest) = short_front(rest, u8::MAX)?;
    let (kind, rest) = byte_front(rest, KIND_MOST)?;
    let (target, rest) = long_front(rest, TARGET_MOST)?;
    let introduction = Introduction {
        link,
        connection,
        peer,
        container,
        name,
        user,
        kind,
        target,
    };
    Some((introduction, rest))
}

/// Reads an entry of a record whose first byte was read. Returns `None` if there is none.
fn record_front<'a>(bytes: &'a [u8]) -> Option<(Record<'a>, &'a [u8])>
    ensures some { IfSome result (λ x. GoesOnRecording bytes.now (recorded_in x.0) x.1.now) }
    ensures none { result ≡ None → (r : Recorded) (rest : List ℕ) → GoesOnRecording bytes.now r rest → ⊥ }
{
    let (link, rest) = word32_front(bytes)?;
    let (tag, rest) = short_front(rest, TAG_MOST)?;
    let (record, rest) = whole_front(rest)?;
    Some((Record { link, tag, record }, rest))
}

/// Reads a whole record, by the length of the message in it. Returns `None` if there is none.
pub(crate) fn whole_front(bytes: &[u8]) -> Option<(&[u8], &[u8])>
    ensures is { IfSome result (λ x. IsWhole x.0.now) }
    ensures some { IfSome result (λ x. bytes.now ≡ x.0.now ++ x.1.now) }
    ensures none { result ≡ None → (record_ rest : List ℕ) → IsWhole record_ → bytes.now ≢ record_ ++ rest }
{
    let (_, behind) = front(bytes, BEFORE_LENGTH)?;
    let (len, behind) = word32_front(behind)?;
    let (_, _) = front(behind, len as usize)?;
    let (record, rest) = front(bytes, BEFORE_LENGTH + 4 + len as usize)?;
    Some((record, rest))
}

/// Reads at most `most` bytes and their number before them, in 1 byte. Returns `None` if there are none.
fn short_front(bytes: &[u8], most: u8) -> Option<(&[u8], &[u8])>
    ensures within { IfSome result (λ x. length x.0.now ≤ most) }
    ensures some { IfSome result (λ x. bytes.now ≡ short x.0.now ++ x.1.now) }
    ensures none { result ≡ None → (text rest : List ℕ) → length text ≤ most → bytes.now ≢ short text ++ rest }
{
    let (len, rest) = byte_front(bytes, most)?;
    front(rest, len as usize)
}

/// Reads at most `most` bytes and their number before them, in 2 bytes. Returns `None` if there are none.
fn long_front(bytes: &[u8], most: u16) -> Option<(&[u8], &[u8])>
    ensures within { IfSome result (λ x. length x.0.now ≤ most) }
    ensures some { IfSome result (λ x. bytes.now ≡ long x.0.now ++ x.1.now) }
    ensures none { result ≡ None → (text rest : List ℕ) → length text ≤ most → bytes.now ≢ long text ++ rest }
{
    let (len, rest) = word16_front(bytes)?;
    if len > most {
        return None;
    }
    front(rest, len as usize)
}

/// Reads a byte that is at most `most`. Returns `None` if there is none.
fn byte_front(bytes: &[u8], most: u8) -> Option<(u8, &[u8])>
    ensures within { IfSome result (λ x. x.0 ≤ most) }
    ensures some { IfSome result (λ x. bytes.now ≡ x.0 ∷ x.1.now) }
    ensures none { result ≡ None → (n : ℕ) (rest : List ℕ) → n ≤ most → bytes.now ≢ n ∷ rest }
{
    match bytes {
        [byte, rest @ ..] if *byte <= most => Some((*byte, rest)),
        _ => None,
    }
}

/// Reads a number of 2 bytes. Returns `None` if there are fewer.
fn word16_front(bytes: &[u8]) -> Option<(u16, &[u8])>
    ensures some { IfSome result (λ x. bytes.now ≡ to_be_bytes w16 x.0 ++ x.1.now) }
    ensures none { result ≡ None → (n : ℕ) (rest : List ℕ) → bytes.now ≢ to_be_bytes w16 n ++ rest }
{
    let (word, rest) = bytes.split_first_chunk::<2>()?;
    Some((u16::from_be_bytes(*word), rest))
}

/// Reads a number of 4 bytes. Returns `None` if there are fewer.
fn word32_front(bytes: &[u8]) -> Option<(u32, &[u8])>
    ensures within { IfSome result (λ x. x.0 < 2 ^ 32) }
    ensures some { IfSome result (λ x. bytes.now ≡ to_be_bytes w32 x.0 ++ x.1.now) }
    ensures none { result ≡ None → (n : ℕ) (rest : List ℕ) → bytes.now ≢ to_be_bytes w32 n ++ rest }
{
    let (word, rest) = bytes.split_first_chunk::<4>()?;
    Some((u32::from_be_bytes(*word), rest))
}

/// Reads a number of 8 bytes. Returns `None` if there are fewer.
fn word64_front(bytes: &[u8]) -> Option<(u64, &[u8])>
    ensures within { IfSome result (λ x. x.0 < 2 ^ 64) }
    ensures some { IfSome result (λ x. bytes.now ≡ to_be_bytes w64 x.0 ++ x.1.now) }
    ensures none { result ≡ None → (n : ℕ) (rest : List ℕ) → bytes.now ≢ to_be_bytes w64 n ++ rest }
{
    let (word, rest) = bytes.split_first_chunk::<8>()?;
    Some((u64::from_be_bytes(*word), rest))
}

/// Returns the first `n` bytes and those after them. Returns `None` if there are fewer.
fn front(bytes: &[u8], n: usize) -> Option<(&[u8], &[u8])>
    ensures len { IfSome result (λ x. length x.0.now ≡ n) }
    ensures some { IfSome result (λ x. bytes.now ≡ x.0.now ++ x.1.now) }
    ensures none { result ≡ None → length bytes.now < n }
{
    if bytes.len() < n {
        return None;
    }
    Some(bytes.split_at(n))
}

/// Appends an introduction. After an error, what was appended means nothing.
#[tactic(auto, unfolding(crate::specs::Entries::introduction))]
pub fn put_introduction(out: &mut Vec<u8>, i: &Introduction) -> Result<(), AllocError>
    requires { IsIntroduced (introduced_in i.now) }
    ensures { OnOk result (out.new.items ≡ out.old.items ++ introduction (introduced_in i.now)) }
{
    out.push(1)?;
    out.extend_from_slice(&i.link.to_be_bytes())?;
    out.extend_from_slice(&i.connection.to_be_bytes())?;
    put_short(out, i.peer)?;
    put_short(out, i.container)?;
    put_short(out, i.name)?;
    put_short(out, i.user)?;
    out.push(i.kind)?;
    put_long(out, i.target)
}

/// Appends an entry of a record, whose bytes these are, on a link. After an error, what was appended means nothing.
#[tactic(auto, unfolding(crate::specs::Entries::record_entry))]
pub fn put_record(out: &mut Vec<u8>, link: u32, tag: &[u8], bytes: &[u8]) -> Result<(), AllocError>
    requires { length tag.now ≤ 32 }
    ensures { OnOk result (out.new.items ≡ out.old.items ++ record_entry (record { link = link; tag = tag.now; «record» = bytes.now })) }
{
    out.push(2)?;
    out.extend_from_slice(&link.to_be_bytes())?;
    put_short(out, tag)?;
    out.extend_from_slice(bytes)
}

/// Appends bytes and their number before them, in 1 byte.
fn put_short(out: &mut Vec<u8>, bytes: &[u8]) -> Result<(), AllocError>
    requires { length bytes.now ≤ 255 }
    ensures { OnOk result (out.new.items ≡ out.old.items ++ short bytes.now) }
{
    out.push(bytes.len() as u8)?;
    out.extend_from_slice(bytes)
}

/// Appends bytes and their number before them, in 2 bytes.
fn put_long(out: &mut Vec<u8>, bytes: &[u8]) -> Result<(), AllocError>
    requires { length bytes.now < 2 ^ 16 }
    ensures { OnOk result (out.new.items ≡ out.old.items ++ long bytes.now) }
{
    out.extend_from_slice(&(bytes.len() as u16).to_be_bytes())?;
    out.extend_from_slice(bytes)
}
