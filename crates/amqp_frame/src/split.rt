//! Cutting a stream into its units.
ghost use Rattle.std.specs.Prelude.{slice_index, ◌≡◌, ℕ, ◌+◌, ◌*◌, ◌⊎◌, ◌<◌, ◌≤◌, ◌++◌, [], ◌∷◌, List, length, take, IfOk, IfSome, IfNone, IsTrue, ◌↔◌};
ghost use Rattle.amqp_frame.specs.Units.{StreamUnit, HeaderUnit, IsRest, due_after, offset_of, channel_of, body_of};
ghost use Rattle.std.specs.Borrow.{sem};
ghost use Rattle.amqp_frame.specs.Rooms.{whole_length};
ghost use Rattle.amqp_frame.specs.SplitLends.{LendsRoom};
ghost use Rattle.amqp_frame.specs.Splits.{IsHeld, IsJudged, IsSound, IsFilled, IsWanted, IsWholeIn, IsLentFront, IsOver, TakesNothing, IsOne, AsksNext, Asks, MayCome, IsTaken, Waits, IsUnchanged, IsEmptied, IsFrameAnswer, IsNext, WentBy};

use crate::room::Room;
use crate::units::{Frame, FrameFault, HEADER, Progress, Stage, progress_of, whole_size};
use byteorder::{BigEndian, ByteOrder};
use std::alloc::{AllocError, Allocator, Global};
use std::marker::Model;

/// Cuts a stream into units, however its bytes come.
#[derive(Drop)]
pub struct Splitter<A: Allocator + Copy = Global> {
    limit: usize,
    stage: Stage,
    /// How far the frame has come, if one is due.
    progress: Progress,
    bytes: Room<A>,
}

impl<A: Allocator + Copy> Model for Splitter<A> {
    ghost use Rattle.amqp_frame.specs.Rooms.{whole_length};
    ghost use Rattle.amqp_frame.specs.Splits.{SplitterState, IsSound};

    ghost Value = { SplitterState };

    ghost view = { λ a. record { limit = a.limit; stage = a.stage; filled = a.bytes.filled; spare = a.bytes.spare; reach = a.bytes.reach } };

    ghost invariant = { λ a. IsSound a.limit a.stage a.bytes.filled (whole_length a.bytes) a.progress };
}

impl<A: Allocator + Copy> Splitter<A> {
    /// Makes a splitter at the start of a stream, which accepts frames of up to `max` bytes, at least 8.
    ///
    /// It reserves `max` bytes at once, and takes no memory after that. An error says that they are refused.
    pub fn new(alloc: A, max: usize) -> Result<Self, AllocError>
        requires { 8 ≤ max }
        ensures value { IfOk result (λ s. (s.limit ≡ max) × (s.stage ≡ Stage.Header) × (s.filled ≡ []) × (length s.spare ≡ max)) }
        ensures held { IfOk result (λ s. IsHeld s.limit s.stage s.filled) }
        ensures history { IfOk result (λ s. WentBy s [] []) }
    {
        Ok(Splitter {
            limit: max,
            stage: Stage::Header,
            progress: Progress::START,
            bytes: Room::new(alloc, max)?,
        })
    }

    /// Takes bytes of `piece` up to the end of the header, of one frame, or to the byte that shows
    /// a fault, and returns how many.
    ///
    /// It takes none while a unit waits, and none any more once a header that is not [`HEADER`] or a
    /// fault went by. Of a frame at most four bytes are taken before its SIZE is judged.
    pub fn push(&mut self, piece: &[u8]) -> usize
        ensures bound { result ≤ length piece.now }
        ensures limit { self.new.limit ≡ self.old.limit }
        ensures stage { self.new.stage ≡ self.old.stage }
        ensures filled { self.new.filled ≡ self.old.filled ++ take result piece.now }

        // It stops only if a unit waits or nothing is taken any more, and then it takes nothing.
        ensures all { result < length piece.now → TakesNothing self.new }
        ensures full { TakesNothing self.old → result ≡ 0 }
        ensures some { result ≡ 0 → 0 < length piece.now → TakesNothing self.old }

        // What is held is less than a unit or one unit, and was less before the last byte.
        ensures held { IsHeld self.new.limit self.new.stage self.new.filled }
        ensures early { (k : ℕ) → k < result → IsRest self.old.limit self.old.stage (self.old.filled ++ take k piece.now) }

        ensures history { (us : List StreamUnit) (taken : List ℕ) → WentBy self.old us taken → WentBy self.new us (taken ++ take result piece.now) }
    {
        fill(
            self.limit,
            self.stage,
            &mut self.progress,
            &mut self.bytes,
            piece,
        )
    }

    /// Returns how many bytes are wanted next. [2.2, 2.3.1]
    ///
    /// Of the header, these are what is left of its eight bytes. Of a frame, these are what is left of SIZE's four,
    /// then of the eight of its header, then of SIZE. Returns 0 while a unit waits, and once a header that is not
    /// [`HEADER`] or a fault went by.
    pub fn wants(&self) -> usize
        ensures asks { Asks self.now result }
        ensures none { result ≡ 0 → TakesNothing self.now }
    {
        wanted(self.limit, self.stage, self.progress, self.bytes.as_slice())
    }

    /// Lends room for the bytes that [`Splitter::wants`] counts, to read into. What is in it means nothing.
    pub fn spare(&mut self) -> &mut [u8]
        ensures* writes_back { sem 𝓛 (LendsRoom A.row A.Allocator self.entry result) }
        ensures asks { Asks self.old (length result.now) }
        ensures value { result.now ≡ take (length result.now) self.old.spare }
    {
        let wants = self.wants();
        self.spare_front(wants)
    }

    /// Lends room for `n` bytes to read into, at most as many as [`Splitter::wants`] counts.
    pub fn spare_front(&mut self, n: usize) -> &mut [u8]
        requires { MayCome self.old n }
        ensures* writes_back { sem 𝓛 (LendsRoom A.row A.Allocator self.entry result) }
        ensures length { length result.now ≡ n }
        ensures value { result.now ≡ take n self.old.spare }
    {
        self.bytes.spare(n)
    }

    /// Takes the first `n` bytes of the room that [`Splitter::spare`] lends, as [`Splitter::push`] takes those of a piece.
    pub fn filled(&mut self, n: usize)
        requires { MayCome self.old n }
        ensures taken { IsTaken self.old self.new (take n self.old.spare) n }
        ensures held { IsHeld self.new.limit self.new.stage self.new.filled }
        ensures history { (us : List StreamUnit) (taken : List ℕ) → WentBy self.old us taken → WentBy self.new us (taken ++ take n self.old.spare) }
    {
        self.bytes.fill(n);
        if let Stage::Frames = self.stage {
            self.progress = progress_of(self.limit, self.bytes.as_slice());
        }
    }

    /// A law: each byte of the room that is lent is below 256.
    pub fn spare_is_bytes(&self)
        ensures { (i : ℕ) → slice_index self.now.spare i < 256 }
    {
        self.bytes.spare_is_bytes();
    }

    /// Returns the header's eight bytes while the header waits, and else `None`.
    pub fn header(&self) -> Option<[u8; 8]>
        ensures some { IfSome result (λ bytes. Waits self.now (HeaderUnit bytes)) }
        ensures waiting { (bytes : List ℕ) → Waits self.now (HeaderUnit bytes) → result ≡ Some bytes }
    {
        match self.stage {
            Stage::Header => self.bytes.as_slice().as_array().copied(),
            Stage::Frames | Stage::Refused | Stage::Faulty(_) => None,
        }
    }

    /// Returns the frame that waits, borrowed from the buffer, or the fault. A fault stays: it is returned again.
    pub fn frame(&self) -> Option<Result<Frame<'_>, FrameFault>>
        ensures { IsFrameAnswer self.now result }
    {
        match self.stage {
            Stage::Header | Stage::Refused => None,
            Stage::Faulty(fault) => Some(Err(fault)),
            Stage::Frames => match self.progress {
                Progress::Wants(_) => None,
                Progress::Whole => Some(Ok(frame_in(self.bytes.as_slice()))),
                Progress::Fails(fault) => Some(Err(fault)),
            },
        }
    }

    /// Returns the frame that lies whole at the front of `piece`, borrowed from it, and its length in bytes.
    ///
    /// Returns `None` if no frame is due, if some of it is held already, or if no whole frame is there. [`Splitter::push`] of
    /// these bytes and then [`Splitter::drop_frame`] would leave the splitter as it is. So the frame may be used where it
    /// lies, and is not copied.
    pub fn lent_front<'a>(&self, piece: &'a [u8]) -> Option<(Frame<'a>, usize)>
        ensures { IsLentFront self.now piece.now result }
    {
        let size = whole_in(self.limit, self.stage, self.bytes.as_slice(), piece)?;
        Some((frame_in(&piece[..size]), size))
    }

    /// Drops the unit that waits. If no unit waits, nothing changes.
    ///
    /// After [`HEADER`] or a frame, a frame is due. After another header or a fault nothing is due, and a fault stays.
    pub fn drop_frame(&mut self)
        ensures goes { (u : StreamUnit) → Waits self.old u → IsEmptied self.old self.new (due_after u) }
        ensures stays { (IsOne self.old.limit self.old.stage self.old.filled → ⊥) → IsUnchanged self.old self.new }
        ensures held { IsHeld self.new.limit self.new.stage self.new.filled }
        ensures history { (us : List StreamUnit) (taken : List ℕ) (u : StreamUnit) → WentBy self.old us taken → Waits self.old u → WentBy self.new (us ++ u ∷ []) taken }
    {
        if let Some(next) = next_stage(
            self.limit,
            self.stage,
            self.progress,
            self.bytes.as_slice(),
        ) {
            self.begin(next);
        }
    }

    /// Returns how many bytes are in the buffer: SIZE while a frame waits, 4 or 8 while a fault does. All fields are named,
    /// so a new one does not compile until it is counted here.
    pub fn len(&self) -> usize
        ensures { result ≡ length self.now.filled }
    {
        let Splitter {
            limit: _,
            stage: _,
            progress: _,
            bytes,
        } = self;
        bytes.len()
    }

    /// Returns whether the buffer is empty.
    pub fn is_empty(&self) -> bool
        ensures { IsTrue result ↔ (self.now.filled ≡ []) }
    {
        self.bytes.len() == 0
    }

    /// Empties the buffer at the end of the input, and returns how many bytes it had; `None` if none.
    ///
    /// A unit that waits is dropped as by [`Splitter::drop_frame`]. An incomplete unit stays due.
    pub fn finish(&mut self) -> Option<usize>
        ensures some { IfSome result (λ n. (n ≡ length self.old.filled) × (0 < n)) }
        ensures none { IfNone result (self.old.filled ≡ []) }
        ensures goes { (u : StreamUnit) → Waits self.old u → IsEmptied self.old self.new (due_after u) }
        ensures rest { (IsOne self.old.limit self.old.stage self.old.filled → ⊥) → IsEmptied self.old self.new self.old.stage }
        ensures held { IsHeld self.new.limit self.new.stage self.new.filled }
    {
        let len = self.len();
        self.drop_frame();
        self.begin(self.stage);
        if len > 0 { Some(len) } else { None }
    }

    /// Empties the buffer for what is due next.
    fn begin(&mut self, stage: Stage)
        ensures { IsEmptied self.old self.new stage }
    {
        self.stage = stage;
        self.progress = Progress::START;
        self.bytes.clear();
    }
}

/// Returns how many more bytes may come before the unit that is due is judged again; 0 if it waits, or
/// if nothing is taken any more.
fn wanted(max: usize, stage: Stage, progress: Progress, bytes: &[u8]) -> usize
    requires least { 8 ≤ max }
    requires held { IsHeld max stage bytes.now }
    requires judged { IsJudged max stage bytes.now progress }
    ensures wanted { IsWanted max stage bytes.now result }
    ensures full { result ≡ 0 → IsOne max stage bytes.now ⊎ IsOver stage }
    ensures asked { AsksNext max stage bytes.now result }
{
    match stage {
        Stage::Header => HEADER.len() - bytes.len(),
        Stage::Frames => match progress {
            Progress::Wants(count) => count,
            Progress::Whole | Progress::Fails(_) => 0,
        },
        Stage::Refused | Stage::Faulty(_) => 0,
    }
}

/// Takes bytes up to the place where the unit that is due is judged again, and judges it.
fn fill_once<A: Allocator + Copy>(
    max: usize,
    stage: Stage,
    progress: &mut Progress,
    bytes: &mut Room<A>,
    piece: &[u8],
) -> usize
    requires { IsSound max stage bytes.old.filled (whole_length bytes.old) progress.old }
    ensures filled { IsFilled max stage bytes.old.filled piece.now result bytes.new.filled (whole_length bytes.new) progress.new }
    ensures full { result ≡ 0 → 0 < length piece.now → IsOne max stage bytes.new.filled ⊎ IsOver stage }
{
    let count = wanted(max, stage, *progress, bytes.as_slice()).min(piece.len());
    bytes.extend(&piece[..count]);
    if let Stage::Frames = stage {
        *progress = progress_of(max, bytes.as_slice());
    }
    count
}

/// Takes bytes up to the end of the unit that is due, step by step.
#[inline(never)]
fn fill_by_steps<A: Allocator + Copy>(
    max: usize,
    stage: Stage,
    progress: &mut Progress,
    bytes: &mut Room<A>,
    piece: &[u8],
) -> usize
    requires { IsSound max stage bytes.old.filled (whole_length bytes.old) progress.old }
    ensures filled { IsFilled max stage bytes.old.filled piece.now result bytes.new.filled (whole_length bytes.new) progress.new }
    ensures all { result < length piece.now → IsOne max stage bytes.new.filled ⊎ IsOver stage }
{
    let mut taken = 0;
    while taken < piece.len() {
        let count = fill_once(max, stage, progress, bytes, &piece[taken..]);
        if count == 0 {
            break;
        }
        taken += count;
    }
    taken
}

/// Takes bytes up to the end of the unit that is due. A frame that lies whole in the piece is
/// judged once and copied once.
fn fill<A: Allocator + Copy>(
    max: usize,
    stage: Stage,
    progress: &mut Progress,
    bytes: &mut Room<A>,
    piece: &[u8],
) -> usize
    requires { IsSound max stage bytes.old.filled (whole_length bytes.old) progress.old }
    ensures filled { IsFilled max stage bytes.old.filled piece.now result bytes.new.filled (whole_length bytes.new) progress.new }
    ensures all { result < length piece.now → IsOne max stage bytes.new.filled ⊎ IsOver stage }
{
    match whole_in(max, stage, bytes.as_slice(), piece) {
        Some(size) => {
            bytes.extend(&piece[..size]);
            *progress = Progress::Whole;
            size
        }
        None => fill_by_steps(max, stage, progress, bytes, piece),
    }
}

/// Returns SIZE of the frame that is due, if none of it is held and all of it is at the front of the
/// piece.
fn whole_in(max: usize, stage: Stage, held: &[u8], piece: &[u8]) -> Option<usize>
    ensures { IsWholeIn max stage held.now piece.now result }
{
    match stage {
        Stage::Frames if held.is_empty() => whole_size(max, piece),
        Stage::Header | Stage::Frames | Stage::Refused | Stage::Faulty(_) => None,
    }
}

/// Returns what is due once the unit that waits is dropped; `None` if none waits.
fn next_stage(max: usize, stage: Stage, progress: Progress, bytes: &[u8]) -> Option<Stage>
    requires least { 8 ≤ max }
    requires held { IsHeld max stage bytes.now }
    requires judged { IsJudged max stage bytes.now progress }
    ensures { IsNext max stage bytes.now result }
{
    match stage {
        Stage::Header => {
            if bytes.len() < HEADER.len() {
                None
            } else if bytes == HEADER.as_slice() {
                Some(Stage::Frames)
            } else {
                Some(Stage::Refused)
            }
        }
        Stage::Frames => match progress {
            Progress::Wants(_) => None,
            Progress::Whole => Some(Stage::Frames),
            Progress::Fails(fault) => Some(Stage::Faulty(fault)),
        },
        Stage::Refused | Stage::Faulty(_) => None,
    }
}

/// Returns the channel and the body of a whole frame.
#[tactic(auto, unfolding(crate::specs::Units::channel_of))]
fn frame_in(bytes: &[u8]) -> Frame<'_>
    requires header { 8 ≤ length bytes.now }
    requires body { 4 * offset_of bytes.now ≤ length bytes.now }
    ensures channel { result.channel ≡ channel_of bytes.now }
    ensures body { result.body.now ≡ body_of bytes.now }
{
    let place = 4 * bytes[4] as usize;
    Frame {
        channel: BigEndian::read_u16(&bytes[6..]),
        body: &bytes[place..],
    }
}
