//! One connection: how far it has come, and what is at its channels.
ghost use Rattle.std.specs.Prelude.{◌≡◌, ◌≤◌, ◌<◌, ◌+◌, ◌^◌, true, false, Some, None, IfOk, OnOk, OnErr, option_map, length, map, sum_by};
ghost use Rattle.amqp_session.specs.declared.slot.Slot.TheVariants.{Free, Live, Waits};
ghost use Rattle.amqp_session.specs.Frames.{Frame};
ghost use Rattle.std.specs.Option.{option_copied, option_copied_mut};
ghost use Rattle.std.specs.Borrow.{sem};
ghost use Rattle.amqp_session.specs.Places.{live_in, tabulate};
ghost use Rattle.amqp_endpoint.specs.ConnectionLending.{LendsChannel};
ghost use Rattle.amqp_session.specs.Sessions.{SessionState, session_begins};
ghost use Rattle.amqp_endpoint.specs.Acting.{TakesIn, FrameDone};
ghost use Rattle.amqp_endpoint.specs.Fields.{frame_in};
ghost use Rattle.amqp_endpoint.specs.Connections.{connection_begins, connection_after, connection_ready, connection_bytes, channel_ready, channel_limit, slot_at, Opened, Broken, Failed, CloseAsked, PeerClosed, Lost, HeaderRefused, Finished, Begun, SessionFailed, SessionEnded, channel_bytes};
ghost use Rattle.amqp_endpoint.specs.Lending.{LendsSession, LendsPlace};

use crate::config::Config;
use crate::frames;
use crate::introduction::Introduction;
use crate::phase::Phase;
use amqp_perform::Performative;
use amqp_session::{Done, Session, SessionFault, SessionTerms, Slot};
use std::alloc::{AllocError, Allocator, Global};
use std::marker::Model;

/// How far a connection has come, how it ended, and what is at its channels [2.4.6].
#[derive(Drop)]
pub struct Connection<A: Allocator + Copy = Global> {
    alloc: A,
    config: Config<A>,
    phase: Phase,
    failed: bool,
    closed: bool,
    /// What the peer said of itself in its open.
    peer: Option<Introduction>,
    places: Vec<Place<A>, A>,
}

impl<A: Allocator + Copy> Model for Connection<A> {
    ghost use Rattle.amqp_endpoint.specs.Connections.{ConnectionState};
    ghost use Rattle.amqp_endpoint.specs.Keeping.{connection_of, IsPlaced};

    ghost Value = { ConnectionState };

    ghost view = { λ a. connection_of a.config a.phase a.failed a.closed a.peer a.places.items };

    ghost invariant = { λ a. IsPlaced a.config a.phase a.places.items };
}

impl<A: Allocator + Copy> Connection<A> {
    /// Makes a connection as it is before its header. It is an error if memory for its channels is refused.
    pub fn new(alloc: A, config: Config<A>) -> Result<Self, AllocError>
        ensures { IfOk result (λ c. c ≡ connection_begins config) }
    {
        let count = config.channel_max() as usize + 1;
        let places = free_places(alloc, count)?;
        Ok(Connection {
            alloc,
            config,
            phase: Phase::Unopened,
            failed: false,
            closed: false,
            peer: None,
            places,
        })
    }

    /// Returns what the connection was set up with.
    pub fn config(&self) -> &Config<A>
        ensures { result.now ≡ self.now.config }
    {
        &self.config
    }

    /// Returns how far the connection has come.
    pub fn phase(&self) -> Phase
        ensures { result ≡ self.now.phase }
    {
        self.phase
    }

    /// Returns whether this side ended the connection with an error, or refused its header.
    pub fn has_failed(&self) -> bool
        ensures { result ≡ self.now.failed }
    {
        self.failed
    }

    /// Returns whether the peer's close came.
    pub fn is_closed(&self) -> bool
        ensures { result ≡ self.now.closed }
    {
        self.closed
    }

    /// Returns what the peer said of itself in its open; `None` if that has not come.
    pub fn peer(&self) -> Option<&Introduction>
        ensures { option_copied result ≡ self.now.peer }
    {
        self.peer.as_ref()
    }

    /// Returns the highest channel on which frames are taken.
    pub fn channel_limit(&self) -> u16
        ensures value { result ≡ channel_limit self.now.phase }
        ensures offered { result ≤ self.now.config.channel_max }
        ensures most { result < 256 }
    {
        match self.phase {
            Phase::Open { channel_max, .. } => channel_max as u16,
            _ => 0,
        }
    }

    /// Returns what is at a channel.
    pub fn place(&self, channel: u8) -> &Place<A>
        requires { channel ≤ self.now.config.channel_max }
        ensures { result.now ≡ slot_at self.now channel }
    {
        &self.places[channel as usize]
    }

    /// Returns how many deliveries are ready, on all links.
    fn ready(&self) -> u32
        ensures { result ≡ connection_ready self.now }
    {
        ready(&self.places)
    }

    /// Returns the bytes held. The pattern names all fields, so that a new one must be listed here.
    pub fn held(&self) -> u64
        ensures value { result ≡ connection_bytes self.now }
        ensures most { result < 2 ^ 61 }
    {
        let Connection {
            alloc: _,
            config: _,
            phase: _,
            failed: _,
            closed: _,
            peer: _,
            places,
        } = self;
        held(places)
    }

    /// Opens the connection after the peer's open, in which it said this of itself.
    pub fn open(&mut self, max_frame_size: u32, channel_max: u8, said: Introduction)
        requires { channel_max ≤ self.old.config.channel_max }
        ensures { self.new ≡ connection_after self.old (Opened max_frame_size channel_max said) }
    {
        self.peer = Some(said);
        self.phase = Phase::Open {
            max_frame_size,
            channel_max,
        };
    }

    /// Closes the connection with an error of this side. Returns how many ready deliveries were dropped.
    pub fn close_with_error(&mut self) -> u32
        ensures new { self.new ≡ connection_after self.old Failed }
        ensures dropped { result ≡ connection_ready self.old }
    {
        let dropped = self.ready();
        self.failed = true;
        self.phase = Phase::Closing;
        free_all(&mut self.places);
        dropped
    }

    /// Closes the connection for the application. Returns how many ready deliveries were dropped.
    pub fn close(&mut self) -> u32
        ensures new { self.new ≡ connection_after self.old CloseAsked }
        ensures dropped { result ≡ connection_ready self.old }
    {
        let dropped = self.ready();
        self.phase = Phase::Closing;
        free_all(&mut self.places);
        dropped
    }

    /// Ends the connection after the peer's close. Returns how many ready deliveries were dropped.
    pub fn peer_closed(&mut self) -> u32
        ensures new { self.new ≡ connection_after self.old PeerClosed }
        ensures dropped { result ≡ connection_ready self.old }
    {
        let dropped = self.ready();
        self.closed = true;
        self.phase = Phase::Dead;
        free_all(&mut self.places);
        dropped
    }

    /// Ends the connection after a malformed frame. Returns how many ready deliveries were dropped.
    pub fn fail_at_once(&mut self) -> u32
        ensures new { self.new ≡ connection_after self.old Broken }
        ensures dropped { result ≡ connection_ready self.old }
    {
        let dropped = self.ready();
        self.failed = true;
        self.phase = Phase::Dead;
        free_all(&mut self.places);
        dropped
    }

    /// Ends the connection after a header that is not acceptable.
    pub fn refuse_header(&mut self)
        ensures { self.new ≡ connection_after self.old HeaderRefused }
    {
        self.failed = true;
        self.phase = Phase::Dead;
        free_all(&mut self.places);
    }

    /// Ends the connection after a malformed frame, while the peer's close was awaited.
    pub fn drop_silently(&mut self)
        ensures { self.new ≡ connection_after self.old Lost }
    {
        self.phase = Phase::Dead;
        free_all(&mut self.places);
    }

    /// Ends the connection at the end of its input.
    pub fn finish(&mut self)
        ensures { self.new ≡ connection_after self.old Finished }
    {
        self.phase = Phase::Dead;
        free_all(&mut self.places);
    }

    /// Begins a session on a channel where nothing is. If memory is refused, nothing has changed.
    pub fn begin(&mut self, channel: u8, terms: SessionTerms) -> Result<(), AllocError>
        requires { channel ≤ self.old.config.channel_max }
        ensures new { OnOk result (self.new ≡ connection_after self.old (Begun channel terms)) }
        ensures err { OnErr result (self.new ≡ self.old) }
    {
        let session = KeptSession::begin(self.alloc, terms)?;
        self.places[channel as usize] = Slot::Live(session);
        Ok(())
    }

    /// Ends the session on a channel with an error of this side. Returns how many ready deliveries were
    /// dropped.
    pub fn fail_session(&mut self, channel: u8) -> u32
        requires { channel ≤ self.old.config.channel_max }
        ensures new { self.new ≡ connection_after self.old (SessionFailed channel) }
        ensures dropped { result ≡ channel_ready (slot_at self.old channel) }
    {
        let place = channel as usize;
        let dropped = place_ready(&self.places[place]);
        self.places[place] = Slot::Waits;
        dropped
    }

    /// Frees a channel after the peer's end of its session. Returns how many ready deliveries were dropped.
    pub fn session_ended(&mut self, channel: u8) -> u32
        requires { channel ≤ self.old.config.channel_max }
        ensures new { self.new ≡ connection_after self.old (SessionEnded channel) }
        ensures dropped { result ≡ channel_ready (slot_at self.old channel) }
    {
        let place = channel as usize;
        let dropped = place_ready(&self.places[place]);
        self.places[place] = Slot::Free;
        dropped
    }

    /// Lets the live session on a channel take a frame. If it is refused, nothing has changed.
    #[tactic(auto, using(crate::proofs::Lent::went_on, crate::proofs::Lent::stayed))]
    pub fn frame(
        &mut self,
        channel: u8,
        performative: &Performative<'_>,
        payload: &[u8],
    ) -> Result<Done, SessionFault>
        requires channel { channel ≤ self.old.config.channel_max }
        requires live { TakesIn (slot_at self.old channel) performative.now }
        ensures { (s : SessionState) (f : Frame) → slot_at self.old channel ≡ Live s → frame_in self.old.config performative.now payload.now ≡ Some f → FrameDone self.old self.new channel s f result }
    {
        let bounds = self.config.bounds_for(frames::named(performative));
        match self.session_mut(channel.into()) {
            Some(session) => session.frame(performative, payload, bounds),
            None => unreachable!(),
        }
    }

    /// Returns the live session on a channel; `None` if none is live.
    pub fn session(&self, channel: u16) -> Option<&Session<A>>
        ensures { option_map (λ s. s.now) result ≡ live_in (slot_at self.now channel) }
    {
        match self.places.get(channel as usize) {
            Some(Slot::Live(kept)) => Some(kept.session()),
            _ => None,
        }
    }

    /// Lends the live session on a channel; `None` if none is live.
    pub fn session_mut(&mut self, channel: u16) -> Option<&mut Session<A>>
        ensures* writes_back { sem 𝓛 (LendsChannel A.row A.Allocator self.entry channel result) }
        ensures value { option_copied_mut result ≡ live_in (slot_at self.old channel) }
    {
        let place = channel as usize;
        if place >= self.places.len() {
            return None;
        }
        match session_mut(&mut self.places[place]) {
            Some(session) => Some(session),
            None => None,
        }
    }
}

/// A live session in a box, so that a place takes the room of one reference.
#[derive(Drop)]
pub struct KeptSession<A: Allocator + Copy = Global> {
    session: Box<Session<A>, A>,
}

impl<A: Allocator + Copy> Model for KeptSession<A> {
    ghost use Rattle.amqp_session.specs.Sessions.{SessionState};

    ghost Value = { SessionState };

    ghost view = { λ a. a.session.value };
}

/// What is at a channel.
pub type Place<A> = Slot<KeptSession<A>>;

impl<A: Allocator + Copy> KeptSession<A> {
    /// Makes a session as it is at its begin. It is an error if memory is refused.
    pub fn begin(alloc: A, terms: SessionTerms) -> Result<Self, AllocError>
        ensures { IfOk result (λ s. s ≡ session_begins terms) }
    {
        Ok(KeptSession {
            session: Box::new(alloc, Session::begin(alloc, terms))?,
        })
    }

    /// Lends the session.
    fn session_mut(&mut self) -> &mut Session<A>
        ensures* writes_back { sem 𝓛 (LendsSession A.row A.Allocator self.entry result) }
        ensures value { result.now ≡ self.old }
    {
        &mut self.session
    }

    /// Returns the session.
    pub fn session(&self) -> &Session<A>
        ensures { result.now ≡ self.now }
    {
        &self.session
    }
}

/// Lends the live session at a place; `None` if none is live.
fn session_mut<A: Allocator + Copy>(place: &mut Place<A>) -> Option<&mut Session<A>>
    ensures* writes_back { sem 𝓛 (LendsPlace A.row A.Allocator place.entry result) }
    ensures value { option_copied_mut result ≡ live_in place.old }
{
    match place {
        Slot::Live(kept) => Some(kept.session_mut()),
        _ => None,
    }
}

/// Makes `count` free places. It is an error if memory is refused.
fn free_places<A: Allocator + Copy>(alloc: A, count: usize) -> Result<Vec<Place<A>, A>, AllocError>
    requires { count ≤ 256 }
    ensures { IfOk result (λ places. places.items ≡ tabulate 0 count (λ k. Free)) }
{
    let mut places = Vec::with_capacity(alloc, count)?;
    for _added in 0..count {
        places.push_reserved(Slot::Free);
    }
    Ok(places)
}

/// Returns the bytes held for a place.
fn place_held<A: Allocator + Copy>(place: &Place<A>) -> u64
    ensures value { result ≡ channel_bytes place.now }
    ensures most { result < 2 ^ 52 }
{
    match place {
        Slot::Free => 0,
        Slot::Live(KeptSession { session }) => session.held(),
        Slot::Waits => 64,
    }
}

/// Returns how many deliveries are ready at a place.
fn place_ready<A: Allocator + Copy>(place: &Place<A>) -> u32
    ensures value { result ≡ channel_ready place.now }
    ensures most { result ≤ 2 ^ 18 }
{
    match place {
        Slot::Live(kept) => kept.session().ready(),
        _ => 0,
    }
}

/// Returns how many deliveries are ready at all places.
fn ready<A: Allocator + Copy>(places: &[Place<A>]) -> u32
    requires { length places.now ≤ 256 }
    ensures { result ≡ sum_by channel_ready places.now }
{
    let mut ready = 0;
    for place in places {
        ready += place_ready(place);
    }
    ready
}

/// Frees all places.
fn free_all<A: Allocator + Copy>(places: &mut [Place<A>])
    ensures { places.new ≡ map (λ x. Free) places.old }
{
    for place in places.iter_mut() {
        *place = Slot::Free;
    }
}

/// Returns the bytes held for all places.
fn held<A: Allocator + Copy>(places: &[Place<A>]) -> u64
    requires { length places.now ≤ 256 }
    ensures value { result ≡ sum_by channel_bytes places.now }
    ensures most { result < 2 ^ 61 }
{
    let mut held = 0;
    for place in places {
        held += place_held(place);
    }
    held
}
