//! What is written to the peer.

use crate::model::history::Life;
use crate::model::{Model, Session, low};
use amqp_perform::{
    Attach, Begin, Close, Detach, Disposition, End, Flow, Open, Outcome as Settlement,
    Performative, Role, write_frame,
};
use std::alloc::AllocError;

/// More than any answer has.
const ROOM: usize = 1600;

impl Model {
    fn write(&mut self, channel: u16, performative: &Performative<'_>) -> Result<(), AllocError> {
        let mut frame = Vec::from_elem(self.alloc, 0, ROOM)?;
        let len = write_frame(channel, performative, &[], frame.as_mut_slice()).unwrap_or(0);
        self.unsent
            .extend_from_slice(frame.get(..len).unwrap_or(&[]))
    }

    /// How long a frame on channel 0 would be.
    pub(super) fn length(&self, performative: &Performative<'_>) -> Result<u64, AllocError> {
        let mut frame = Vec::from_elem(self.alloc, 0, ROOM)?;
        let len = write_frame(0, performative, &[], frame.as_mut_slice()).unwrap_or(ROOM);
        Ok(len as u64)
    }

    pub(super) fn write_open(&mut self) -> Result<(), AllocError> {
        self.has_written_open = true;
        let open = Performative::Open(Open {
            container_id: "r",
            hostname: &[],
            max_frame_size: self.settings.max_frame,
            channel_max: self.channel_limit,
            idle_time_out: &[],
            outgoing_locales: &[],
            incoming_locales: &[],
            offered_capabilities: &[],
            desired_capabilities: &[],
            properties: &[],
        });
        self.write(0, &open)
    }

    pub(super) fn write_begin(&mut self, session: Session) -> Result<(), AllocError> {
        let begin = Performative::Begin(Begin {
            remote_channel: Some(session.channel),
            next_outgoing_id: 0,
            incoming_window: self.settings.window,
            outgoing_window: 0,
            handle_max: session.handle_max,
            offered_capabilities: &[],
            desired_capabilities: &[],
            properties: &[],
        });
        self.write(session.channel, &begin)
    }

    pub(super) fn write_attach(
        &mut self,
        channel: u16,
        attach: Attach<'_>,
    ) -> Result<(), AllocError> {
        self.write(channel, &Performative::Attach(attach))
    }

    /// The flow of a session.
    pub(super) fn write_session_flow(&mut self, session: Session) -> Result<(), AllocError> {
        let flow = self.flow(session);
        self.write(session.channel, &Performative::Flow(flow))
    }

    /// The flow of a link.
    pub(super) fn write_link_flow(
        &mut self,
        session: Session,
        handle: u32,
        life: Life,
    ) -> Result<(), AllocError> {
        let flow = Flow {
            handle: Some(handle),
            delivery_count: Some(self.history.count(life)),
            link_credit: Some(low(self.history.credit(life.link))),
            drain: self.history.is_marked(life.link),
            ..self.flow(session)
        };
        self.write(session.channel, &Performative::Flow(flow))
    }

    fn flow(&self, session: Session) -> Flow<'static> {
        Flow {
            next_incoming_id: Some(self.history.next_incoming_id(session.life)),
            incoming_window: low(self.window(session)),
            next_outgoing_id: 0,
            outgoing_window: 0,
            handle: None,
            delivery_count: None,
            link_credit: None,
            available: None,
            drain: false,
            echo: false,
            properties: &[],
        }
    }

    pub(super) fn write_disposition(
        &mut self,
        channel: u16,
        (first, last): (u32, u32),
        settled: bool,
        outcome: Settlement,
    ) -> Result<(), AllocError> {
        let disposition = Performative::Disposition(Disposition {
            role: Role::Receiver,
            first,
            last: if first == last { None } else { Some(last) },
            settled,
            state: outcome.span(),
            batchable: &[],
        });
        self.write(channel, &disposition)
    }

    pub(super) fn write_detach(
        &mut self,
        channel: u16,
        handle: u32,
        closed: bool,
        error: &'static [u8],
    ) -> Result<(), AllocError> {
        let detach = Performative::Detach(Detach {
            handle,
            closed,
            error,
        });
        self.write(channel, &detach)
    }

    pub(super) fn write_end(
        &mut self,
        channel: u16,
        error: &'static [u8],
    ) -> Result<(), AllocError> {
        self.write(channel, &Performative::End(End { error }))
    }

    pub(super) fn write_close(&mut self, error: &'static [u8]) -> Result<(), AllocError> {
        self.write(0, &Performative::Close(Close { error }))
    }

    pub(super) fn write_empty(&mut self) -> Result<(), AllocError> {
        self.unsent
            .extend_from_slice(b"\x00\x00\x00\x08\x02\x00\x00\x00")
    }
}
