//! The bytes of a sender.

use crate::failure::Failure;
use crate::numbers::Numbers;
use amqp_frame::HEADER;
use amqp_perform::{
    Attach, Begin, Close, Open, Performative, ReceiverSettleMode, Role, SenderSettleMode,
    write_frame,
};
use std::alloc::Global;

/// The longest frame that a sender's open names.
const MAX_FRAME: u32 = 65536;

/// Bytes of payloads: as many as the longest one has, and this many places where one may begin.
const LONGEST: u32 = 32768;

const STARTS: u32 = 32768;

/// More than a frame has that is no transfer, with a map of some keys.
const ROOM: usize = 4096;

/// A transfer that begins a delivery.
#[derive(Clone, Copy)]
pub struct Head {
    pub channel: u16,
    pub handle: u8,
    pub id: u32,
    pub settled: bool,
    pub more: bool,
}

/// What a sender sends.
#[derive(Drop)]
pub struct Peer {
    pub bytes: Vec<u8>,
    payloads: Vec<u8>,
    /// Where a frame is written first.
    room: Vec<u8>,
}

impl Peer {
    /// Nothing yet.
    pub fn new(alloc: Global, numbers: &mut Numbers) -> Result<Peer, Failure> {
        let mut payloads = Vec::new(alloc);
        for _ in 0..(LONGEST + STARTS) / 8 {
            payloads.extend_from_slice(&numbers.next().to_le_bytes())?;
        }
        Ok(Peer {
            bytes: Vec::new(alloc),
            payloads,
            room: Vec::from_elem(alloc, 0, ROOM)?,
        })
    }

    /// Appends a frame without a payload.
    pub fn put(&mut self, channel: u16, performative: &Performative<'_>) -> Result<(), Failure> {
        self.put_long(channel, performative, 0)
    }

    /// Appends a frame with `properties` bytes of room for properties, and without a payload.
    fn put_long(
        &mut self,
        channel: u16,
        performative: &Performative<'_>,
        properties: usize,
    ) -> Result<(), Failure> {
        let needed = properties.saturating_add(ROOM / 2);
        if self.room.len() < needed {
            self.room.resize(needed, 0)?;
        }
        match write_frame(channel, performative, &[], &mut self.room) {
            Some(count) => {
                self.bytes
                    .extend_from_slice(self.room.get(..count).unwrap_or(&[]))?;
                Ok(())
            }
            None => Err(Failure::Sender),
        }
    }

    /// Appends the header and an open.
    pub fn open(&mut self, properties: &[u8]) -> Result<(), Failure> {
        self.bytes.extend_from_slice(&HEADER)?;
        self.open_frame(properties)
    }

    /// Appends an open.
    pub fn open_frame(&mut self, properties: &[u8]) -> Result<(), Failure> {
        let open = Performative::Open(Open {
            container_id: "sender",
            hostname: b"\xa1\x09127.0.0.1",
            max_frame_size: MAX_FRAME,
            channel_max: 255,
            idle_time_out: &[],
            outgoing_locales: &[],
            incoming_locales: &[],
            offered_capabilities: &[],
            desired_capabilities: &[],
            properties,
        });
        self.put_long(0, &open, properties.len())
    }

    /// Appends a frame of a performative with this many fields, which are written already.
    pub fn list(
        &mut self,
        channel: u16,
        descriptor: u8,
        count: u32,
        fields: &[u8],
    ) -> Result<(), Failure> {
        let size = ((fields.len() as u64).wrapping_add(4) & 0xffff_ffff) as u32;
        self.bytes
            .extend_from_slice(&size.wrapping_add(16).to_be_bytes())?;
        self.bytes.extend_from_slice(&[2, 0])?;
        self.bytes.extend_from_slice(&channel.to_be_bytes())?;
        self.bytes.extend_from_slice(&[0, 0x53, descriptor, 0xd0])?;
        self.bytes.extend_from_slice(&size.to_be_bytes())?;
        self.bytes.extend_from_slice(&count.to_be_bytes())?;
        self.bytes.extend_from_slice(fields)?;
        Ok(())
    }

    pub fn begin(&mut self, channel: u16, next_outgoing_id: u32) -> Result<(), Failure> {
        let begin = Performative::Begin(Begin {
            remote_channel: None,
            next_outgoing_id,
            incoming_window: 2048,
            outgoing_window: 2048,
            handle_max: 255,
            offered_capabilities: &[],
            desired_capabilities: &[],
            properties: &[],
        });
        self.put(channel, &begin)
    }

    /// Appends an attach of a sender.
    pub fn attach(
        &mut self,
        channel: u16,
        handle: u8,
        mode: ReceiverSettleMode,
        properties: &[u8],
    ) -> Result<(), Failure> {
        let attach = Performative::Attach(Attach {
            name: "telemetry/of/a/device",
            handle: handle as u32,
            role: Role::Sender,
            snd_settle_mode: SenderSettleMode::Mixed,
            rcv_settle_mode: mode,
            source: b"\x00\x53\x28\xc0\x0c\x0b\x40\x43\x40\x43\x42\x40\x40\x40\x40\x40\x40",
            target: b"\x00\x53\x29\xc0\x0e\x07\xa1\x05queue\x43\x40\x43\x42\x40\x40",
            unsettled: &[],
            incomplete_unsettled: &[],
            initial_delivery_count: Some(0),
            max_message_size: &[],
            offered_capabilities: &[],
            desired_capabilities: &[],
            properties,
        });
        self.put_long(channel, &attach, properties.len())
    }

    /// Appends the close.
    pub fn close(&mut self) -> Result<(), Failure> {
        self.put(0, &Performative::Close(Close { error: &[] }))
    }

    /// Appends the first transfer of a delivery, with this many bytes of a payload.
    pub fn transfer(
        &mut self,
        head: Head,
        numbers: &mut Numbers,
        payload: u32,
    ) -> Result<(), Failure> {
        let [s0, s1, s2, s3] = payload.wrapping_add(30).to_be_bytes();
        let [c0, c1] = head.channel.to_be_bytes();
        let [i0, i1, i2, i3] = head.id.to_be_bytes();
        let [t0, t1, t2, t3] = head.id.wrapping_mul(0x9e37_79b1).to_be_bytes();
        let (settled, more) = (bit(head.settled), bit(head.more));
        self.bytes.extend_from_slice(&[
            s0,
            s1,
            s2,
            s3,
            2,
            0,
            c0,
            c1,
            0,
            0x53,
            0x14,
            0xc0,
            17,
            6,
            0x52,
            head.handle,
            0x70,
            i0,
            i1,
            i2,
            i3,
            0xa0,
            4,
            t0,
            t1,
            t2,
            t3,
            0x43,
            settled,
            more,
        ])?;
        self.payload(numbers, payload)
    }

    /// Appends a transfer that goes on with a delivery.
    pub fn goes_on(
        &mut self,
        channel: u16,
        handle: u8,
        more: bool,
        numbers: &mut Numbers,
        payload: u32,
    ) -> Result<(), Failure> {
        let [s0, s1, s2, s3] = payload.wrapping_add(21).to_be_bytes();
        let [c0, c1] = channel.to_be_bytes();
        let more = bit(more);
        self.bytes.extend_from_slice(&[
            s0, s1, s2, s3, 2, 0, c0, c1, 0, 0x53, 0x14, 0xc0, 8, 6, 0x52, handle, 0x40, 0x40,
            0x40, 0x40, more,
        ])?;
        self.payload(numbers, payload)
    }

    /// Appends a transfer that gives a delivery up.
    pub fn abort(&mut self, channel: u16, handle: u8) -> Result<(), Failure> {
        let [c0, c1] = channel.to_be_bytes();
        self.bytes.extend_from_slice(&[
            0, 0, 0, 25, 2, 0, c0, c1, 0, 0x53, 0x14, 0xc0, 12, 10, 0x52, handle, 0x40, 0x40, 0x40,
            0x40, 0x42, 0x40, 0x40, 0x40, 0x41,
        ])?;
        Ok(())
    }

    /// Appends a disposition of the sender that settles the deliveries with these ids.
    pub fn settle(&mut self, channel: u16, first: u32, last: u32) -> Result<(), Failure> {
        let [c0, c1] = channel.to_be_bytes();
        let [f0, f1, f2, f3] = first.to_be_bytes();
        let [l0, l1, l2, l3] = last.to_be_bytes();
        self.bytes.extend_from_slice(&[
            0, 0, 0, 30, 2, 0, c0, c1, 0, 0x53, 0x15, 0xc0, 17, 5, 0x42, 0x70, f0, f1, f2, f3,
            0x70, l0, l1, l2, l3, 0x41, 0x00, 0x53, 0x24, 0x45,
        ])?;
        Ok(())
    }

    /// Returns a document of this many bytes, of pages that begin somewhere.
    pub fn document(
        &self,
        alloc: Global,
        numbers: &mut Numbers,
        count: u32,
    ) -> Result<Vec<u8>, Failure> {
        let mut document = Vec::with_capacity(alloc, count as usize)?;
        let mut left = count;
        for _ in 0..=count / LONGEST {
            let piece = left.min(LONGEST);
            let start = numbers.below(STARTS) as usize;
            let end = start.saturating_add(piece as usize);
            document.extend_from_slice(self.payloads.get(start..end).unwrap_or(&[]))?;
            left = left.saturating_sub(piece);
        }
        Ok(document)
    }

    /// Appends this many bytes of a payload.
    fn payload(&mut self, numbers: &mut Numbers, count: u32) -> Result<(), Failure> {
        let mut left = count;
        for _ in 0..count.div_ceil(LONGEST).max(1) {
            let piece = left.min(LONGEST);
            let start = numbers.below(STARTS) as usize;
            let end = start.saturating_add(piece as usize);
            self.bytes
                .extend_from_slice(self.payloads.get(start..end).unwrap_or(&[]))?;
            left = left.saturating_sub(piece);
        }
        Ok(())
    }
}

/// Returns the code of a boolean.
fn bit(value: bool) -> u8 {
    if value { 0x41 } else { 0x42 }
}
