//! Performatives, written as the bodies of frames. [2.3; 2.7]
//!
//! Each function lists the fields of one performative in their order. A field that is equal to its default is
//! null.

ghost use Rattle.std.specs.Prelude.{◌≡◌, ◌↔◌, ℕ, ◌+◌, ◌-◌, ◌*◌, ◌^◌, ◌<◌, ◌≤◌, false, List, [], ◌++◌, length, take, drop, Some, IsSome, IfSome, IfNone};
ghost use Rattle.std.specs.List.{concat};
ghost use Rattle.std.specs.Option.{SomeIff, option_map};
ghost use Rattle.amqp_types.specs.declared.shell.Shell.{Shell};
ghost use Rattle.amqp_types.specs.Canonical.{shortest};
ghost use Rattle.amqp_perform.specs.declared.descriptor.Descriptor.{Descriptor};
ghost use Rattle.amqp_perform.specs.declared.performative.Performative.TheVariants as performative;
ghost use Rattle.amqp_perform.specs.Frames.{cell_text, field_texts, field_spelling, field_spellings, trimmed, list_text, last_written, disposition_written, head_text, list_head, list_frame, frame_of, Writes, FitsFrame, IsWritten};
ghost use Rattle.amqp_perform.specs.Receivers.{state_said, disposition_said, link_flow_said, stated_said};
ghost use Rattle.amqp_perform.specs.Said.{said, said_frame};
ghost use Rattle.amqp_perform.specs.Performatives.{receiver_mode, optional_whole, open_cells, begin_cells, attach_cells, flow_cells, transfer_cells, detach_cells, end_cells, close_cells};
ghost use Rattle.amqp_perform.specs.Tables.{uint, receiver_settle_mode, open_fields, begin_fields, attach_fields, flow_fields, transfer_fields, disposition_fields, detach_fields, end_fields, close_fields};

use crate::descriptor::Descriptor;
use crate::field_text::{FieldText, put, put_uint};
use crate::modes::{ReceiverSettleMode, Role};
use crate::outcome::Outcome;
use crate::performative::{
    Attach, Begin, Close, Detach, Disposition, End, Flow, Open, Performative, Transfer,
};

/// How many bytes come before the list of a frame: the frame header and the descriptor.
const HEAD_LEN: usize = 11;

/// How many bytes come before the items of a list whose size takes one byte.
const SHORT_LEN: usize = HEAD_LEN + 3;

/// The most bytes that the disposition of one delivery takes, if its state has four.
const ONE_SETTLED: usize = SHORT_LEN + 12;

/// The most bytes that a frame of seven numbers takes.
const SEVEN_NUMBERS: usize = SHORT_LEN + 7 * 5;

/// The largest frame whose size can be stated. [2.3.1]
const MAX_FRAME: usize = 0xffff_ffff;

/// What a frame says before its list.
#[derive(Clone, Copy)]
struct Head {
    channel: u16,
    descriptor: Descriptor,
}

fn open_texts<'a>(p: &Open<'a>) -> [FieldText<'a>; 10]
    ensures { field_spellings result ≡ field_texts open_fields (open_cells p.now) }
{
    [
        FieldText::String(p.container_id),
        FieldText::span(p.hostname),
        FieldText::uint_unless(p.max_frame_size, u32::MAX),
        FieldText::ushort_unless(p.channel_max, u16::MAX),
        FieldText::span(p.idle_time_out),
        FieldText::span(p.outgoing_locales),
        FieldText::span(p.incoming_locales),
        FieldText::span(p.offered_capabilities),
        FieldText::span(p.desired_capabilities),
        FieldText::span(p.properties),
    ]
}

fn begin_texts<'a>(p: &Begin<'a>) -> [FieldText<'a>; 8]
    ensures { field_spellings result ≡ field_texts begin_fields (begin_cells p.now) }
{
    [
        FieldText::optional_ushort(p.remote_channel),
        FieldText::Uint(p.next_outgoing_id),
        FieldText::Uint(p.incoming_window),
        FieldText::Uint(p.outgoing_window),
        FieldText::uint_unless(p.handle_max, u32::MAX),
        FieldText::span(p.offered_capabilities),
        FieldText::span(p.desired_capabilities),
        FieldText::span(p.properties),
    ]
}

fn attach_texts<'a>(p: &Attach<'a>) -> [FieldText<'a>; 14]
    ensures { field_spellings result ≡ field_texts attach_fields (attach_cells p.now) }
{
    [
        FieldText::String(p.name),
        FieldText::Uint(p.handle),
        FieldText::Boolean(p.role.is_receiver()),
        FieldText::ubyte_unless(p.snd_settle_mode.number(), 2),
        FieldText::ubyte_unless(p.rcv_settle_mode.number(), 0),
        FieldText::span(p.source),
        FieldText::span(p.target),
        FieldText::span(p.unsettled),
        FieldText::span(p.incomplete_unsettled),
        FieldText::optional_uint(p.initial_delivery_count),
        FieldText::span(p.max_message_size),
        FieldText::span(p.offered_capabilities),
        FieldText::span(p.desired_capabilities),
        FieldText::span(p.properties),
    ]
}

fn flow_texts<'a>(p: &Flow<'a>) -> [FieldText<'a>; 11]
    ensures { field_spellings result ≡ field_texts flow_fields (flow_cells p.now) }
{
    [
        FieldText::optional_uint(p.next_incoming_id),
        FieldText::Uint(p.incoming_window),
        FieldText::Uint(p.next_outgoing_id),
        FieldText::Uint(p.outgoing_window),
        FieldText::optional_uint(p.handle),
        FieldText::optional_uint(p.delivery_count),
        FieldText::optional_uint(p.link_credit),
        FieldText::optional_uint(p.available),
        FieldText::flag(p.drain),
        FieldText::flag(p.echo),
        FieldText::span(p.properties),
    ]
}

fn transfer_texts<'a>(p: &Transfer<'a>) -> [FieldText<'a>; 11]
    ensures { field_spellings result ≡ field_texts transfer_fields (transfer_cells p.now) }
{
    [
        FieldText::Uint(p.handle),
        FieldText::optional_uint(p.delivery_id),
        FieldText::optional_binary(p.delivery_tag),
        FieldText::optional_uint(p.message_format),
        FieldText::optional_boolean(p.settled),
        FieldText::flag(p.more),
        receiver_mode_text(p.rcv_settle_mode),
        FieldText::span(p.state),
        FieldText::flag(p.resume),
        FieldText::flag(p.aborted),
        FieldText::span(p.batchable),
    ]
}

fn disposition_texts<'a>(p: &Disposition<'a>) -> [FieldText<'a>; 6]
    ensures { field_spellings result ≡ field_texts disposition_fields (disposition_written p.now) }
{
    [
        FieldText::Boolean(p.role.is_receiver()),
        FieldText::Uint(p.first),
        last_text(p.first, p.last),
        FieldText::flag(p.settled),
        FieldText::span(p.state),
        FieldText::span(p.batchable),
    ]
}

/// The last delivery of a disposition, which is the first by default. [2.7.6]
fn last_text<'a>(first: u32, last: Option<u32>) -> FieldText<'a>
    ensures { field_spelling result ≡ cell_text uint (last_written first last) }
{
    match last {
        Some(last) => FieldText::uint_unless(last, first),
        None => FieldText::Null,
    }
}

/// The receiver's settle mode of a delivery. [2.7.5]
fn receiver_mode_text<'a>(mode: Option<ReceiverSettleMode>) -> FieldText<'a>
    ensures { field_spelling result ≡ cell_text receiver_settle_mode (optional_whole (option_map receiver_mode mode)) }
{
    match mode {
        Some(mode) => FieldText::Ubyte(mode.number()),
        None => FieldText::Null,
    }
}

fn detach_texts<'a>(p: &Detach<'a>) -> [FieldText<'a>; 3]
    ensures { field_spellings result ≡ field_texts detach_fields (detach_cells p.now) }
{
    [
        FieldText::Uint(p.handle),
        FieldText::flag(p.closed),
        FieldText::span(p.error),
    ]
}

fn end_texts<'a>(p: &End<'a>) -> [FieldText<'a>; 1]
    ensures { field_spellings result ≡ field_texts end_fields (end_cells p.now) }
{
    [FieldText::span(p.error)]
}

fn close_texts<'a>(p: &Close<'a>) -> [FieldText<'a>; 1]
    ensures { field_spellings result ≡ field_texts close_fields (close_cells p.now) }
{
    [FieldText::span(p.error)]
}

/// Writes a frame at the front of `out`, and returns its length in bytes. [2.3.1; 2.7]
///
/// It is the canonical spelling of the performative on the channel, and the payload. If it doesn't fit `out`, or its
/// length is above `2^32 - 1`, it returns `None` and `out` is unchanged. Takes no memory.
///
/// A field that is absent or equal to its default is null, and so is a disposition's last that is its first;
/// nulls at the end are left out. Spans are written as they are: that each spells one value, and in the shortest
/// way, is up to the caller. An empty one is absent, as is one that spells null. What [`crate::read_body`]
/// refuses is written too, such as a max-frame-size below 512.
pub fn write_frame(
    channel: u16,
    performative: &Performative<'_>,
    payload: &[u8],
    out: &mut [u8],
) -> Option<usize>
    ensures written { IfSome result (λ n. (n ≡ length (frame_of channel performative.now payload.now))
        × (out.new ≡ frame_of channel performative.now payload.now ++ drop n out.old)) }
    ensures fits { IsSome result ↔ FitsFrame (frame_of channel performative.now payload.now) (length out.old) }
    ensures unchanged { IfNone result (out.new ≡ out.old) }
{
    write_any(channel, performative, payload, out)
}

/// Does what [`write_frame`] does, stated by the one relation that the writers of lists promise. Each of them is a function
/// of its own, so that only the fields of one are on the stack.
#[inline(always)]
fn write_any(
    channel: u16,
    performative: &Performative<'_>,
    payload: &[u8],
    out: &mut [u8],
) -> Option<usize>
    ensures { IsWritten (frame_of channel performative.now payload.now) result out.old out.new }
{
    let head = Head {
        channel,
        descriptor: performative.descriptor(),
    };
    match performative {
        Performative::Open(p) => write_open(head, p, payload, out),
        Performative::Begin(p) => write_begin(head, p, payload, out),
        Performative::Attach(p) => write_attach(head, p, payload, out),
        Performative::Flow(p) => write_flow(channel, p, payload, out),
        Performative::Transfer(p) => write_transfer(head, p, payload, out),
        Performative::Disposition(p) => write_disposition(channel, p, payload, out),
        Performative::Detach(p) => write_detach(head, p, payload, out),
        Performative::End(p) => write_end(head, p, payload, out),
        Performative::Close(p) => write_close(head, p, payload, out),
    }
}

fn write_open(head: Head, p: &Open<'_>, payload: &[u8], out: &mut [u8]) -> Option<usize>
    ensures { IsWritten (list_frame head.channel head.descriptor (field_texts open_fields (open_cells p.now)) payload.now) result out.old out.new }
{
    write_list(head, &open_texts(p), payload, out)
}

fn write_begin(head: Head, p: &Begin<'_>, payload: &[u8], out: &mut [u8]) -> Option<usize>
    ensures { IsWritten (list_frame head.channel head.descriptor (field_texts begin_fields (begin_cells p.now)) payload.now) result out.old out.new }
{
    write_list(head, &begin_texts(p), payload, out)
}

fn write_attach(head: Head, p: &Attach<'_>, payload: &[u8], out: &mut [u8]) -> Option<usize>
    ensures { IsWritten (list_frame head.channel head.descriptor (field_texts attach_fields (attach_cells p.now)) payload.now) result out.old out.new }
{
    write_list(head, &attach_texts(p), payload, out)
}

/// Writes the frame of a flow at the front of `out`, and returns its length in bytes, as [`write_frame`] does. If it doesn't
/// fit, it returns `None` and `out` is unchanged. [2.7.4]
pub fn write_flow(channel: u16, p: &Flow<'_>, payload: &[u8], out: &mut [u8]) -> Option<usize>
    ensures { IsWritten (frame_of channel (performative.Flow p.now) payload.now) result out.old out.new }
{
    let head = Head {
        channel,
        descriptor: Descriptor::Flow,
    };
    write_list(head, &flow_texts(p), payload, out)
}

/// What the flow of a link says, if its receiver sends nothing. [2.7.4]
#[derive(Clone, Copy, Debug, PartialEq, Eq)]
pub struct LinkFlow {
    pub next_incoming_id: u32,
    pub incoming_window: u32,
    pub handle: u32,
    pub delivery_count: u32,
    pub link_credit: u32,
    pub drain: bool,
}

impl LinkFlow {
    /// Returns the flow as a performative.
    pub fn flow(self) -> Flow<'static>
        ensures { said (performative.Flow result) ≡ stated_said self }
    {
        Flow {
            next_incoming_id: Some(self.next_incoming_id),
            incoming_window: self.incoming_window,
            next_outgoing_id: 0,
            outgoing_window: 0,
            handle: Some(self.handle),
            delivery_count: Some(self.delivery_count),
            link_credit: Some(self.link_credit),
            available: None,
            drain: self.drain,
            echo: false,
            properties: &[],
        }
    }
}

/// Writes the frame of the flow of a link at the front of `out`, and returns its length in bytes. [2.7.4]
///
/// The flow says that this side sends nothing, and asks for no echo. If the frame doesn't fit, it returns `None` and `out`
/// is unchanged. Takes no memory.
pub fn write_link_flow(channel: u16, flow: LinkFlow, out: &mut [u8]) -> Option<usize>
    ensures { IsWritten (said_frame channel (stated_said flow) []) result out.old out.new }
{
    if flow.drain || out.len() < SEVEN_NUMBERS {
        write_any_link_flow(channel, flow, out)
    } else {
        Some(write_credit(channel, flow, out))
    }
}

/// Writes the flow of a link without drain, and returns its length. `out` has room for any such flow.
#[tactic(auto, using(crate::proofs::Receiving::number_short))]
fn write_credit(channel: u16, flow: LinkFlow, out: &mut [u8]) -> usize
    requires { SEVEN_NUMBERS ≤ length out.old }
    ensures { IsWritten (said_frame channel (link_flow_said flow.next_incoming_id flow.incoming_window flow.handle flow.delivery_count flow.link_credit false) []) (Some result) out.old out.new }
{
    let at = put_uint(out, SHORT_LEN, flow.next_incoming_id);
    let at = put_uint(out, at, flow.incoming_window);
    let at = put_uint(out, at, 0);
    let at = put_uint(out, at, 0);
    let at = put_uint(out, at, flow.handle);
    let at = put_uint(out, at, flow.delivery_count);
    let end = put_uint(out, at, flow.link_credit);
    write_front(channel, Descriptor::Flow, 7, end, out);
    end
}

/// Writes any flow of a link.
#[inline(never)]
fn write_any_link_flow(channel: u16, flow: LinkFlow, out: &mut [u8]) -> Option<usize>
    ensures { IsWritten (said_frame channel (stated_said flow) []) result out.old out.new }
{
    write_flow(channel, &flow.flow(), &[], out)
}

fn write_transfer(head: Head, p: &Transfer<'_>, payload: &[u8], out: &mut [u8]) -> Option<usize>
    ensures { IsWritten (list_frame head.channel head.descriptor (field_texts transfer_fields (transfer_cells p.now)) payload.now) result out.old out.new }
{
    write_list(head, &transfer_texts(p), payload, out)
}

fn write_detach(head: Head, p: &Detach<'_>, payload: &[u8], out: &mut [u8]) -> Option<usize>
    ensures { IsWritten (list_frame head.channel head.descriptor (field_texts detach_fields (detach_cells p.now)) payload.now) result out.old out.new }
{
    write_list(head, &detach_texts(p), payload, out)
}

fn write_end(head: Head, p: &End<'_>, payload: &[u8], out: &mut [u8]) -> Option<usize>
    ensures { IsWritten (list_frame head.channel head.descriptor (field_texts end_fields (end_cells p.now)) payload.now) result out.old out.new }
{
    write_list(head, &end_texts(p), payload, out)
}

fn write_close(head: Head, p: &Close<'_>, payload: &[u8], out: &mut [u8]) -> Option<usize>
    ensures { IsWritten (list_frame head.channel head.descriptor (field_texts close_fields (close_cells p.now)) payload.now) result out.old out.new }
{
    write_list(head, &close_texts(p), payload, out)
}

/// Writes the frame of a disposition at the front of `out`, and returns its length in bytes, as [`write_frame`] does. If it
/// doesn't fit, it returns `None` and `out` is unchanged. [2.7.6]
pub fn write_disposition(
    channel: u16,
    p: &Disposition<'_>,
    payload: &[u8],
    out: &mut [u8],
) -> Option<usize>
    ensures { IsWritten (frame_of channel (performative.Disposition p.now) payload.now) result out.old out.new }
{
    let head = Head {
        channel,
        descriptor: Descriptor::Disposition,
    };
    write_list(head, &disposition_texts(p), payload, out)
}

/// Writes the frame of a receiver's disposition at the front of `out`, and returns its length in bytes. [2.7.6; 3.4]
///
/// It reports what became of the deliveries with the ids from `first` to `last`, settled or not. If the frame doesn't fit, it
/// returns `None` and `out` is unchanged. Takes no memory.
pub fn write_settlement(
    channel: u16,
    first: u32,
    last: u32,
    settled: bool,
    outcome: Outcome,
    out: &mut [u8],
) -> Option<usize>
    ensures { IsWritten (said_frame channel (disposition_said first last settled outcome) []) result out.old out.new }
{
    let state = outcome.span();
    match state {
        [a, b, c, d] if first == last && out.len() >= ONE_SETTLED => {
            Some(write_one(channel, first, settled, [*a, *b, *c, *d], out))
        }
        _ => write_state(channel, first, last, settled, state, out),
    }
}

/// Writes the disposition of one delivery with a state of four bytes, and returns its length. `out` has room for any such.
fn write_one(channel: u16, id: u32, settled: bool, state: [u8; 4], out: &mut [u8]) -> usize
    requires { ONE_SETTLED ≤ length out.old }
    ensures { IsWritten (said_frame channel (state_said id id settled state) []) (Some result) out.old out.new }
{
    let at = FieldText::Boolean(true).write(out, SHORT_LEN);
    let at = FieldText::Uint(id).write(out, at);
    let at = FieldText::Null.write(out, at);
    let at = FieldText::flag(settled).write(out, at);
    let end = put(out, at, &state);
    write_front(channel, Descriptor::Disposition, 5, end, out);
    end
}

/// Writes the disposition of any deliveries with any state.
#[inline(never)]
fn write_state(
    channel: u16,
    first: u32,
    last: u32,
    settled: bool,
    state: &[u8],
    out: &mut [u8],
) -> Option<usize>
    ensures { IsWritten (said_frame channel (state_said first last settled state.now) []) result out.old out.new }
{
    let told = Disposition {
        role: Role::Receiver,
        first,
        last: Some(last),
        settled,
        state,
        batchable: &[],
    };
    write_disposition(channel, &told, &[], out)
}

/// Writes the front of a frame whose `count` items are there already and end at `end`.
fn write_front(channel: u16, descriptor: Descriptor, count: u8, end: usize, out: &mut [u8])
    requires some { 0 < count }
    requires least { SHORT_LEN ≤ end }
    requires most { end < 256 }
    requires room { end ≤ length out.old }
    ensures { (texts used : List (List ℕ)) (old : List ℕ) → trimmed texts ≡ used → length used ≡ count → end ≡ 14 + length (concat used) → length old ≡ length out.old
        → Writes 14 (concat used) old out.old → IsWritten (list_frame channel descriptor texts []) (Some end) old out.new }
{
    put(out, 0, &front(channel, descriptor, count, end));
}

/// Returns the frame header, the descriptor, and what comes before `count` items that end the frame at `end`. [2.3.1; 1.6.22]
// One array: a constant one would be copied after a test for an overlap.
fn front(channel: u16, descriptor: Descriptor, count: u8, end: usize) -> [u8; 14]
    requires some { 0 < count }
    requires least { SHORT_LEN ≤ end }
    requires most { end < 256 }
    ensures { result ≡ head_text end channel descriptor ++ list_head count (end - 14) }
{
    let [len3, len2, len1, len0] = (end as u32).to_be_bytes();
    let [high, low] = channel.to_be_bytes();
    let code = descriptor.code();
    let size = (end - SHORT_LEN) as u8 + 1;
    [
        len3, len2, len1, len0, 2, 0, high, low, 0, 0x53, code, 0xc0, size, count,
    ]
}

/// Writes the frame of a list of values, if it fits.
#[inline(always)]
fn write_list(head: Head, values: &[FieldText<'_>], payload: &[u8], out: &mut [u8]) -> Option<usize>
    requires { length values.now < 256 }
    ensures { IsWritten (list_frame head.channel head.descriptor (field_spellings values.now) payload.now) result out.old out.new }
{
    let used = used_count(values);
    let room = out.len().min(MAX_FRAME);
    let content = content_width(values, used, room)?;
    write_many(head, &values[..used], content, payload, out)
}

/// Writes the frame of a list of values of `content` bytes, if it fits.
// Apart, so that the compiler inlines its caller in each writer, where the number of values is known.
#[inline(never)]
fn write_many(
    head: Head,
    values: &[FieldText<'_>],
    content: usize,
    payload: &[u8],
    out: &mut [u8],
) -> Option<usize>
    requires few { length values.now < 256 }
    requires content { content ≡ length (concat (field_spellings values.now)) }
    requires stated { content < 2 ^ 32 }
    ensures { (texts : List (List ℕ)) → trimmed texts ≡ field_spellings values.now → IsWritten (list_frame head.channel head.descriptor texts payload.now) result out.old out.new }
{
    let len = HEAD_LEN + list_width(values.len(), content) + payload.len();
    let room = out.len().min(MAX_FRAME);
    if len > room {
        return None;
    }
    Some(write_parts(head, len, values, content, payload, out))
}

/// Writes the frame at the front; its length and that of its values are known.
#[inline(always)]
fn write_parts(
    head: Head,
    len: usize,
    values: &[FieldText<'_>],
    content: usize,
    payload: &[u8],
    out: &mut [u8],
) -> usize
    requires few { length values.now < 256 }
    requires content { content ≡ length (concat (field_spellings values.now)) }
    requires len { len ≡ 11 + length (list_text (field_spellings values.now)) + length payload.now }
    requires room { len ≤ length out.old }
    requires stated { len < 2 ^ 32 }
    ensures { (texts : List (List ℕ)) → trimmed texts ≡ field_spellings values.now
        → (result ≡ length (list_frame head.channel head.descriptor texts payload.now))
        × (out.new ≡ list_frame head.channel head.descriptor texts payload.now ++ drop result out.old) }
{
    let at = write_head(head, len as u32, out);
    let at = write_list_head(values.len(), content, out, at);
    let at = write_values(values, out, at);
    put(out, at, payload)
}

/// Returns how many values are left without the nulls at the end.
fn used_count(values: &[FieldText<'_>]) -> usize
    ensures bound { result ≤ length values.now }
    ensures used { trimmed (field_spellings values.now) ≡ field_spellings (take result values.now) }
{
    let mut count = values.len();
    while count > 0 && values[count - 1].is_null() {
        count -= 1;
    }
    count
}

/// Returns how many bytes spell the first `used` values, if these are at most `room`. The others are nulls, of one byte
/// each: the widths of all are added up, since the compiler unrolls a loop over an array whose length it knows.
#[inline(always)]
fn content_width(values: &[FieldText<'_>], used: usize, room: usize) -> Option<usize>
    requires bound { used ≤ length values.now }
    requires nulls { trimmed (field_spellings values.now) ≡ field_spellings (take used values.now) }
    requires room { room < 2 ^ 32 }
    ensures { SomeIff result (length (concat (field_spellings (take used values.now))) ≤ room) (length (concat (field_spellings (take used values.now)))) }
{
    let nulls = values.len() - used;
    let width = total_width(values, room + nulls)?;
    Some(width - nulls)
}

/// Returns how many bytes spell the values, if these are at most `room`.
#[inline(always)]
fn total_width(values: &[FieldText<'_>], room: usize) -> Option<usize>
    ensures { SomeIff result (length (concat (field_spellings values.now)) ≤ room) (length (concat (field_spellings values.now))) }
{
    let mut left = room;
    for value in values {
        left = left.checked_sub(value.width())?;
    }
    Some(room - left)
}

/// Returns how many bytes spell a list of `count` items, which take `content` bytes. [1.6.22]
#[inline(always)]
fn list_width(count: usize, content: usize) -> usize
    requires count { count < 256 }
    requires content { content < 2 ^ 32 }
    ensures width { (text : List ℕ) → length text ≡ content → result ≡ length (shortest (Shell.List count) text) }
    ensures bound { result ≤ 9 + content }
{
    if count == 0 {
        1
    } else if content < 255 {
        3 + content
    } else {
        9 + content
    }
}

/// Writes the frame header and the descriptor at the front, and returns the place after them. [2.3.1]
#[tactic(auto, unfolding(crate::specs::Frames::head_text))]
#[inline(always)]
fn write_head(head: Head, len: u32, out: &mut [u8]) -> usize
    requires { 11 ≤ length out.old }
    ensures behind { result ≡ 11 }
    ensures written { Writes 0 (head_text len head.channel head.descriptor) out.old out.new }
{
    let at = put(out, 0, &len.to_be_bytes());
    let at = put(out, at, &[2, 0]);
    let at = put(out, at, &head.channel.to_be_bytes());
    put(out, at, &[0, 0x53, head.descriptor.code()])
}

/// Writes what comes before the items of a list, and returns the place after it. [1.6.22]
#[tactic(auto, unfolding(crate::specs::Frames::list_head))]
#[inline(always)]
fn write_list_head(count: usize, content: usize, out: &mut [u8], at: usize) -> usize
    requires count { count < 256 }
    requires content { content + 4 < 2 ^ 32 }
    requires room { at + length (list_head count content) ≤ length out.old }
    ensures behind { result ≡ at + length (list_head count content) }
    ensures written { Writes at (list_head count content) out.old out.new }
{
    if count == 0 {
        return put(out, at, &[0x45]);
    }
    if content < 255 {
        return put(out, at, &[0xc0, content as u8 + 1, count as u8]);
    }
    let [size3, size2, size1, size0] = (4 + content as u32).to_be_bytes();
    let [count3, count2, count1, count0] = (count as u32).to_be_bytes();
    let head = [
        0xd0, size3, size2, size1, size0, count3, count2, count1, count0,
    ];
    put(out, at, &head)
}

/// Writes the values at `at`, and returns the place after them.
fn write_values(values: &[FieldText<'_>], out: &mut [u8], at: usize) -> usize
    requires { at + length (concat (field_spellings values.now)) ≤ length out.old }
    ensures behind { result ≡ at + length (concat (field_spellings values.now)) }
    ensures written { Writes at (concat (field_spellings values.now)) out.old out.new }
{
    let mut end = at;
    for value in values {
        end = value.write(out, end);
    }
    end
}
