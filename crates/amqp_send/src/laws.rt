//! What holds of every sender. Each function does nothing: its contract is the law.
ghost use Rattle.std.specs.Prelude.{◌≡◌, ℕ, ◌^◌, ◌<◌, ◌≤◌, Bool, List, [], ◌∷◌, ◌++◌, length, false};
ghost use Rattle.amqp_perform.specs.Said.{MayBeSaid};
ghost use Rattle.amqp_send.specs.declared.flow_state.FlowState.{FlowState};
ghost use Rattle.amqp_send.specs.Flows.{most};
ghost use Rattle.amqp_send.specs.Frames.{IsSmall, IsText, IsOpening};
ghost use Rattle.amqp_send.specs.Histories.{Deed, IsHistory, AllMayGo, IsLawfulEvent, Accepted, after_all, history, deeds};
ghost use Rattle.amqp_send.specs.Calls.{SenderState};
ghost use Rattle.amqp_send.specs.Lengths.{Lengths, NullIsLeast};
ghost use Rattle.amqp_send.specs.Runs.{Call, Answer, Run, IsStart, HasHistory, HasMoment};
ghost use Rattle.amqp_send.specs.Sendings.{SendTerms, Message, Sending, SendEvent, SendMay, send_after, can_write, frame, open_said, begin_said, attach_said, flow_said, close_said, transfer_said, is_last, next_frame};

use amqp_perform::laws::{a_null_adds_no_more, fields_are_as_long, frames_are_as_long};
use amqp_types::laws::canonical_spells;

/// After one event more the sender is what its longer history gives. What was moved out and what waits is the
/// header, the opening, the answers to flows, the transfers of the messages, and the close. The messages are
/// those that were taken over, in order, each once. A transfer went only if the window had a place and, if it
/// begins a delivery, credit was there, both by what the receiver stated last [2.5.6, 2.6.7].
pub fn history_goes_on()
    ensures { (terms : SendTerms) (h : List Deed) (s : Sending) (e : SendEvent) → IsHistory terms h s → AllMayGo h → 512 ≤ s.flow.max_frame_size → IsLawfulEvent e → SendMay s e
        → IsHistory terms (deeds s e ++ h) (send_after s e) × AllMayGo (deeds s e ++ h) × (512 ≤ (send_after s e).flow.max_frame_size) }
{
    lengths_of_frames();
}

/// After any list of accepted events the sender is what the counts and selections over the whole history give,
/// and no frame that may be written is left unwritten.
pub fn steps_give_the_history()
    ensures is { (terms : SendTerms) (es : List SendEvent) → Accepted terms es → IsHistory terms (history terms es) (after_all terms es) }
    ensures may { (terms : SendTerms) (es : List SendEvent) → Accepted terms es → AllMayGo (history terms es) }
    ensures written { (terms : SendTerms) (es : List SendEvent) → Accepted terms es → can_write (after_all terms es) ≡ false }
{
    lengths_of_frames();
}

/// Every list of calls of a new sender has a history. The bytes that the feeds took are the units that were acted
/// upon and a rest. The messages that were taken over, the bytes that were moved out and the news are those of
/// the history, each reported where its event came. No frame that may be written is left unwritten [2.2 to 2.7].
pub fn runs_have_a_history()
    ensures { (terms : SendTerms) (calls : List Call) (answers : List Answer) (start last : SenderState) → IsStart terms start → Run start calls answers last → HasHistory terms calls answers last }
{
    steps_give_the_history();
}

/// A sender has a history after each of its calls, as [`runs_have_a_history`] says after all of them.
pub fn each_call_has_its_history()
    ensures { (terms : SendTerms) (calls : List Call) (answers : List Answer) (start last : SenderState) (n : ℕ) → IsStart terms start → Run start calls answers last → HasMoment terms start calls answers last n }
{
    steps_give_the_history();
}

/// Bounds the lengths of frames and of fields. A field that is left out makes a frame no longer.
pub fn lengths_of_frames()
    ensures lengths { Lengths }
    ensures null { NullIsLeast }
{
    a_null_adds_no_more();
    frames_are_as_long();
    fields_are_as_long();
}

/// The frames that a sender writes hold what their fields may hold, so they are read as they were written. [2.7]
pub fn frames_may_be_said()
    ensures open { (container_id : List ℕ) → IsText container_id → MayBeSaid (open_said container_id) }
    ensures begin { MayBeSaid begin_said }
    ensures flow { (f : FlowState) (drain : Bool) → IsSmall f.peer_next_outgoing_id → f.next_outgoing_id < 2 ^ 32 → f.delivery_count < 2 ^ 32 → MayBeSaid (flow_said f drain) }
    ensures transfer { (id : ℕ) (begun more : Bool) → id < 2 ^ 32 → MayBeSaid (transfer_said id begun more) }
    ensures close { MayBeSaid close_said }
    ensures attach { (name : List ℕ) → IsText name → MayBeSaid (attach_said name) }
{
    canonical_spells();
}

/// Each frame of the opening has at most 512 bytes, which each receiver accepts; a flow has at most 64, and a
/// close 12. No transfer is longer than the receiver accepts, and each that is not the last is exactly as long as
/// a frame may be. [2.7.1]
pub fn frames_are_within()
    ensures opening { (terms : SendTerms) → length terms.container_id ≤ 255 → length terms.name ≤ 255 → IsOpening terms }
    ensures flow { (f : FlowState) (drain : Bool) → length (frame (flow_said f drain)) ≤ 64 }
    ensures close { length (frame close_said) ≡ 12 }
    ensures transfer { (f : FlowState) (m : Message) → 512 ≤ f.max_frame_size → (length (next_frame f m) ≤ 4096) × (length (next_frame f m) ≤ f.max_frame_size) }
    ensures full { (f : FlowState) (m : Message) → 512 ≤ f.max_frame_size → is_last f m ≡ false → length (next_frame f m) ≡ most f }
{
    lengths_of_frames();
}
