//! What `amqp_send` promises.

ghost use Rattle.std.specs.Prelude.{◌≡◌, ◌≤◌, ◌<◌, ◌++◌, min, length, take, drop, IfOk, IfErr, OnOk, IsTrue, IsFalse, Some, None, false};
ghost use Rattle.std.specs.String.{string_bytes};
ghost use Rattle.amqp_send.specs.Keeping.{terms_of};
ghost use Rattle.amqp_send.specs.Runs.{Offer, Output, Close, TakenOver, Refused, MovedOut, Closed, Does, IsFed, IsStart};
ghost use Rattle.amqp_send.specs.Sendings.{SendEvent, send_after, offer_fault, may_close, can_write, left_to_send};

use amqp_send::{News, OfferFault, SendConfig, Sender};
use std::alloc::{AllocError, Allocator};

/// Makes a sender that has written the protocol header [2.2].
pub fn new<A: Allocator + Copy>(alloc: A, config: SendConfig<A>) -> Result<Sender<A>, AllocError>
    requires container_id { length (string_bytes config.container_id) ≤ 255 }
    requires name { length (string_bytes config.name) ≤ 255 }
    ensures { IfOk result (λ s. IsStart (terms_of config) s) }
{
    Sender::new(alloc, config)
}

/// Takes over a message, which is sent as the receiver allows.
pub fn offer<A: Allocator + Copy>(
    sender: &mut Sender<A>,
    message: Vec<u8, A>,
) -> Result<(), (OfferFault, Vec<u8, A>)>
    ensures ok { OnOk result ((offer_fault sender.old.sending ≡ None) × (sender.new ≡ record sender.old { sending = send_after sender.old.sending (SendEvent.Offered message.items) })) }
    ensures err { IfErr result (λ e. (offer_fault sender.old.sending ≡ Some e.0) × (e.1.items ≡ message.items) × (sender.new ≡ sender.old)) }
    ensures taken_over { OnOk result (Does sender.old sender.new (Offer message.items) TakenOver) }
    ensures refused { IfErr result (λ e. Does sender.old sender.new (Offer message.items) (Refused e.0)) }
    ensures written { can_write sender.new.sending ≡ false }
{
    sender.offer(message)
}

/// Takes bytes of the receiver up to the end of its header or of one frame, or up to the byte that shows that
/// there is no frame. Returns how many it took, and what they resulted in.
pub fn feed<A: Allocator + Copy>(sender: &mut Sender<A>, piece: &[u8]) -> (usize, Option<News>)
    ensures bound { result.0 ≤ length piece.now }
    ensures does { IsFed sender.old sender.new piece.now result.0 result.1 }
    ensures written { can_write sender.new.sending ≡ false }
{
    sender.feed(piece)
}

/// Moves the first bytes that wait to be sent into `out`, as many as it holds, and returns how many.
pub fn output<A: Allocator + Copy>(sender: &mut Sender<A>, out: &mut [u8]) -> usize
    ensures count { result ≡ min (length out.old) (length sender.old.sending.unsent) }
    ensures read { out.new ≡ take result sender.old.sending.unsent ++ drop result out.old }
    ensures new { sender.new ≡ record sender.old { sending = send_after sender.old.sending (SendEvent.Moved result) } }
    ensures does { Does sender.old sender.new (Output (length out.old)) (MovedOut (take result out.new)) }
    ensures written { can_write sender.new.sending ≡ false }

    // So a loop that moves all bytes out ends.
    ensures less { 0 < result → left_to_send sender.new.sending < left_to_send sender.old.sending }
{
    sender.output(out)
}

/// Closes the connection [2.4.3]. Returns whether it could.
pub fn close<A: Allocator + Copy>(sender: &mut Sender<A>) -> bool
    ensures may { result ≡ may_close sender.old.sending }
    ensures closed { IsTrue result → sender.new ≡ record sender.old { sending = send_after sender.old.sending SendEvent.CloseWritten } }
    ensures unchanged { IsFalse result → sender.new ≡ sender.old }
    ensures does { Does sender.old sender.new Close (Closed result) }
    ensures written { can_write sender.new.sending ≡ false }
{
    sender.close()
}
