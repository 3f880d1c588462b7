//! The size and the count of lists, maps and arrays.

ghost use Rattle.std.specs.Prelude.{◌≡◌, ◌+◌, ◌≤◌, ◌<◌, ◌^◌, length, IfOk};
ghost use Rattle.amqp_types.specs.Spelling.{size_len};
ghost use Rattle.amqp_types.specs.Reading.{Is, block_at, count_at, ended};

use crate::code::SizeWidth;
use crate::fault::ReadFault;
use crate::scalar::size_len;
use crate::window::Window;

/// The bytes that a size counts, with their window, and the bytes after them.
#[derive(Clone, Copy)]
pub struct Block<'a> {
    pub within: Window,
    pub body: &'a [u8],
    pub behind: &'a [u8],
}

/// Reads a size at the front and returns its block; a size below `least` is `BadSize`.
#[tactic(auto, unfolding(crate::specs::Reading::block_at))]
pub fn block_at(
    w: Window,
    size: SizeWidth,
    least: usize,
    bytes: &[u8],
) -> Result<Block<'_>, ReadFault>
    requires { length bytes.now ≤ w.end }
    ensures read { Is (λ b. record { within = b.within; body = b.body.now; behind = b.behind.now }) result (block_at w size least bytes.now) }
    ensures inside { IfOk result (λ b. length b.body.now ≤ b.within.end) }
    ensures rest { IfOk result (λ b. length b.behind.now ≤ length bytes.now) }
    ensures some { IfOk result (λ b. least ≤ length b.body.now) }
{
    let (len, rest) = w.big(size_len(size), bytes)?;
    if len < least as u64 {
        return Err(ReadFault::BadSize(w.place(bytes)));
    }
    let (body, behind) = w.octets(len as usize, rest)?;
    let within = Window {
        short: ReadFault::BadSize(w.place(bytes)),
        end: w.place(behind),
    };
    Ok(Block {
        within,
        body,
        behind,
    })
}

/// Reads the count of a block's parts, which is even for a map; returns it and the bytes after it.
#[tactic(auto, unfolding(crate::specs::Reading::count_at))]
pub fn count_at(
    w: Window,
    size: SizeWidth,
    paired: bool,
    bytes: &[u8],
) -> Result<(usize, &[u8]), ReadFault>
    requires { length bytes.now ≤ w.end }
    ensures read { Is (λ x. (x.0, x.1.now)) result (count_at w size paired bytes.now) }
    ensures rest { IfOk result (λ x. length x.1.now ≤ length bytes.now) }
{
    let (count, rest) = w.big(size_len(size), bytes)?;
    let count = count as usize;
    if paired && count % 2 == 1 {
        return Err(ReadFault::BadCount(w.place(bytes)));
    }
    Ok((count, rest))
}

/// Checks that nothing is left in the block.
pub fn ended(w: Window, rest: &[u8]) -> Result<(), ReadFault>
    ensures { Is (λ x. x) result (ended w rest.now tt) }
{
    if rest.is_empty() {
        Ok(())
    } else {
        Err(w.short)
    }
}
