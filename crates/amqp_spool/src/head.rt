//! The head of a segment.
ghost use Rattle.std.specs.Prelude.{◌≡◌, ◌≢◌, ◌≤◌, ◌+◌, ◌++◌, take, drop, length, None, IfSome};
ghost use Rattle.std.specs.Int.{w64, from_be_bytes};
ghost use Rattle.amqp_spool.specs.Heads.{IsHead, head_front, head_text};
ghost use Rattle.amqp_spool.specs.Sums.{sum_of};

use crate::sum::sum_of;

/// How many bytes the head of a segment has.
pub const HEAD: usize = 80;

const MAGIC: [u8; 8] = *b"amqpsp1\n";

/// What a segment says of itself.
#[derive(Clone, Copy, Debug, PartialEq, Eq)]
pub struct Head {
    /// The spool.
    pub spool: [u8; 16],
    /// What the sums of the segment are made with. No sender knows it.
    pub secret: [u8; 16],
    /// The number of its first record.
    pub first: u64,
    /// The number of the first record of the segment before.
    pub before: u64,
    /// How many bytes of that segment count.
    pub counted: u64,
    /// How often the gateway was started.
    pub life: u64,
}

impl Head {
    /// Returns the bytes of the head.
    #[tactic(auto, unfolding(crate::specs::Heads::head_text))]
    pub fn to_bytes(&self) -> [u8; HEAD]
        ensures { result ≡ head_text self.now }
    {
        let mut bytes = [0; HEAD];
        let front = self.front();
        put(&mut bytes, 0, &front);
        put(&mut bytes, 72, &self.sum().to_be_bytes());
        bytes
    }

    /// Reads a head that these bytes begin with. Returns `None` if they begin with none.
    pub fn read(bytes: &[u8]) -> Option<Head>
        ensures is { IfSome result IsHead }
        ensures some { IfSome result (λ head. take HEAD bytes.now ≡ head_text head) }
        ensures none { result ≡ None → (head : Head) → IsHead head → take HEAD bytes.now ≢ head_text head }
    {
        let Some(text) = bytes.get(..HEAD) else {
            return None;
        };
        let head = Head {
            spool: sixteen_at(text, 8),
            secret: sixteen_at(text, 24),
            first: number_at(text, 40),
            before: number_at(text, 48),
            counted: number_at(text, 56),
            life: number_at(text, 64),
        };
        if head.to_bytes().as_slice() == text {
            Some(head)
        } else {
            None
        }
    }

    /// Returns the sum in the head. Two segments of one name have the same only if a start has copied one.
    pub fn sum(&self) -> u64
        ensures { result ≡ sum_of self.now.secret (head_front self.now) }
    {
        sum_of(&self.secret, &self.front(), &[])
    }

    /// Returns the bytes of the head without their sum.
    #[tactic(auto, unfolding(crate::specs::Heads::head_front))]
    fn front(&self) -> [u8; 72]
        ensures { result ≡ head_front self.now }
    {
        let mut bytes = [0; 72];
        put(&mut bytes, 0, &MAGIC);
        put(&mut bytes, 8, &self.spool);
        put(&mut bytes, 24, &self.secret);
        put(&mut bytes, 40, &self.first.to_be_bytes());
        put(&mut bytes, 48, &self.before.to_be_bytes());
        put(&mut bytes, 56, &self.counted.to_be_bytes());
        put(&mut bytes, 64, &self.life.to_be_bytes());
        bytes
    }
}

/// Copies the bytes into `out`, from `at` on.
pub fn put(out: &mut [u8], at: usize, bytes: &[u8])
    requires { at + length bytes.now ≤ length out.old }
    ensures length { length out.new ≡ length out.old }
    ensures written { take (at + length bytes.now) out.new ≡ take at out.old ++ bytes.now }
{
    out[at..at + bytes.len()].copy_from_slice(bytes);
}

/// Returns the 16 bytes at `at`.
pub fn sixteen_at(text: &[u8], at: usize) -> [u8; 16]
    requires { at + 16 ≤ length text.now }
    ensures { result ≡ take 16 (drop at text.now) }
{
    let mut bytes = [0; 16];
    bytes.copy_from_slice(&text[at..at + 16]);
    bytes
}

/// Returns the number of 8 bytes at `at`.
pub fn number_at(text: &[u8], at: usize) -> u64
    requires { at + 8 ≤ length text.now }
    ensures { result ≡ from_be_bytes w64 (take 8 (drop at text.now)) }
{
    let mut bytes = [0; 8];
    bytes.copy_from_slice(&text[at..at + 8]);
    u64::from_be_bytes(bytes)
}
