//! Calls of a spool, one after the other.
ghost use Rattle.std.specs.Prelude.{◌≡◌, true};
ghost use Rattle.amqp_spool.specs.Runs.{HasRun};
ghost use Rattle.amqp_spool.specs.Sayings.{Puts};
ghost use Rattle.amqp_spool.specs.Spools.{IsSound, Has};

use crate::entry::Introduction;
use crate::folder::Folder;
use crate::spool::Spool;

/// A call of a spool.
#[derive(Clone, Copy, Debug, PartialEq, Eq)]
pub enum Call<'a> {
    /// [`Spool::open_link`].
    OpenLink(Introduction<'a>),
    /// [`Spool::close_link`].
    CloseLink(u32),
    /// [`Spool::put`].
    Put {
        link: u32,
        tag: &'a [u8],
        bytes: &'a [u8],
    },
    /// [`Spool::settle`].
    Settle {
        arrived: u64,
        secret: [u8; 16],
    },
    /// [`Spool::tend`].
    Tend(u64),
    /// [`Spool::free`].
    Free,
}

/// Makes these calls, whatever they answer. At each moment of it the folder keeps what was told before, and what was
/// told by then.
pub fn run<F: Folder + Drop>(spool: &mut Spool<F>, calls: &[Call])
    requires { IsSound F.history spool.old }
    ensures sound { IsSound F.history spool.new }
    ensures ran { (told waiting : Puts) → Has F.history told waiting spool.old → HasRun F.history told spool.old spool.new }
{
    'calls: for call in calls {
        make(spool, call);
    }
}

/// Makes a call, whatever it answers.
fn make<F: Folder + Drop>(spool: &mut Spool<F>, call: &Call)
    requires { IsSound F.history spool.old }
    ensures sound { IsSound F.history spool.new }
    ensures ran { (told waiting : Puts) → Has F.history told waiting spool.old → HasRun F.history told spool.old spool.new }
    ensures failed { spool.old.journal.failed ≡ true → spool.new.journal ≡ spool.old.journal }
{
    match *call {
        Call::OpenLink(from) => {
            let _ = spool.open_link(&from);
        }
        Call::CloseLink(link) => spool.close_link(link),
        Call::Put { link, tag, bytes } => {
            let _ = spool.put(link, tag, bytes);
        }
        Call::Settle { arrived, secret } => {
            let _ = spool.settle(arrived, secret);
        }
        Call::Tend(passed) => {
            let _ = spool.tend(passed);
        }
        Call::Free => {
            let _ = spool.free();
        }
    }
}
