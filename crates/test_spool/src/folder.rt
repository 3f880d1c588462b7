//! A folder that fails at a call.

ghost use Rattle.std.specs.Prelude.{None};

use crate::host::Host;
use crate::words::Words;
use amqp_spool::{Dir, End, Folder, FolderFault, Named};
use std::alloc::{AllocError, Global};
use std::cell::Cell;
use test_row_files::Miss;

/// A call of a folder that can fail.
#[derive(Clone, Copy, PartialEq, Eq)]
pub enum Call {
    Read,
    Prepare,
    Append,
    Sync,
    Add,
    RaiseFloor,
    RemoveOldest,
}

/// What a folder may still be asked.
#[derive(Clone, Copy)]
enum State {
    Well,
    /// No write or sync of the newest segment, until one is added.
    Spent,
    /// Nothing.
    Failed,
}

/// A call of a folder that fails.
#[derive(Clone, Copy)]
struct Fault {
    call: Call,
    /// How many calls of this kind there are up to the one that fails, which is among them.
    left: u32,
    fault: FolderFault,
    /// Whether what was asked is done all the same.
    is_done: bool,
}

/// Which calls of a folder fail, and what was asked of it after that.
#[derive(Drop)]
pub struct Plan {
    fault: Cell<Option<Fault>>,
    /// The one that is planned once that has come.
    then: Cell<Option<Fault>>,
    state: Cell<State>,
    /// Whether something was asked that may not be.
    was_asked: Cell<bool>,
}

impl Plan {
    /// Returns the plan that no call fails.
    pub fn new() -> Plan {
        Plan {
            fault: Cell::new(None),
            then: Cell::new(None),
            state: Cell::new(State::Well),
            was_asked: Cell::new(false),
        }
    }

    /// Plans the fault of these words, as `Full add 2`: the second `add` from now on is `Full`. A word `done` after
    /// them says that it is done all the same. After `then` may stand another, which is counted from there on.
    pub fn set(&self, words: &str) -> Result<(), Miss> {
        self.then.set(None);
        let first = match words.split_once(" then ") {
            Some((first, then)) => {
                self.then.set(Some(Fault::of(then)?));
                first
            }
            None => words,
        };
        self.fault.set(Some(Fault::of(first)?));
        self.state.set(State::Well);
        self.was_asked.set(false);
        Ok(())
    }

    /// Plans that no call fails. Returns whether one was still to fail.
    pub fn clear(&self) -> bool {
        self.state.set(State::Well);
        self.then.set(None);
        self.fault.replace(None).is_some()
    }

    /// Notes that the folder is opened again.
    pub fn open(&self) {
        self.state.set(State::Well);
    }

    /// Returns whether something was asked that may not be.
    pub fn was_asked(&self) -> bool {
        self.was_asked.get()
    }

    /// Counts a call. Returns the fault that it is to tell once it is done.
    fn begin(&self, call: Call) -> Result<Option<FolderFault>, FolderFault> {
        if self.is_refused(call) {
            self.was_asked.set(true);
            return Err(FolderFault::Failed);
        }
        let Some(fault) = self.met(call) else {
            return Ok(None);
        };
        self.state.set(self.state_after(call, fault.fault));
        if fault.is_done {
            Ok(Some(fault.fault))
        } else {
            Err(fault.fault)
        }
    }

    /// Counts a call. Returns its fault if it is the one that fails.
    fn met(&self, call: Call) -> Option<Fault> {
        let mut fault = self.fault.get()?;
        if fault.call != call {
            return None;
        }
        fault.left = fault.left.saturating_sub(1);
        if fault.left > 0 {
            self.fault.set(Some(fault));
            return None;
        }
        self.fault.set(self.then.replace(None));
        Some(fault)
    }

    /// Returns whether this call may not be made any more.
    fn is_refused(&self, call: Call) -> bool {
        match self.state.get() {
            State::Well => false,
            State::Spent => call == Call::Append || call == Call::Sync,
            State::Failed => true,
        }
    }

    /// Returns what may be asked after this call has told this fault.
    fn state_after(&self, call: Call, fault: FolderFault) -> State {
        match call {
            Call::Append | Call::Sync => State::Spent,
            Call::RemoveOldest => State::Failed,
            Call::Prepare | Call::Add | Call::RaiseFloor if fault == FolderFault::Failed =>
                State::Failed,
            Call::Read | Call::Prepare | Call::Add | Call::RaiseFloor => self.state.get(),
        }
    }

    /// Notes that a segment was added.
    fn added(&self) {
        self.state.set(State::Well);
    }
}

impl Fault {
    /// Returns the fault of words as `Full add 2 done`.
    fn of(words: &str) -> Result<Fault, Miss> {
        let (words, is_done) = match words.strip_suffix(" done") {
            Some(words) => (words, true),
            None => (words, false),
        };
        let mut words = Words::of(words);
        let fault = fault_of(words.word()?)?;
        let call = call_of(words.word()?)?;
        let left = words.number()?;
        words.end()?;
        Ok(Fault {
            call,
            left,
            fault,
            is_done,
        })
    }
}

/// Returns what a call tells that was done.
fn told(fault: Option<FolderFault>) -> Result<(), FolderFault> {
    match fault {
        Some(fault) => Err(fault),
        None => Ok(()),
    }
}

fn fault_of(word: &str) -> Result<FolderFault, Miss> {
    match word {
        "Full" => Ok(FolderFault::Full),
        "Failed" => Ok(FolderFault::Failed),
        _ => Err(Miss::Unread("no such fault")),
    }
}

fn call_of(word: &str) -> Result<Call, Miss> {
    match word {
        "read" => Ok(Call::Read),
        "prepare" => Ok(Call::Prepare),
        "append" => Ok(Call::Append),
        "sync" => Ok(Call::Sync),
        "add" => Ok(Call::Add),
        "raise_floor" => Ok(Call::RaiseFloor),
        "remove_oldest" => Ok(Call::RemoveOldest),
        _ => Err(Miss::Unread("no such call of a folder")),
    }
}

/// A directory whose calls fail as planned.
#[derive(Drop)]
pub struct Failing<'a> {
    pub dir: Dir<Host<HostRuntime>>,
    pub plan: &'a Plan,
}

impl Folder for Failing<'_> {
    ghost history = { λ _. None };

    ghost positions = { λ _. None };

    ghost shown = { λ _. None };

    fn names(&self, alloc: Global) -> Result<Vec<Named>, AllocError> {
        self.dir.names(alloc)
    }

    fn floor(&self) -> u64 {
        self.dir.floor()
    }

    fn shown(&self) -> u64 {
        self.dir.shown()
    }

    fn read(&self, index: usize, at: u64, out: &mut [u8]) -> Result<(), FolderFault> {
        let fault = self.plan.begin(Call::Read)?;
        self.dir.read(index, at, out)?;
        told(fault)
    }

    fn prepare(&mut self) -> Result<(), FolderFault> {
        let fault = self.plan.begin(Call::Prepare)?;
        self.dir.prepare()?;
        told(fault)
    }

    fn append(&mut self, bytes: &[u8]) -> Result<(), FolderFault> {
        let fault = self.plan.begin(Call::Append)?;
        self.dir.append(bytes)?;
        told(fault)
    }

    fn sync(&mut self) -> Result<(), FolderFault> {
        let fault = self.plan.begin(Call::Sync)?;
        self.dir.sync()?;
        told(fault)
    }

    fn add(&mut self, first: u64, bytes: &[u8]) -> Result<(), FolderFault> {
        let fault = self.plan.begin(Call::Add)?;
        self.dir.add(first, bytes)?;
        told(fault)?;
        self.plan.added();
        Ok(())
    }

    fn raise_floor(&mut self, number: u64) -> Result<(), FolderFault> {
        let fault = self.plan.begin(Call::RaiseFloor)?;
        self.dir.raise_floor(number)?;
        told(fault)
    }

    fn remove_oldest(&mut self) -> Result<(), FolderFault> {
        let fault = self.plan.begin(Call::RemoveOldest)?;
        self.dir.remove_oldest()?;
        told(fault)
    }

    fn publish(&mut self, end: &End) -> Result<(), FolderFault> {
        self.dir.publish(end)
    }

    fn passed(&mut self) -> Option<u64> {
        self.dir.passed()
    }

    fn let_go(&mut self) {
        self.dir.let_go();
    }
}
