//! The time that counts for the peers.

ghost use Rattle.std.specs.Prelude.{◌≡◌, ◌≤◌, ◌+◌, ◌-◌};

/// How much longer than it was to wait a turn may take before the time counts for nobody, in milliseconds.
const SLACK: u64 = 1000;

/// The time that counts for the peers, in milliseconds. It is the caller's time, without what passed while the
/// gateway could not look at them, since its records were not taken or it was held up itself.
#[derive(Clone, Copy, Debug)]
pub struct Passed {
    millis: u64,
    seen: u64,
    awaited: u64,
}

impl Passed {
    pub fn new(now: u64) -> Passed {
        Passed {
            millis: 0,
            seen: now,
            awaited: 0,
        }
    }

    /// Returns how many milliseconds count until now.
    pub fn millis(self) -> u64
        ensures { result ≡ self.millis }
    {
        self.millis
    }

    /// Returns the caller's time as it was given last.
    pub fn seen(self) -> u64
        ensures { result ≡ self.seen }
    {
        self.seen
    }

    /// Takes the caller's time. What passed counts, up to what the turn was to wait and [`SLACK`] more.
    pub fn go_on(&mut self, now: u64)
        ensures seen { self.new.seen ≡ now }
        ensures least { self.old.millis ≤ self.new.millis }
        ensures most { self.new.millis ≤ self.old.millis + (now - self.old.seen) }
        ensures held_up { self.new.millis ≤ self.old.millis + (self.old.awaited + SLACK) }
    {
        let most = self.awaited.saturating_add(SLACK);
        let went = now.saturating_sub(self.seen).min(most);
        self.millis = self.millis.saturating_add(went);
        self.seen = now;
    }

    /// Takes the caller's time. Nothing of what passed counts.
    pub fn stand_still(&mut self, now: u64)
        ensures seen { self.new.seen ≡ now }
        ensures millis { self.new.millis ≡ self.old.millis }
    {
        self.seen = now;
    }

    /// Notes how many milliseconds the turn waits at most.
    pub fn wait(&mut self, millis: u64)
        ensures awaited { self.new.awaited ≡ millis }
        ensures millis { self.new.millis ≡ self.old.millis }
        ensures seen { self.new.seen ≡ self.old.seen }
    {
        self.awaited = millis;
    }
}
