//! Counts of the deliveries that a range of ids names, by how they
//! stand.
ghost use Rattle.std.specs.Prelude.{◌≡◌, ◌+◌, ◌<◌, ◌^◌};
ghost use Rattle.amqp_session.specs.Surveys.{IsNoted, in_all, survey_fault};

use crate::fault::CallFault;
use amqp_link::Standing;
use amqp_perform::ReceiverSettleMode;

/// How many of some open deliveries stand in each way.
#[derive(Clone, Copy)]
pub struct Survey {
    /// Those that were not handed up.
    pub untaken: u32,
    /// Those whose outcome the sender was told.
    pub told: u32,
    /// Those in mode first that the receiver can settle.
    pub to_settle: u32,
    /// Those in mode second whose outcome the receiver can tell.
    pub to_tell: u32,
}

impl Survey {
    /// Returns the counts of no deliveries.
    pub fn new() -> Survey
        ensures untaken { result.untaken ≡ 0 }
        ensures told { result.told ≡ 0 }
        ensures to_settle { result.to_settle ≡ 0 }
        ensures to_tell { result.to_tell ≡ 0 }
    {
        Survey {
            untaken: 0,
            told: 0,
            to_settle: 0,
            to_tell: 0,
        }
    }

    /// Returns the counts with one more delivery, which stands as
    /// given. An absent one is not counted.
    pub fn noted(self, standing: Standing) -> Survey
        requires { in_all self < 2 ^ 31 }
        ensures { IsNoted self standing result }
    {
        let mut survey = self;
        match standing {
            Standing::Absent => {}
            Standing::Untaken => survey.untaken += 1,
            Standing::Told => survey.told += 1,
            Standing::Awaiting(ReceiverSettleMode::First) => survey.to_settle += 1,
            Standing::Awaiting(ReceiverSettleMode::Second) => survey.to_tell += 1,
        }
        survey
    }

    /// Returns the sum of both counts.
    pub fn joined(self, other: Survey) -> Survey
        requires { in_all self + in_all other < 2 ^ 32 }
        ensures untaken { result.untaken ≡ self.untaken + other.untaken }
        ensures told { result.told ≡ self.told + other.told }
        ensures to_settle { result.to_settle ≡ self.to_settle + other.to_settle }
        ensures to_tell { result.to_tell ≡ self.to_tell + other.to_tell }
    {
        Survey {
            untaken: self.untaken + other.untaken,
            told: self.told + other.told,
            to_settle: self.to_settle + other.to_settle,
            to_tell: self.to_tell + other.to_tell,
        }
    }

    /// Returns why a settle can't name all of the deliveries; `None` if
    /// it can.
    pub fn fault(self) -> Option<CallFault>
        ensures { result ≡ survey_fault self }
    {
        if self.untaken > 0 {
            Some(CallFault::NotTaken)
        } else if self.told > 0 {
            Some(CallFault::AlreadyTold)
        } else if self.to_settle > 0 && self.to_tell > 0 {
            Some(CallFault::MixedModes)
        } else {
            None
        }
    }
}
