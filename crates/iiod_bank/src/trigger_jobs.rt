//! The jobs at a trigger.

use crate::bank::TriggerJob;
use iio_trigger::{Due, Polled, Trigger};

/// The job of a poll at a moment.
#[derive(Drop)]
pub struct PollJob {
    pub t: i64,
}

impl TriggerJob for PollJob {
    ghost use Rattle.iio_trigger.specs.Trigger.{Polls};

    type Out = Polled;

    ghost makes = { λ j s o t. Polls s j.t o t };

    fn run(self, trigger: &mut Trigger) -> Polled {
        trigger.poll(self.t)
    }
}

/// Takes the entry of a device in hand.
#[derive(Drop)]
pub struct DueJob {
    pub dev: u32,
}

impl TriggerJob for DueJob {
    ghost use Rattle.iiod_bank.specs.TriggerJobs.{DueMakes};

    type Out = Option<Due>;

    ghost makes = { λ j s o t. DueMakes j.dev s o t };

    fn run(self, trigger: &mut Trigger) -> Option<Due> {
        trigger.due(self.dev)
    }
}

/// Removes an entry that was handled. The job owns the entry, so only running the job consumes it.
pub struct DoneJob {
    pub due: Due,
}

impl TriggerJob for DoneJob {
    ghost use Rattle.iiod_bank.specs.TriggerJobs.{DoneMakes};

    type Out = bool;

    ghost makes = { λ j s o t. DoneMakes j.due s o t };

    fn run(self, trigger: &mut Trigger) -> bool {
        let DoneJob { due } = self;
        trigger.done(due)
    }
}
