//! The state of the devices and triggers as plain data, and what a connection's calls and a trigger's entries make of it:
//! definitions that sessions, the bench and the history cite.
#![tactic(auto)]

ghost use Rattle.iio_core.specs.DeviceLaw.{EventsAgree, HandlingsAgree, HoldingsAgree, JoinsAgree, LeavesAgree, LooksAgree, PlacesAgree, QueuesAreMet, QueuesStand, ReadsAgree, ReleasesAgree, RemasksAgree, RemasksStay, RingsAreMet, SamplesAgree, TriggersAgree, UnpluggingsAgree, WritesAgree};

mod became;
mod limits;

pub use became::{Became, Gave};
use iio_kfifo::Tail;
pub use limits::MAX_SCANS;

/// What each call of a device makes of the device's own view agrees with what the plain state makes of the device, for any kind
/// of queue's end that its members have.
pub fn device_law<Q: Tail>()
    ensures joins { JoinsAgree Q.Tail }
    ensures leaves { LeavesAgree Q.Tail }
    ensures remasks { RemasksAgree Q.Tail }
    ensures stay { RemasksStay Q.Tail }
    ensures places { PlacesAgree Q.Tail }
    ensures handlings { HandlingsAgree Q.Tail }
    ensures writes { WritesAgree Q.Tail }
    ensures triggers { TriggersAgree Q.Tail }
    ensures samples { SamplesAgree Q.Tail }
    ensures reads { ReadsAgree Q.Tail }
    ensures looks { LooksAgree Q.Tail }
    ensures unpluggings { UnpluggingsAgree Q.Tail }
    ensures holdings { HoldingsAgree Q.Tail }
    ensures events { EventsAgree Q.Tail }
    ensures releases { ReleasesAgree Q.Tail }
{}

/// The kinds of queues that there are treat an offer as a bounded queue does.
pub fn queue_law()
    ensures queues { QueuesAreMet }
    ensures stand { QueuesStand }
    ensures rings { RingsAreMet }
{}
