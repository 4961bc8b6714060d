//! The history of the core, the plain state that it tells, and the laws that join these two, and that state to a session's.
#![tactic(auto)]

ghost use Rattle.iio_history.specs.Law.{StepIsTold, MachineIsTold, QueuesArePrivate, MembersAreApart, OutputHasOne, GivenIsWritten, InnerIsThere, InnerIsEmpty, PluggedIsBases, MeansAre, MeansAlone, OthersAreAbsent, PlayedIsTranscript, OutstandingIs, ReadingIsOne};
ghost use Rattle.iio_history.specs.Numbered.{NumberedAreSteps};
ghost use Rattle.iio_history.specs.BenchLaw.{FirstIsBench, BenchIsKept, ToldIsBench, SizesAreSome, NamesStay, ArrivedIsThere, LiveIsThere, RoomLasts, ItemsAreActs, ActsTell, ClientsAreKept, NewIsClient, ArrivalIsNothing, EndsAreLeft, FeedsAreActs, ScriptFeedsTell, FeedsKeepClients};
ghost use Rattle.iio_history.specs.BenchMoves.{UnpluggingIs, ClockIs, PollIs, LookIs, HandlingIs, MovesPrint};
ghost use Rattle.iio_history.specs.ToldDevice.{EndsAgree, ToldHandlingsAgree, ToldLooksAgree};

mod limits;

use iio_kfifo::Tail;
pub use limits::{MAX_INPUT_BYTES, MAX_NAMES};

/// The plain machine computes the state that the history tells.
pub fn law()
    ensures step { StepIsTold }
    ensures machine { MachineIsTold }
    ensures queues { QueuesArePrivate }
    ensures apart { MembersAreApart }
    ensures one { OutputHasOne }
    ensures given { GivenIsWritten }
    ensures inner { InnerIsThere }
    ensures emptied { InnerIsEmpty }
    ensures plugged { PluggedIsBases }
    ensures means { MeansAre }
    ensures alone { MeansAlone }
    ensures others { OthersAreAbsent }
    ensures outstanding { OutstandingIs }
    ensures transcript { PlayedIsTranscript }
    ensures reading { ReadingIsOne }
    ensures numbered { NumberedAreSteps }
{}

/// What a session sees of the told state, and what its connection has there, agree with the history: item by item, and over
/// whole feeds.
pub fn bench_law()
    ensures first { FirstIsBench }
    ensures kept { BenchIsKept }
    ensures told { ToldIsBench }
    ensures sizes { SizesAreSome }
    ensures names { NamesStay }
    ensures arrived { ArrivedIsThere }
    ensures live { LiveIsThere }
    ensures room { RoomLasts }
    ensures items { ItemsAreActs }
    ensures acts { ActsTell }
    ensures others { ClientsAreKept }
    ensures arrives { NewIsClient }
    ensures arrival { ArrivalIsNothing }
    ensures ends { EndsAreLeft }
    ensures feeds { FeedsAreActs }
    ensures script { ScriptFeedsTell }
    ensures beside { FeedsKeepClients }
{}

/// What all other events do to the core, as a session sees the told state.
pub fn move_law()
    ensures unplugging { UnpluggingIs }
    ensures clock { ClockIs }
    ensures poll { PollIs }
    ensures look { LookIs }
    ensures handling { HandlingIs }
    ensures printed { MovesPrint }
{}

/// What an unplugging, a look at thresholds and the handling of an entry make of a device's own view is what the history
/// makes of the device, for any ends of its members' queues.
pub fn told_device_law<Q: Tail>()
    ensures ends { EndsAgree Q.Tail }
    ensures looks { ToldLooksAgree Q.Tail }
    ensures handlings { ToldHandlingsAgree Q.Tail }
{}
