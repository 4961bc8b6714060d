//! A connection's transcript with and without the other connections.
#![tactic(auto)]

ghost use Rattle.iio_worlds.specs.Worlds.{TwoWorlds, OffenceIs, StartDecides};
ghost use Rattle.iio_worlds.specs.Stance.{StanceDecides, StepDecides, SeatsTell, OthersAreThere, ClientsDecide};
ghost use Rattle.iio_worlds.specs.Solo.{SoloIsTwice, RunKeeps, OffenceLineIs, BadLineIsFirst, WorldsAreAlike, OffenderIsRefused};
ghost use Rattle.iio_worlds.specs.KeptOn.{KeptGoesOn};
ghost use Rattle.iio_worlds.specs.OwnLines.{OwnLinesPlay};

/// If the others are bystanders, the transcript of a connection is the same with them and without them.
pub fn two_worlds()
    ensures two_worlds { TwoWorlds }
    ensures offence { OffenceIs }
    ensures start { StartDecides }
{}

/// Who has what open before a step decides whether the step meets the rules, and so do the seats that the connections hold.
pub fn stance_law()
    ensures item { StanceDecides }
    ensures step { StepDecides }
    ensures seats { SeatsTell }
    ensures others { OthersAreThere }
    ensures clients { ClientsDecide }
{}

/// Both texts of a connection's worlds are the one that a single run keeps. A refused line counts before any step against the
/// rules; of such steps, the first one's line is reported.
pub fn solo_law()
    ensures twice { SoloIsTwice }
    ensures run { RunKeeps }
    ensures line { OffenceLineIs }
    ensures bad { BadLineIsFirst }
    ensures on { KeptGoesOn }
    ensures own { OwnLinesPlay }
    ensures alike { WorldsAreAlike }
    ensures offender { OffenderIsRefused }
{}
