ghost use Rattle.nova_ec.specs.Ways.{ChasesEnd, ChasesGoOn, CirclesAreWays, OnlyDonorsChange, UnmovedKeepsChases, SameStateKeepsChases, JoiningMovesNone, OthersStay, SameActs};
ghost use Rattle.nova_ec.specs.Changes.{ChangesKeep, DeedsKeep, ServingKeeps, ParkingKeeps, AnsweringKeeps, ResumingKeeps, SendingKeeps, CompletingKeeps, NewWays, ActingKeepsChases, DeedsKeepChases, OthersStayTwice};

/// Each chase ends in the first on its way with which turns stay.
#[tactic(auto, using(crate::proofs::Ends::chases_end))]
pub fn chases_end()
    ensures { ChasesEnd }
{}

/// A chase by its steps: it stays, or goes on from the context that the edge leads to.
#[tactic(auto, using(crate::proofs::Ends::chases_go_on))]
pub fn chases_go_on()
    ensures { ChasesGoOn }
{}

/// A circle is a way along edges, however long.
#[tactic(auto, using(crate::proofs::Ends::circles_are_ways))]
pub fn circles_are_ways()
    ensures { CirclesAreWays }
{}

/// Where an execution context changes, turns of those that do not lead to it stay where they stayed. A change
/// that keeps the edge, and how others find it, moves no turns at all.
pub fn only_donors_change()
    ensures donors { OnlyDonorsChange }
    ensures unmoved { UnmovedKeepsChases }
{}

/// Every chase keeps its end and its actor: where an entry joins, those of all that were there; where an
/// execution context changes, those on other processors, and where it keeps its state, all.
#[tactic(auto, using(crate::proofs::Untouched::joining_moves_none, crate::proofs::Untouched::others_stay, crate::proofs::Untouched::same_actor))]
pub fn turns_stay()
    ensures joining { JoiningMovesNone }
    ensures others { OthersStay }
    ensures state { SameStateKeepsChases }
    ensures acts { SameActs }
{}

/// Edges, callers and numbers stay sound, and processors stay, where an execution context becomes another that
/// it may become. That is by each deed, where a new edge is allowed to it; where it serves a caller that it may
/// serve; where it is parked; where its call ends; where it goes on after a reply.
pub fn changes_keep()
    ensures changes { ChangesKeep }
    ensures deeds { DeedsKeep }
    ensures serving { ServingKeeps }
    ensures parking { ParkingKeeps }
    ensures answering { AnsweringKeeps }
    ensures resuming { ResumingKeeps }
{}

/// Edges, callers and numbers stay sound where a call or an exit is sent, and where a reply completes.
pub fn calls_keep()
    ensures sending { SendingKeeps }
    ensures completing { CompletingKeeps }
{}

/// Where an execution context changes, a new way along edges is an old one or passes it.
pub fn new_ways()
    ensures { NewWays }
{}

/// An execution context that acts before and after it changes moves no turns, wherever its edge leads.
pub fn acting_keeps_chases()
    ensures acting { ActingKeepsChases }
    ensures deeds { DeedsKeepChases }
{}

/// Where two execution contexts of one processor change, turns on other processors stay.
pub fn others_stay_twice()
    ensures { OthersStayTwice }
{}
