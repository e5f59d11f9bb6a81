//! What holds over every run of the system.

ghost use Rattle.vb_host.specs.Promises.{BudgetHolds, LimitsHold, TowardNeverWaits, NeverStuck};
ghost use Rattle.vb_host.specs.Promises.{TowardNeverWaitsLater, NobodyWaits, IsTheLender};
ghost use Rattle.vb_host.specs.Promises.{StepsSettle, SettledStays};
ghost use Rattle.vb_host.specs.Promises.{TargetsArePossible, OneOutcome, StepsAreEvents};
ghost use Rattle.vb_host.specs.Promises.{LeavesRoom, NeverBelowWanted, NeverMore, IsPaidBack};
ghost use Rattle.vb_host.specs.Promises.{ReportsTell};
ghost use Rattle.vb_host.specs.Turns.{GrantsInTurn, TurnsRise, ComesLast, LinesOrder, NoneIsPassed};
ghost use Rattle.vb_host.specs.Turns.{EventsLendNothing, JustOne, IsPreferred, StaysPreferred};
ghost use Rattle.vb_host.specs.Turns.{OneProceeds, OneProceedsBySteps};
ghost use Rattle.vb_host.specs.Patience.{DefersNone, DefersToTheLastLine, AllPass, OthersStay};
ghost use Rattle.vb_host.specs.Patience.{NonePasses, StaysDeferred, EndsWithItsWait};
ghost use Rattle.vb_host.specs.Promises.{Uncounted, StaysUncounted, UncountedHasAll};
ghost use Rattle.vb_host.specs.Rounds.{RoundsSettle, TwoRoundsSuffice};
ghost use Rattle.vb_host.specs.Outstanding.{RoundsPay, OwnMovesChangeNone, WaitsForPages};
ghost use Rattle.vb_host.specs.Outstanding.{OneRoundEach, TwoRoundsEach, WaitersGoDeeper};
ghost use Rattle.vb_host.specs.System.{Host};
ghost use Rattle.std.specs.Prelude.{ℕ};

/// In each state of each run the guests together use no more than the budget.
pub fn the_budget_holds()
    ensures holds { BudgetHolds }
{}

/// From any state on, as after a budget was lowered, they never use more than the larger of the
/// budget and what they were lent.
pub fn a_lower_budget_takes_effect()
    ensures more { NeverMore }
    ensures paid { IsPaidBack }
{}

/// In each state of each run no guest uses more than the limit that its kernel has in force.
pub fn the_limits_hold()
    ensures hold { LimitsHold }
{}

/// A deflate that goes no deeper than the target which its driver has read is granted by its
/// report.
pub fn toward_a_target_never_waits()
    ensures granted { TowardNeverWaits }
    ensures later { TowardNeverWaitsLater }
{}

/// Where nothing is on its way, those that don't wait have reached their targets, and the targets
/// serve, the first that waits is granted.
pub fn never_stuck_unless_short()
    ensures granted { NeverStuck }
    ensures nobody { NobodyWaits }
{}

/// Once the lender received a report, it knows what that tells.
pub fn reports_tell()
    ensures tell { ReportsTell }
{}

/// What the code makes of an event is what the system's lender does; and a step is its event, then
/// grants, then targets.
pub fn the_lender_is_the_systems()
    ensures same { (h : Host) (n m : ℕ) → IsTheLender h n m }
    ensures steps { StepsAreEvents }
{}

/// A grant that lends anything is that of the first that waits; a guest that waits from now on, and
/// isn't preferred, comes last in its line; those of an earlier line come first, and in one line
/// those that are preferred.
pub fn grants_go_in_turn()
    ensures first { GrantsInTurn }
    ensures turns { TurnsRise }
    ensures last { ComesLast }
    ensures lines { LinesOrder }
{}

/// Where a guest still waits after a step, none that comes after it is lent more by that step, nor
/// by its event.
pub fn none_is_passed()
    ensures passed { NoneIsPassed }
    ensures events { EventsLendNothing }
{}

/// The host prefers one guest at a time; while that waits, no other guest of its line, or of a
/// later one, is lent anything by a grant, or by a step after its event.
pub fn one_proceeds()
    ensures just_one { JustOne }
    ensures preferred { IsPreferred }
    ensures stays { StaysPreferred }
    ensures grants { OneProceeds }
    ensures steps { OneProceedsBySteps }
{}

/// A guest that waits in a reset or to come lets others pass: all that wait come before it then,
/// and after that none passes it while it waits on, but for one that comes to an earlier line. It
/// lends nothing, and changes no other guest.
pub fn one_lets_others_pass()
    ensures none { DefersNone }
    ensures line { DefersToTheLastLine }
    ensures all { AllPass }
    ensures others { OthersStay }
    ensures order { NonePasses }
    ensures stays { StaysDeferred }
    ensures ends { EndsWithItsWait }
{}

/// Once a guest's balloon counts no longer, that stays so until another guest is at its place:
/// all its pages are lent to it, and it doesn't wait after any step.
pub fn uncounted_stays()
    ensures uncounts { Uncounted }
    ensures stays { StaysUncounted }
    ensures all { UncountedHasAll }
{}

/// One read, one report, and the pages that a guest's target says, leave nothing on its way between
/// the guest and the lender, unless that is the grant of its deflate; and another such round
/// nothing.
pub fn one_round_settles()
    ensures settles { RoundsSettle }
    ensures suffice { TwoRoundsSuffice }
{}

/// A round of a guest leaves it nothing to give, and no grant and no target changes what all still
/// have to give; where a guest waits after a step, that and what all need is more than the frames,
/// and the deflate that it holds back goes deeper than its target.
pub fn a_round_leaves_nothing_to_give()
    ensures pay { RoundsPay }
    ensures own { OwnMovesChangeNone }
    ensures waits { WaitsForPages }
    ensures deeper { WaitersGoDeeper }
{}

/// Once each guest that has something to give had one round, none waits after the next step, unless
/// all need more than the frames; and after another one no process holds back a deflate.
pub fn one_round_each_serves_all()
    ensures serve { OneRoundEach }
    ensures receive { TwoRoundsEach }
{}

/// A step has one outcome, and leaves nothing to grant, and no target that may be nearer to what is
/// wanted; so that a step by an event that changes nothing changes nothing.
pub fn steps_settle()
    ensures settle { StepsSettle }
    ensures one { OneOutcome }
    ensures targets { TargetsArePossible }
    ensures stays { SettledStays }
{}

/// A target lends nothing of what those that wait ask for, and none is below the one that is
/// wanted.
pub fn targets_leave_room()
    ensures room { LeavesRoom }
    ensures wanted { NeverBelowWanted }
{}
