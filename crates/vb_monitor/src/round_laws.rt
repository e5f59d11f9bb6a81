//! What notices come to for a device's rounds of hints, over its whole life.

ghost use Rattle.std.specs.Prelude.{◌≡◌, List, []};
ghost use Rattle.vb_core.specs.declared.kinds.Kind.{Kind};
ghost use Rattle.vb_core.specs.declared.device.Device.{Device};
ghost use Rattle.vb_core.specs.Hints.{no_round, round_after_all};
ghost use Rattle.vb_monitor.specs.declared.regions.Region.{Region};
ghost use Rattle.vb_monitor.specs.declared.outcome.Budget.{Budget};
ghost use Rattle.vb_monitor.specs.declared.outcome.HeldChain.{HeldChain};
ghost use Rattle.vb_monitor.specs.declared.outcome.Outcome.{Outcome};
ghost use Rattle.vb_monitor.specs.Accesses.{Access};
ghost use Rattle.vb_monitor.specs.Notices.{Serves, GivesHeldBack};
ghost use Rattle.vb_monitor.specs.SoFar.{Each};
ghost use Rattle.vb_monitor.specs.Turns.{HintsInRound};
ghost use Rattle.vb_monitor.specs.Rounds.{events_of, Deed, IsLife, AreHeard};

/// Pages are told as hinted only in a round that is open: by each id that the notice told before,
/// and else as the device's round was at first. Where it isn't, none is told, and each counts as
/// skipped. One notice is between two calls of the host, so no round begins, stops or ends within
/// it, and none is reset.
#[tactic(auto, using(crate::proofs::TurnLaws::hints_in_round))]
pub fn hints_are_told_in_their_round()
    ensures { (regions : List Region) (kind : Kind) (budget : Budget) (d1 d2 : Device)
        (outcome : Outcome) (log : List Access) →
        Serves regions kind budget d1 d2 outcome log → Each (HintsInRound d1) [] log }
{}

/// A notice leaves the device's round as the ids make it that it told, each as one that was read,
/// in their order; no other access changes the round. Nor does a held chain that is given back.
pub fn a_round_goes_by_the_ids_that_are_told()
    ensures noticed { (regions : List Region) (kind : Kind) (budget : Budget) (d1 d2 : Device)
        (outcome : Outcome) (log : List Access) →
        Serves regions kind budget d1 d2 outcome log →
        d2.round ≡ round_after_all (events_of log) d1.round }
    ensures given { (regions : List Region) (kind : Kind) (held : HeldChain) (d1 d2 : Device)
        (outcome : Outcome) (log : List Access) →
        GivesHeldBack regions kind held d1 d2 outcome log →
        d2.round ≡ round_after_all (events_of log) d1.round }
{}

/// Over a device's whole life, pages are told as hinted only of a round that was heard: the host
/// began the round whose id is shown, that id was read since, with none but ids between, and after
/// it no other one was read, and the round wasn't stopped, ended or reset (VIRTIO 1.2, 5.5.6.6).
/// They are discarded only while that is so of the round whose id was shown as they were told, also
/// where the host calls between the steps of a notice: none is once its round has closed
/// (5.5.6.6.1).
pub fn hinted_pages_are_of_a_round_that_was_heard()
    ensures { (deeds : List Deed) → IsLife no_round deeds → AreHeard [] deeds }
{}
