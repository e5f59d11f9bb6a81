//! Laws about the definitions. Each is the contract of a function that does nothing.

ghost use Rattle.std.specs.Prelude.{ℕ, ◌≤◌, Bool, List, [], ◌∷◌, ◌≡◌, Option, Some, false};
ghost use Rattle.vb_model.specs.Run.{History, Run, Steps, last_world, guest_in};
ghost use Rattle.vb_model.specs.Safe.{IsSafeOf, IsHonest, IsSafeRun};
ghost use Rattle.vb_model.specs.Consistent.{IsConsistent};
ghost use Rattle.vb_model.specs.Orderly.{IsOrderly};
ghost use Rattle.vb_model.specs.Blank.{IsBlank};
ghost use Rattle.vb_model.specs.StepLaws.{OthersAreUntouched, TargetsAreKept, TargetsAreSet};
ghost use Rattle.vb_model.specs.StepLaws.{ConfigurationsAreKept, FramesGoBack, RestartedAreHonest};
ghost use Rattle.vb_model.specs.StepLaws.{RoguesAreMade, ScribblesMakeRogues, RoguesStay};
ghost use Rattle.vb_model.specs.StepLaws.{FramesEnterByClaims, RefusedClaimsAreAnswered};
ghost use Rattle.vb_model.specs.StepLaws.{ClaimsAreNeeded, NeededPagesAreBare, NoFrameIsExact};
ghost use Rattle.vb_model.specs.StepLaws.{WantIsAnswered};
ghost use Rattle.vb_model.specs.StepLaws.{HasNoReservedBallooned, RefusalsChangeNothing};
ghost use Rattle.vb_model.specs.StepLaws.{RefusedEventsChangeNothing, NoMemoryIsExact};
ghost use Rattle.vb_model.specs.StepLaws.{WantsChangeNothing};
ghost use Rattle.vb_model.specs.SafeLaws.{LivesAreAlone};
ghost use Rattle.vb_model.specs.SafeLaws.{QuietAgree, UsedPagesStay, HonestMeetNoFault};
ghost use Rattle.vb_model.specs.HonestRuns.{HonestStay, HonestAreIdleUnlessReady};
ghost use Rattle.vb_model.specs.Histories.{IsSafeHistory};
ghost use Rattle.vb_model.specs.Courses.{ReadsGiveLastWrites};
ghost use Rattle.vb_model.specs.Determined.{HonestStepsAgree};
ghost use Rattle.vb_model.specs.GuestRun.{Alone, Entry, InOneLife, IsHistory, Leads};
ghost use Rattle.vb_model.specs.HostLaws.{HostStepsAgree, CallsLeaveTheHost};
ghost use Rattle.vb_model.specs.Telling.{ToldStepsAgree};
ghost use Rattle.vb_model.specs.Sizes.{HasSmallShape, SmallConfigsAreConfigs};
ghost use Rattle.vb_model.specs.declared.calls.Event.{Event};
ghost use Rattle.vb_model.specs.declared.replies.Reply.{Reply};
ghost use Rattle.vb_model.specs.declared.replies.Reply.TheVariants.{Plugged, Ready, Page, Done};
ghost use Rattle.vb_model.specs.declared.replies.Reply.TheVariants.{Posted, Taken, Finished};
ghost use Rattle.vb_model.specs.declared.replies.Reply.TheVariants.{ReadBytes, Reaped};
ghost use Rattle.vb_model.specs.Guest.{Config, Guest, fresh};
ghost use Rattle.vb_model.specs.World.{World, guest_at};

/// Every run is safe, whatever events come in whatever order; and in each life of an honest guest
/// its own entries lead it from state to state, whatever others do.
pub fn every_run_is_safe()
    ensures safe { (frames : ℕ) (spares : List Bool) (h : History) → Run frames spares h
        → IsSafeOf h }
    ensures alone { (frames : ℕ) (spares : List Bool) (h : History) → Run frames spares h
        → LivesAreAlone h }
{}

/// In every state of a run an honest guest's parts agree: each used page lies in one held block,
/// and no other page in any; each giving or reporting page is named by one request of the kind, and
/// no other page by any; a page that a deflate names is named by it alone, and neither giving, lent
/// nor reserved, and in a guest that tells the host the taking pages are just these, while in one
/// that doesn't no page is taking. A page is ballooned just where it is lent, or named by a used
/// inflate or by a deflate that isn't used yet, and `actual` is the number of lent pages and of
/// those that deflates name.
pub fn honest_guests_are_consistent()
    ensures consistent { (frames : ℕ) (spares : List Bool) (h : History) → Run frames spares h
        → (n i : ℕ) (g : Guest) → IsHonest h n i g → IsConsistent g }
{}

/// In every state of a run an honest guest is in order: requests of one kind have different heads
/// and distinct pages, no more pages are visited than named, no more requests are outstanding than
/// may be, just the first pages are reserved, each held block is aligned, of order 9 at most and
/// inside, the status is 0, 15 or 131, and at 15 the accepted features are among those that the
/// device offers, with VERSION_1.
pub fn honest_guests_are_in_order()
    ensures orderly { (frames : ℕ) (spares : List Bool) (h : History) → Run frames spares h
        → (n i : ℕ) (g : Guest) → IsHonest h n i g → IsOrderly g }
{}

/// In every state of a run each page of an honest guest has its 4096 bytes, and one that has no
/// frame holds zeros.
pub fn pages_without_frames_are_blank()
    ensures blank { (frames : ℕ) (spares : List Bool) (h : History) → Run frames spares h
        → (n i : ℕ) (g : Guest) → IsHonest h n i g → IsBlank g }
{}

/// In every state of a run no reserved page of a guest is ballooned, be it honest or rogue.
pub fn reserved_pages_are_never_ballooned()
    ensures reserved { (frames : ℕ) (spares : List Bool) (h : History) → Run frames spares h
        → (n i : ℕ) (g : Guest) → guest_in h n i ≡ Some g → HasNoReservedBallooned g }
{}

/// The target of a guest, honest or rogue, changes by `target` and by a balance alone, in a new
/// life neither; `target` sets it.
pub fn targets_are_kept()
    ensures kept { TargetsAreKept }
    ensures set { TargetsAreSet }
{}

/// A guest keeps its configuration for all its lives.
pub fn configurations_are_kept()
    ensures kept { ConfigurationsAreKept }
{}

/// An event that isn't made for a guest leaves it as it was, but for the targets of a balance.
pub fn other_guests_are_untouched()
    ensures untouched { OthersAreUntouched }
{}

/// A guest that is restarted is honest and has no frame, and one that is unplugged has none.
pub fn frames_go_back()
    ensures frames { FramesGoBack }
    ensures honest { RestartedAreHonest }
{}

/// A guest turns rogue just where a scribble of its own is done, and stays so until a restart.
pub fn rogues_are_made_by_scribbles()
    ensures made { RoguesAreMade }
    ensures scribbled { ScribblesMakeRogues }
    ensures stay { RoguesStay }
{}

/// A frame enters a page of a guest, honest or rogue, by the claim that its call made for this page
/// alone; and a claim that is refused is the reply, with which no frame enters or leaves.
pub fn frames_enter_by_claims()
    ensures enter { FramesEnterByClaims }
    ensures refused { RefusedClaimsAreAnswered }
{}

/// A call of a guest, honest or rogue, claims a frame for each page that it needs and that has
/// none: the pages of rings and buffers of an initialisation, the page of a write or a scribble,
/// where the call isn't refused before. It claims no other.
pub fn claims_are_needed()
    ensures needed { ClaimsAreNeeded }
    ensures bare { NeededPagesAreBare }
{}

/// A call of a guest, honest or rogue, is refused for lack of a frame only where fewer frames are
/// not out than it needs; and there it is, unless it is refused on an allocation failure.
pub fn no_frame_is_exact()
    ensures exact { NoFrameIsExact }
    ensures answered { WantIsAnswered }
{}

/// An allocation failure is answered by a plug; by a call of a guest, honest or rogue, that claimed
/// a frame and was refused for it; by a read; and by a question for a list of pages: by no other
/// event. It changes nothing.
pub fn want_of_memory_changes_nothing()
    ensures calls { NoMemoryIsExact }
    ensures events { WantsChangeNothing }
{}

/// A step of an honest guest is determined by its state, the call and what its claims were given,
/// but for the block of an allocation, the free pages of an inflate, and an allocation failure for
/// bytes.
pub fn honest_steps_agree()
    ensures agree { HonestStepsAgree }
{}

/// A refusal leaves an honest guest as it was, but for an initialisation whose features are
/// refused: then the pages of rings and buffers have frames, the status is 131, and the features
/// are those that were accepted before the refusal. A refused event of the host leaves the world as
/// it was.
pub fn refusals_change_nothing()
    ensures calls { RefusalsChangeNothing }
    ensures events { RefusedEventsChangeNothing }
{}

/// Within one life of an honest guest its calls and their replies are a run of its own: of other
/// guests it sees only which frames its claims get, and new targets.
pub fn a_guest_runs_alone()
    ensures alone { (n : ℕ) (w : World) (events : List Event) (replies : List Reply)
        (after : List World) (g new : Guest)
        → Steps w events replies after → InOneLife n events → guest_at w.guests n ≡ Some g
        → guest_at (last_world w after).guests n ≡ Some new → new.rogue ≡ false
        → Alone n w events replies after g }
{}

/// Where an honest guest is safe and has no inflate or deflate request, its device calls ballooned
/// just the pages that its driver calls lent.
pub fn quiet_guests_agree()
    ensures quiet { QuietAgree }
{}

/// On a safe course a used page reads as it did, but for the guest's own writes to it.
pub fn used_pages_stay()
    ensures stay { UsedPagesStay }
{}

/// No call of an honest guest meets a chain that breaks a rule, or a broken ring, even one that
/// scribbles.
pub fn honest_guests_meet_no_fault()
    ensures none { HonestMeetNoFault }
{}

/// In a run a guest that is honest stays so until it makes a scribble.
pub fn honest_guests_stay_honest()
    ensures stay { HonestStay }
{}

/// In every state of a run nothing is outstanding of an honest guest whose status isn't 15, and it
/// has a statistics buffer just where its status is 15 and STATS_VQ was accepted.
pub fn honest_guests_are_idle_unless_ready()
    ensures idle { HonestAreIdleUnlessReady }
{}

/// A run that is one, so that what is promised of runs is promised of something: a guest is plugged
/// in and initialised, writes to a page of its own and reads it, and gives four pages to the host.
pub fn a_run_is_there()
    ensures run { (h : History) × Run 64 (false ∷ []) h
        × (h.replies ≡ Plugged 0 ∷ Ready ∷ Page 16 ∷ Done ∷ ReadBytes (171 ∷ 205 ∷ 0 ∷ 0 ∷ [])
        ∷ Done ∷ Posted 0 4 ∷ Taken 0 ∷ Finished 0 ∷ Reaped 0 4 ∷ []) }
{}

/// A step of the host is determined by the world and the event, but for the number of a new guest
/// where none was given up, for allocation failures, and for what a guest's own step leaves open; a
/// call of a guest leaves the number of frames, the spare devices and the number given up.
pub fn host_steps_agree()
    ensures agree { HostStepsAgree }
    ensures calls { CallsLeaveTheHost }
{}

/// A run of no events that is promised to be safe ends where it began.
pub fn no_events_change_nothing()
    ensures empty { (w v : World) → IsSafeRun w [] [] v → v ≡ w }
{}

/// An honest guest that has agreed to tell the host takes just the steps that there are where no
/// guest hasn't: pages that it requests back are taking until the request comes back, `actual` is
/// the number of lent and taking pages, and no refusal speaks of a deflate that is pending.
pub fn guests_that_tell_are_as_ever()
    ensures agree { ToldStepsAgree }
{}

/// A guest whose queues have up to 128 descriptors has 16 reserved pages and its rings in pages 0
/// to 3, and the first 13 pages are all that it needs for a start; of such guests those with a
/// power of two of pages, up to 16,384, may have just what they might if there were no larger ones.
/// No other definition asks for these sizes.
pub fn small_guests_are_as_ever()
    ensures shape { (size : ℕ) → size ≤ 128 → HasSmallShape size }
    ensures configs { SmallConfigsAreConfigs }
{}

/// Every history of a guest is safe, whatever its claims were given: its entries lead from state to
/// state, and in these a used page keeps its frame, a read gives what was last written, a page that
/// was offered is handed out again only after it was requested back, driver and device agree, and
/// no ring is broken.
pub fn every_history_is_safe()
    ensures safe { (config : Config) (target : ℕ) (entries : List Entry) (last : Guest)
        → IsHistory config target entries last → IsSafeHistory config target entries last }
    ensures reads { (config : Config) (target : ℕ) (entries : List (Option Entry))
        (after : List Guest) → Leads (fresh config target) entries after
        → ReadsGiveLastWrites
        (record { first = fresh config target; entries = entries; after = after }) }
{}
