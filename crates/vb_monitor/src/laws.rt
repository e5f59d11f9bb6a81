//! What the accesses of a notice come to, whatever memory answers.

ghost use Rattle.std.specs.Prelude.{◌≡◌, ◌≢◌, ◌<◌, ◌≤◌, ℕ, suc, ◌+◌, ◌-◌, ◌*◌, ◌/◌, ◌==◌};
ghost use Rattle.std.specs.Prelude.{◌||◌, true, false, List, [], None, Some, length, Option};
ghost use Rattle.std.specs.Prelude.{Result, Ok};
ghost use Rattle.vb_chain.specs.declared.fault.ChainFault.{ChainFault};
ghost use Rattle.vb_ring.specs.declared.device.Taken.{Taken};
ghost use Rattle.vb_core.specs.declared.ring.Virtqueue.{Virtqueue};
ghost use Rattle.vb_core.specs.declared.kinds.Kind.{Kind};
ghost use Rattle.vb_core.specs.Report.{names_by_pieces};
ghost use Rattle.vb_monitor.specs.Chains.{tells_pages};
ghost use Rattle.vb_core.specs.declared.device.Device.{Device};
ghost use Rattle.vb_monitor.specs.declared.regions.Region.{Region};
ghost use Rattle.vb_monitor.specs.declared.outcome.Budget.{Budget};
ghost use Rattle.vb_monitor.specs.declared.outcome.Outcome.{Outcome};
ghost use Rattle.vb_monitor.specs.Accesses.{Access};
ghost use Rattle.vb_monitor.specs.Notices.{Serves, GivesHeldBack};
ghost use Rattle.vb_monitor.specs.declared.outcome.HeldChain.{HeldChain};
ghost use Rattle.vb_monitor.specs.Holding.{HoldsTold};
ghost use Rattle.vb_core.specs.declared.runs.Run.{Run};
ghost use Rattle.vb_monitor.specs.Regions.{cuts_of};
ghost use Rattle.vb_monitor.specs.Touched.{Touches};
ghost use Rattle.vb_monitor.specs.Counts.{others};
ghost use Rattle.vb_monitor.specs.Budgets.{KeepsBudget};
ghost use Rattle.vb_monitor.specs.Order.{Row, MayFollow};
ghost use Rattle.vb_monitor.specs.SoFar.{Each};
ghost use Rattle.vb_monitor.specs.HeldBack.{GivesHeldAlone};
ghost use Rattle.vb_monitor.specs.PartsOfRuns.{ArePartsOf};
ghost use Rattle.vb_monitor.specs.declared.cuts.Cut.{Cut};
ghost use Rattle.vb_monitor.specs.declared.large.Large.{Large};
ghost use Rattle.vb_monitor.specs.Large.{LargeBy, Goes, AreWholePages, may_go, is_of, is_of_large};
ghost use Rattle.vb_monitor.specs.Large.{small_pages};
ghost use Rattle.vb_core.specs.Ballooned.{is_ballooned};
ghost use Rattle.vb_monitor.specs.Turns.{ReadsInTurn, TellsInTurn, WritesUsedAlone};
ghost use Rattle.vb_core.specs.declared.device.Denial.{Denial};
ghost use Rattle.vb_core.specs.Devices.{ring_of, queue_denial};
ghost use Rattle.vb_chain.specs.declared.pieces.Piece.{Piece};
ghost use Rattle.vb_monitor.specs.declared.outcome.Tally.{Tally};
ghost use Rattle.vb_monitor.specs.declared.room.TheConstants.{MAX_BYTES};
ghost use Rattle.vb_monitor.specs.Ends.{Whole};
ghost use Rattle.vb_monitor.specs.Pieces.{all_parts};
ghost use Rattle.vb_monitor.specs.Machine.{whole, serves, served};
ghost use Rattle.vb_monitor.specs.Still.{StaysUntil, IsMapped, HasNext, Finds, EndsSo, DoesNext};
ghost use Rattle.vb_monitor.specs.Still.{AreThese, AfterReads, ReportsNext, bytes_of, index_in};
ghost use Rattle.vb_monitor.specs.Still.{ArePartsMapped, as_read, is_read, length_of};
ghost use Rattle.vb_monitor.specs.Still.{bytes_of_parts, AreInPortions, ServesFirst};
ghost use Rattle.vb_monitor.specs.Portions.{CopiesFurther};
ghost use Rattle.vb_monitor.specs.declared.parts.Part.{Part};
ghost use Rattle.vb_monitor.specs.Giving.{after_use};
ghost use Rattle.vb_core.specs.Using.{use_denial};

/// A notice touches no byte outside its regions: each word and each copy that it reads, each number
/// that it writes, and all that it discards lies within one of them.
#[tactic(auto, using(crate::proofs::TurnLaws::touched))]
pub fn nothing_outside_the_regions_is_touched()
    ensures { (regions : List Region) (kind : Kind) (budget : Budget) (d1 d2 : Device)
        (outcome : Outcome) (log : List Access) →
        Serves regions kind budget d1 d2 outcome log →
        Row (λ before x. Touches regions x) None log }
{}

/// The accesses of a notice come in their order: bytes directly after what was read, or after a
/// portion that was told or discarded, what is told directly after bytes that were copied, discards
/// directly after pages that were told or other discards, a used element's numbers directly after
/// those or after an id that was told, a release fence directly after the numbers, and the index
/// directly after that fence (VIRTIO 1.1, 2.6.8).
#[tactic(auto, using(crate::proofs::TurnLaws::in_order))]
pub fn accesses_come_in_their_order()
    ensures { (regions : List Region) (kind : Kind) (budget : Budget) (d1 d2 : Device)
        (outcome : Outcome) (log : List Access) →
        Serves regions kind budget d1 d2 outcome log → Row MayFollow None log }
{}

/// Runs of pages have no more parts to be discarded than one for each run and region.
#[tactic(auto, using(crate::proofs::PartCounts::few_cuts))]
pub fn a_run_has_few_parts()
    ensures { (regions : List Region) (runs : List Run) →
        length (cuts_of regions runs) ≤ length runs * length regions }
{}

/// A notice makes few accesses beside its discards: 3, which are the index, and the flags after
/// their fence; and at most 775 for each chain that it may serve, which are 2 for its entry, 256
/// descriptors, two parts for each piece, what is told, and 4 for the used element. For each
/// further portion of 256 numbers that a request may have these are 3 more.
#[tactic(auto, using(crate::proofs::TurnLaws::few_others))]
pub fn a_notice_makes_few_accesses()
    ensures { (regions : List Region) (kind : Kind) (budget : Budget) (d1 d2 : Device)
        (outcome : Outcome) (log : List Access) →
        Serves regions kind budget d1 d2 outcome log → others log ≤
        3 + (775 + 3 * ((budget.longest - 1) / 256)) * budget.chains }
{}

/// A notice reads chains and tells pages only while it has told fewer numbers than its budget since
/// it began or paused last, and pauses only once it has told as many; so of requests it tells at
/// most its budget and 255 numbers before it pauses or ends. A number that is skipped counts too.
#[tactic(auto, using(crate::proofs::BudgetTurns::keeps_budget))]
pub fn a_notice_pauses_by_its_budget()
    ensures { (regions : List Region) (kind : Kind) (budget : Budget) (d1 d2 : Device)
        (outcome : Outcome) (log : List Access) →
        Serves regions kind budget d1 d2 outcome log → KeepsBudget kind budget.pages 0 log }
{}

/// What counts is read once: the index once a notice, first of all; after it, and after a chain
/// that is given back, the entry that is taken next, if that index publishes it; then rows of its
/// chain's descriptors, each from the number on that the one before named; and then each part of
/// each piece, in order (VIRTIO 1.1, 2.6.5 and 2.6.6). A descriptor counts as it is in the row that
/// was copied last, so nothing is asked for again that this row has, whatever the guest makes of
/// it.
#[tactic(auto, using(crate::proofs::TurnLaws::reads_in_turn))]
pub fn what_counts_is_read_once()
    ensures { (regions : List Region) (kind : Kind) (budget : Budget) (d1 d2 : Device)
        (outcome : Outcome) (log : List Access) →
        Serves regions kind budget d1 d2 outcome log →
        Each (ReadsInTurn regions kind d1) [] log }
{}

/// Only pages are told that the bytes name which were copied since the chain's entry was read and
/// weren't told yet, or the pieces of a report, or of a hint in a round that is open: of bytes once
/// all of the chain was read, or a whole portion of 1,024 of them. Only parts of pages that were
/// told are discarded, each once and in order, and all of them before more is copied or told, and
/// before the chain's used element is written. None of a deflate's is, nor of a report's or a
/// hint's where the device keeps the free pages of that kind (VIRTIO 1.1, 5.5.6; 1.2, 5.5.4), and
/// none at all where the notice keeps all pages.
#[tactic(auto, using(crate::proofs::TurnLaws::tells_in_turn))]
pub fn only_named_pages_are_discarded()
    ensures { (regions : List Region) (kind : Kind) (budget : Budget) (d1 d2 : Device)
        (outcome : Outcome) (log : List Access) →
        Serves regions kind budget d1 d2 outcome log →
        Each (TellsInTurn regions kind budget.keeps d1) [] log }
{}

/// Nothing is written but the next used element of the queue's ring, with the id that was read as
/// its entry and a length of 0, and the index after it (VIRTIO 1.1, 2.6.8).
#[tactic(auto, using(crate::proofs::TurnLaws::writes_used))]
pub fn only_used_elements_are_written()
    ensures { (regions : List Region) (kind : Kind) (budget : Budget) (d1 d2 : Device)
        (outcome : Outcome) (log : List Access) →
        Serves regions kind budget d1 d2 outcome log →
        Each (WritesUsedAlone regions kind d1) [] log }
{}

/// In a queue whose chains are held nothing is written, and nothing discarded; a chain whose last
/// pages or figures are told is held once the notice has ended, with the number of its pages, which
/// are those of all its portions.
#[tactic(auto, using(crate::proofs::TurnLaws::holds_told))]
pub fn a_chain_that_is_told_is_held()
    ensures { (regions : List Region) (kind : Kind) (budget : Budget) (d1 d2 : Device)
        (outcome : Outcome) (log : List Access) →
        Serves regions kind budget d1 d2 outcome log →
        Each (HoldsTold kind d1.settings outcome) [] log }
{}

/// What is discarded of runs is whole pages of them, each part within one region, and at its place
/// in that region's file.
#[tactic(auto, using(crate::proofs::PartsOfRunLemmas::parts_of_runs))]
pub fn a_part_is_whole_pages_of_its_run()
    ensures { (regions : List Region) (runs : List Run) →
        ArePartsOf regions runs (cuts_of regions runs) }
{}

/// A chain that is held is given back, and nothing else is done: the next used element of its queue
/// is written, with the chain's head, and the index after it, and then the driver's flags are read
/// (VIRTIO 1.1, 5.5.6 and 5.5.6.3). Or nothing is done at all.
#[tactic(auto, using(crate::proofs::HeldBackLemmas::gives_held))]
pub fn a_held_chain_is_given_back_alone()
    ensures { (regions : List Region) (kind : Kind) (held : HeldChain) (d1 d2 : Device)
        (outcome : Outcome) (log : List Access) →
        GivesHeldBack regions kind held d1 d2 outcome log →
        GivesHeldAlone regions held.head (ring_of kind d1) log }
{}

/// To give a held chain back takes 6 accesses at most.
#[tactic(auto, using(crate::proofs::HeldBackLemmas::few_to_give))]
pub fn giving_back_makes_few_accesses()
    ensures { (regions : List Region) (kind : Kind) (held : HeldChain) (d1 d2 : Device)
        (outcome : Outcome) (log : List Access) →
        GivesHeldBack regions kind held d1 d2 outcome log → length log ≤ 6 }
{}

/// Of large pages just those go back to the machine that a part enters and all whose pages of 4096
/// bytes were given up: each page that is discarded is the part's or was given up before, whole
/// large pages are discarded, in memory and in the region's file, and none stays that may go.
pub fn large_pages_go_once_they_are_given_up()
    ensures given { (size : ℕ) (r : Region) (part : Cut) (set : List ℕ) (answer : Large) →
        LargeBy size r part set answer → (p : ℕ) → is_of r answer.cut p ≡ true →
        (is_of r part p || is_ballooned set p) ≡ true }
    ensures whole { (size : ℕ) (r : Region) (part : Cut) (set : List ℕ) (answer : Large) →
        LargeBy size r part set answer → AreWholePages size r answer.cut }
    ensures largest { (size : ℕ) (r : Region) (part : Cut) (set : List ℕ) (answer : Large) →
        LargeBy size r part set answer → may_go size r part ≡ true → (n : ℕ) →
        Goes size r part set n → (p : ℕ) → is_of_large (small_pages size) n p ≡ true →
        is_of r answer.cut p ≡ true }
{}

/// Returning a chain can't make its queue invalid: so a queue is validated where its index is read,
/// and not after each chain.
#[tactic(auto, using(crate::proofs::OpenLemmas::used_open))]
pub fn a_chain_that_is_given_back_leaves_its_queue_open()
    ensures { (kind : Kind) (head : ℕ) (d : Device) → use_denial kind head d ≡ None →
        queue_denial kind (after_use kind d) ≡ None }
{}

/// Where memory stays as it is while a notice reads of it, the notice does what the bytes of memory
/// say. A queue that may not be used is refused. Else, where what is read of the queue is guest
/// memory, memory has something next there (VIRTIO 1.1, 2.6.5 and 2.6.6): no chain, and the notice
/// ends; a rule that is broken, and the device needs a reset; or a chain, which is served by just
/// its pieces, where their length is one of its kind. From the first access on that is no read
/// memory may change: the accesses from that one on are `rest`, whatever they read.
pub fn a_notice_does_what_memory_says()
    ensures refuses { (rest : List Access) (byte : ℕ → ℕ) (regions : List Region) (kind : Kind)
        (budget : Budget) (d1 d2 : Device) (outcome : Outcome) (log : List Access) (why : Denial) →
        queue_denial kind d1 ≡ Some why → StaysUntil (AreThese rest) byte regions log →
        Serves regions kind budget d1 d2 outcome log →
        EndsSo (StaysUntil (AreThese rest) byte regions) (Some why)
        (whole regions kind d2 outcome) d1 }
    ensures does { (rest : List Access) (byte : ℕ → ℕ) (regions : List Region) (kind : Kind)
        (budget : Budget) (n : ℕ) (d1 d2 : Device) (outcome : Outcome) (log : List Access) →
        is_read kind ≡ true → budget.chains ≡ suc n → (budget.pages == 0) ≡ false →
        queue_denial kind d1 ≡ None → IsMapped regions (ring_of kind d1) →
        StaysUntil (AreThese rest) byte regions log →
        Serves regions kind budget d1 d2 outcome log →
        Finds byte kind d1 (DoesNext (StaysUntil (AreThese rest) byte regions)
        (whole regions kind d2 outcome) (as_read n budget (index_in byte (ring_of kind d1))) d1
        log) }
{}

/// Where memory stays as it is while a notice of reports reads of it, or one of hints while the
/// round is open, the notice does what the bytes of memory say: it ends where nothing is next, or
/// where a rule is broken, so that the device needs a reset; or it tells just the chain's pages, a
/// run for each piece, and takes the chain. A chain of hints that has an id is served by its
/// pieces.
pub fn a_notice_reports_what_memory_says()
    ensures { (rest : List Access) (byte : ℕ → ℕ) (regions : List Region) (kind : Kind)
        (budget : Budget) (n : ℕ) (d1 d2 : Device) (outcome : Outcome) (log : List Access) →
        names_by_pieces kind ≡ true → tells_pages kind d1 ≡ true →
        budget.chains ≡ suc n → (budget.pages == 0) ≡ false → queue_denial kind d1 ≡ None →
        IsMapped regions (ring_of kind d1) → StaysUntil (AreThese rest) byte regions log →
        Serves regions kind budget d1 d2 outcome log →
        Finds byte kind d1 (ReportsNext (StaysUntil (AreThese rest) byte regions)
        (whole regions kind d2 outcome) (as_read n budget (index_in byte (ring_of kind d1))) d1
        log) }
{}

/// Memory has one thing next on a queue.
#[tactic(auto, using(crate::proofs::StillAnswers::one_next))]
pub fn memory_has_one_chain_next()
    ensures { (byte : ℕ → ℕ) (end : ℕ) (r : Virtqueue)
        (one other : Result (Option Taken) ChainFault) →
        HasNext byte end r one → HasNext byte end r other → one ≡ other }
{}

/// Where memory stays as it is while a chain's bytes are read, a chain of pieces that lie in it is
/// served by the bytes that they have there: what a request names, or a buffer of statistics tells,
/// is what `Device::name_numbers` and `Device::statistics` say of them.
pub fn a_chain_is_served_by_its_bytes()
    ensures { (rest : List Access) (byte : ℕ → ℕ) (w : Whole) (t : Tally) (d : Device)
        (head : ℕ) (pieces : List Piece) (n : ℕ) (log : List Access) → is_read w.kind ≡ true →
        length_of w.kind t.longest pieces ≡ Ok n → ArePartsMapped w.regions (all_parts pieces) →
        length (bytes_of byte pieces) ≤ MAX_BYTES → StaysUntil (AreThese rest) byte w.regions log →
        serves w t d head pieces log → AfterReads (StaysUntil (AreThese rest) byte w.regions)
        (served w t head d t (bytes_of byte pieces)) log }
{}

/// A chain of any length is served portion by portion. Each of its parts ends within its portion.
/// Where memory stays as it is while a portion's bytes are read, the portion is served by the bytes
/// that it has there, the next 1,024 of the chain, and then the parts after it are copied, which
/// have all other bytes; the last portion is served by all that are left.
pub fn a_portion_is_served_by_its_bytes()
    ensures within { (pieces : List Piece) → AreInPortions 0 (all_parts pieces) }
    ensures bytes { (byte : ℕ → ℕ) (pieces : List Piece) →
        bytes_of_parts byte (all_parts pieces) ≡ bytes_of byte pieces }
    ensures begins { (w : Whole) (t : Tally) (d : Device) (head : ℕ) (pieces : List Piece) (n : ℕ)
        (log : List Access) → is_read w.kind ≡ true → length_of w.kind t.longest pieces ≡ Ok n →
        all_parts pieces ≢ [] → serves w t d head pieces log →
        CopiesFurther w (served w t head) d t (all_parts pieces) log }
    ensures first { (rest : List Access) (byte : ℕ → ℕ) (w : Whole) (t0 t : Tally)
        (head : ℕ) (d : Device) (parts : List Part) (log : List Access) → AreInPortions 0 parts →
        ArePartsMapped w.regions parts → MAX_BYTES < length (bytes_of_parts byte parts) →
        StaysUntil (AreThese rest) byte w.regions log →
        CopiesFurther w (served w t0 head) d t parts log →
        ServesFirst (StaysUntil (AreThese rest) byte w.regions) byte w (served w t0 head) d t
        parts log }
    ensures last { (rest : List Access) (byte : ℕ → ℕ) (w : Whole) (t0 t : Tally)
        (head : ℕ) (d : Device) (parts : List Part) (log : List Access) → parts ≢ [] →
        AreInPortions 0 parts → ArePartsMapped w.regions parts →
        length (bytes_of_parts byte parts) ≤ MAX_BYTES →
        StaysUntil (AreThese rest) byte w.regions log →
        CopiesFurther w (served w t0 head) d t parts log →
        AfterReads (StaysUntil (AreThese rest) byte w.regions)
        (served w t0 head d t (bytes_of_parts byte parts)) log }
{}
