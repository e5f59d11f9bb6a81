//! What holds of every decision.

ghost use Rattle.std.specs.Prelude.{◌≡◌, ◌⊎◌, ℕ, ◌+◌, ◌*◌, ◌<◌, ◌≤◌, List, Contains, length, map};
ghost use Rattle.std.specs.Prelude.{IsPermutation, slice_get, slice_index, sum, sum_by, true, Some};
ghost use Rattle.std.specs.Prelude.{◌-◌, ◌^◌, false, max, min};
ghost use Rattle.vb_policy.specs.declared.guest.Decision.{Decision};
ghost use Rattle.vb_policy.specs.declared.guest.Decision.TheVariants.{Enough};
ghost use Rattle.vb_policy.specs.declared.guest.Division.{Division};
ghost use Rattle.vb_policy.specs.declared.guest.Guest.{Guest};
ghost use Rattle.vb_policy.specs.declared.guest.Host.{Host};
ghost use Rattle.vb_policy.specs.declared.guest.Tier.{Tier};
ghost use Rattle.vb_policy.specs.declared.guest.Tier.TheVariants.{Reserve};
ghost use Rattle.vb_policy.specs.Decisions.{Decides};
ghost use Rattle.vb_policy.specs.Divisions.{Divides, fair};
ghost use Rattle.vb_policy.specs.Laws.{CanGiveMore, kept_of, unit_of, value_at, weight_of};
ghost use Rattle.vb_policy.specs.Following.{budget_after, lowest, wanted};
ghost use Rattle.vb_policy.specs.Laws.{with_targets};
ghost use Rattle.vb_policy.specs.declared.figures.Budget.{Budget};
ghost use Rattle.vb_policy.specs.declared.figures.Contact.TheVariants.{Silent};
ghost use Rattle.vb_policy.specs.declared.figures.Figures.{Figures};
ghost use Rattle.vb_policy.specs.Needs.{cached_of, contact_of, counts, given, spare_of, unused_of};
ghost use Rattle.vb_policy.specs.Needs.{waits, yields};
ghost use Rattle.vb_policy.specs.declared.machine.Machine.{Machine};
ghost use Rattle.vb_policy.specs.declared.pressure.Pressure.{Pressure};
ghost use Rattle.vb_policy.specs.declared.pressure.Sample.{Sample};
ghost use Rattle.vb_policy.specs.declared.pressure.TheConstants.{KILLED_MS, PRESSED_MS};
ghost use Rattle.vb_policy.specs.Pressing.{after, has_killed, has_stalled, inflates, is_pressed};
ghost use Rattle.vb_policy.specs.Settling.{most_of};
ghost use Rattle.vb_policy.specs.Tiers.{before, through};

/// Where the guests can give enough, the targets are enough; where nothing is missing, nobody is
/// asked for more.
pub fn targets_are_enough()
    ensures given { (host : Host) (guests : List Guest) (decision : Decision) (targets : List ℕ) →
        Decides host guests decision targets → host.lack ≤ sum_by (through Reserve) guests →
        host.lack ≤ sum targets }
    ensures kept { (host : Host) (guests : List Guest) (targets : List ℕ) (i : ℕ) →
        Decides host guests Enough targets →
        slice_index targets i ≤ value_at (λ g. g.target) guests i }
{}

/// No guest is asked for more than may be. On a short host each is asked for all that it can give,
/// but for the slack.
pub fn targets_are_possible()
    ensures given { (host : Host) (guests : List Guest) (decision : Decision) (targets : List ℕ)
        (i : ℕ) → Decides host guests decision targets →
        host.lack ≤ sum_by (through Reserve) guests →
        slice_index targets i ≤ value_at most_of guests i }
    ensures most { (host : Host) (guests : List Guest) (decision : Decision) (targets : List ℕ)
        (i : ℕ) → Decides host guests decision targets →
        sum_by (through Reserve) guests < host.lack → i < length guests →
        slice_index targets i ≤ value_at (λ g. g.spare) guests i + host.slack }
    ensures least { (host : Host) (guests : List Guest) (decision : Decision) (targets : List ℕ)
        (i : ℕ) → Decides host guests decision targets →
        sum_by (through Reserve) guests < host.lack → i < length guests →
        value_at (λ g. g.spare) guests i ≤ slice_index targets i + host.slack }
{}

/// By a division no guest gives of a later tier before all give the earlier ones whole, and within
/// the tier none of a higher class before those of a lower one give it whole.
pub fn tiers_are_in_order()
    ensures tiers { (d : Division) (tier : Tier) (g h : Guest) → through tier g < fair d g →
        through tier h ≤ fair d h }
    ensures classes { (d : Division) (g h : Guest) → h.priority < g.priority →
        before d.tier g < fair d g → through d.tier h ≤ fair d h }
{}

/// A division asks for less than one unit of weight more than is missing.
pub fn no_more_than_asked()
    ensures { (lack : ℕ) (guests : List Guest) (d : Division) → Divides lack guests d →
        sum_by (fair d) guests < lack + sum_by unit_of guests }
{}

/// Of two guests of the class that divides a tier, the second of which gives some of it: by its
/// weight the first keeps less than a page more.
pub fn parts_are_fair()
    ensures { (d : Division) (g h : Guest) → g.priority ≡ d.priority → h.priority ≡ d.priority →
        before d.tier h < fair d h →
        kept_of d g * weight_of h < (kept_of d h + 1) * weight_of g }
{}

/// Where less is missing, or guests can give more, no other guest's part rises.
pub fn parts_are_monotone()
    ensures { (lack less : ℕ) (guests more : List Guest) (d e : Division) (g : Guest) →
        less ≤ lack → CanGiveMore guests more → Divides lack guests d → Divides less more e →
        fair e g ≤ fair d g }
{}

/// Where a guest waits, targets are enough, or each guest is asked for all that it can give.
pub fn nobody_waits_in_vain()
    ensures { (host : Host) (guests : List Guest) (decision : Decision) (targets : List ℕ)
        (g : Guest) → Decides host guests decision targets → Contains guests g →
        g.waits ≡ true →
        (host.lack ≤ sum targets) ⊎ (targets ≡ map (λ h. h.spare) guests) }
{}

/// Guests in another order get the targets that they had, and equal guests get equal targets at any
/// place. So there is one decision.
pub fn order_of_guests_is_free()
    ensures decisions { (host : Host) (guests others : List Guest) (d e : Decision)
        (targets set : List ℕ) → IsPermutation guests others → Decides host guests d targets →
        Decides host others e set → d ≡ e }
    ensures targets { (host : Host) (guests others : List Guest) (d e : Decision)
        (targets set : List ℕ) (i j : ℕ) (g : Guest) → IsPermutation guests others →
        Decides host guests d targets → Decides host others e set →
        slice_get guests i ≡ Some g → slice_get others j ≡ Some g →
        slice_index targets i ≡ slice_index set j }
{}

/// Deciding again with the targets that were set changes none.
pub fn decisions_rest()
    ensures { (host : Host) (guests : List Guest) (d e : Decision) (targets set : List ℕ) →
        Decides host guests d targets → Decides host (with_targets guests targets) e set →
        set ≡ targets }
{}

/// Its least pages stay to each guest, or all where it has fewer, also while the first that waits
/// on a short host is served.
pub fn least_pages_stay()
    ensures usual { (b : Budget) (g : Figures) →
        spare_of b g + min g.least (counts g) ≤ counts g }
    ensures first { (b : Budget) (g : Figures) → yields b g + min g.least (counts g) ≤ counts g }
{}

/// A silent guest, and one that has just taken pages by itself, gives no more than is in its
/// balloon, unless it waits; and a pressed one no more of its unused memory and its page cache.
pub fn no_more_is_given()
    ensures silent { (b : Budget) (g : Figures) → waits g ≡ false →
        contact_of g.contact ≡ Silent → spare_of b g ≤ given g }
    ensures paused { (b : Budget) (g : Figures) → waits g ≡ false → 0 < g.paused →
        spare_of b g ≤ given g }
    ensures unused { (b : Budget) (g : Figures) → waits g ≡ false → 0 < g.pressed →
        unused_of b g ≤ given g }
    ensures cached { (b : Budget) (g : Figures) → waits g ≡ false → 0 < g.pressed →
        cached_of b g ≤ given g }
{}

/// A guest whose work has stalled while its balloon didn't inflate is pressed from that sample on
/// for `PRESSED_MS`, and one that has killed a process for `KILLED_MS`, as long as there is time;
/// and a later sample never ends that earlier, while no clock is set back.
pub fn pressure_lasts()
    ensures stalled { (p : Pressure) (s : Sample) (now t : ℕ) →
        has_stalled p.last.counters s.counters ≡ true → inflates p.last s ≡ false →
        t < now + PRESSED_MS → t < 2 ^ 64 - 1 → is_pressed (after p s now) t ≡ true }
    ensures killed { (p : Pressure) (s : Sample) (now t : ℕ) →
        has_killed p.last.counters s.counters ≡ true →
        t < now + KILLED_MS → t < 2 ^ 64 - 1 → is_pressed (after p s now) t ≡ true }
    ensures stays { (p : Pressure) (s : Sample) (now t : ℕ) → p.until ≤ now + KILLED_MS →
        p.until < 2 ^ 64 → is_pressed p t ≡ true → is_pressed (after p s now) t ≡ true }
{}

/// Nobody is pressed for longer than `KILLED_MS` from its last sample on, and a sample that shows
/// neither a stall nor a kill presses nobody for longer than before; nor does the first one, or one
/// while the balloon inflates, unless it shows a kill.
pub fn pressure_ends()
    ensures ends { (p : Pressure) (s : Sample) (now t : ℕ) → now + KILLED_MS ≤ t →
        is_pressed (after p s now) t ≡ false }
    ensures quiet { (p : Pressure) (s : Sample) (now t : ℕ) →
        has_stalled p.last.counters s.counters ≡ false →
        has_killed p.last.counters s.counters ≡ false →
        now ≤ t → is_pressed p t ≡ false → is_pressed (after p s now) t ≡ false }
    ensures inflating { (p : Pressure) (s : Sample) (now t : ℕ) → inflates p.last s ≡ true →
        has_killed p.last.counters s.counters ≡ false →
        now ≤ t → is_pressed p t ≡ false → is_pressed (after p s now) t ≡ false }
{}

/// Guests that hold no more than a budget which follows the machine leave available what is to stay
/// so, unless it is the least that it may be. It rises by no more than a step at once, is never
/// above the most, and doesn't stay where it could rise by a step, or to the most.
pub fn budget_leaves_room()
    ensures keeps { (m : Machine) (held available : ℕ) →
        held + available ≡ m.held + m.available → held ≤ budget_after m →
        lowest m < budget_after m → m.keep ≤ available }
    ensures most { (m : Machine) → budget_after m ≤ m.most }
    ensures least { (m : Machine) → lowest m ≤ budget_after m }
    ensures step { (m : Machine) → budget_after m ≤ max (m.budget + m.step) (lowest m) }
    ensures rises { (m : Machine) → m.most < 2 ^ 32 → m.budget + m.step ≤ wanted m →
        m.budget + m.step ≤ budget_after m }
    ensures reaches { (m : Machine) → m.most < 2 ^ 32 → m.most ≤ m.budget + m.step →
        wanted m ≡ m.most → budget_after m ≡ m.most }
{}
