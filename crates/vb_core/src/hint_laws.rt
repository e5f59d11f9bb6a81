//! What a round of hints comes to, over all that came to it.

ghost use Rattle.std.specs.Prelude.{◌≡◌, ◌≢◌, ℕ, ◌<◌, ◌^◌, true, false, List};
ghost use Rattle.vb_core.specs.declared.hints.Round.{Round};
ghost use Rattle.vb_core.specs.Hints.{is_id, next_id, is_open, IsHeard};
ghost use Rattle.vb_core.specs.Hints.{RoundEvent, round_after_all, are_next};

/// A round that is open has an id of its own, and its driver was heard: a round of that id began,
/// its id was read with none but ids read between, and since then none but its own was read, and no
/// round began, stopped, ended or was reset. At first no round is shown.
pub fn an_open_round_was_heard()
    ensures { (events : List RoundEvent) (r : Round) → is_id r.shown ≡ false →
        is_open (round_after_all events r) ≡ true →
        IsHeard (round_after_all events r).shown events }
{}

/// And where that came, the round is open, whatever came before.
pub fn a_round_that_was_heard_is_open()
    ensures opened { (id : ℕ) (events : List RoundEvent) (r : Round) →
        are_next events r.last ≡ true → IsHeard id events →
        is_open (round_after_all events r) ≡ true }
    ensures shown { (id : ℕ) (events : List RoundEvent) (r : Round) →
        are_next events r.last ≡ true → IsHeard id events →
        (round_after_all events r).shown ≡ id }
{}

/// The next id is one of a round, and not the one before.
pub fn an_id_is_not_the_one_before()
    ensures id { (last : ℕ) → is_id (next_id last) ≡ true }
    ensures other { (last : ℕ) → next_id last ≢ last }
    ensures fits { (last : ℕ) → next_id last < 2 ^ 32 }
{}
