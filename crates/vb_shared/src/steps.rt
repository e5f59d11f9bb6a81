//! Single steps on the words.

ghost use Rattle.std.specs.Prelude.{◌≡◌, ℕ, ◌+◌, ◌-◌, ◌<◌, ◌≤◌, [], ◌∷◌, true, false, IfSome};
ghost use Rattle.std.specs.Prelude.{IfNone, if◌then◌else◌};
ghost use Rattle.vb_device.specs.Own.{has, without};
ghost use Rattle.vb_shared.specs.Passes.{IsPass};
ghost use Rattle.vb_shared.specs.Rule.{pass, view_of};
ghost use Rattle.vb_shared.specs.Steps.{held_of, new_holdings};

use crate::rule::{All, Both, Claims, First, Frames, Meets, Rest, Returns, Size, View};
use atomic_table::{Seat, Shared};

/// The words.
pub(crate) type Words = Shared<(), View, Size, Frames>;

/// What steps on the words.
pub(crate) type Place = Seat<(), View>;

/// Makes a free word the pass' own.
pub(crate) fn claim_word(words: &Words, place: &mut Place, tag: u32, frame: u32) -> bool
    requires table { (place.old.table_id ≡ words.now.table_id) ×
        (frame < words.now.table_id.words) × (frame < words.now.key.frames) }
    requires pass { place.old.me ≡ (pass tag (held_of place.old.me.0), []) }
    ensures table { place.new.table_id ≡ place.old.table_id }
    ensures pass { place.new.me ≡ (
      pass tag
          (if result then frame ∷ held_of place.old.me.0 else held_of place.old.me.0),
      [],
    ) }
    ensures new { result ≡ true → has (held_of place.old.me.0) frame ≡ false }
{
    words.compare_exchange::<Claims>(place, frame as usize, 0, u64::from(tag) + 1) == 0
}

/// Makes a word of the pass' own free.
pub(crate) fn return_word(words: &Words, place: &mut Place, tag: u32, frame: u32) -> bool
    requires table { (place.old.table_id ≡ words.now.table_id) ×
        (frame < words.now.table_id.words) × (frame < words.now.key.frames) }
    requires pass { place.old.me ≡ (pass tag (held_of place.old.me.0), []) }
    ensures table { place.new.table_id ≡ place.old.table_id }
    ensures pass { place.new.me ≡ (pass tag (without (held_of place.old.me.0) frame), []) }
    ensures held { result ≡ has (held_of place.old.me.0) frame }
{
    let mine = u64::from(tag) + 1;
    words.compare_exchange::<Returns>(place, frame as usize, mine, 0) == mine
}

/// Tries each word once, up to the first that was free. A look first spares the exchange at a word
/// that is held.
pub(crate) fn claim_first(words: &Words, place: &mut Place, tag: u32, frames: u32) -> Option<u32>
    requires table { (place.old.table_id ≡ words.now.table_id) ×
        (words.now.table_id.words ≡ frames) × (words.now.key.frames ≡ frames) }
    requires pass { place.old.me ≡ (pass tag (held_of place.old.me.0), []) }
    ensures table { place.new.table_id ≡ place.old.table_id }
    ensures some { IfSome result (λ f. (f < frames) × (has (held_of place.old.me.0) f ≡ false) ×
        (place.new.me ≡ (pass tag (f ∷ held_of place.old.me.0), []))) }
    ensures none { IfNone result (place.new.me ≡ place.old.me) }
{
    for frame in 0..frames {
        if words.peek(frame as usize) == 0 && claim_word(words, place, tag, frame) {
            return Some(frame);
        }
    }
    None
}

/// Tries to return each word.
#[tactic(auto, using(crate::proofs::Lists::within_next, crate::proofs::Lists::within_end))]
pub(crate) fn return_all(words: &Words, place: &mut Place, tag: u32, frames: u32)
    requires table { (place.old.table_id ≡ words.now.table_id) ×
        (words.now.table_id.words ≡ frames) × (words.now.key.frames ≡ frames) }
    requires pass { IsPass frames tag place.old.me }
    ensures table { place.new.table_id ≡ place.old.table_id }
    ensures pass { place.new.me ≡ (pass tag [], []) }
{
    for frame in 0..frames {
        return_word(words, place, tag, frame);
    }
}

/// Two passes of one table hold no frame in common.
pub(crate) fn meet(words: &Words, one: &mut Place, tag: u32, other: &mut Place, other_tag: u32)
    requires table { (one.old.table_id ≡ words.now.table_id) ×
        (other.old.table_id ≡ words.now.table_id) × (0 < words.now.table_id.words) }
    requires one { one.old.me ≡ (pass tag (held_of one.old.me.0), []) }
    requires other { other.old.me ≡ (pass other_tag (held_of other.old.me.0), []) }
    ensures tables { (one.new.table_id ≡ one.old.table_id) ×
        (other.new.table_id ≡ other.old.table_id) }
    ensures kept { (one.new.me ≡ one.old.me) × (other.new.me ≡ other.old.me) }
    ensures apart { (f : ℕ) → has (held_of one.old.me.0) f ≡ true →
        has (held_of other.old.me.0) f ≡ false }
{
    let note = words.split_seat::<All>(other);
    words.join_seat::<Both>(one, note);
    words.load::<Meets>(one, 0);
    let note = words.split_seat::<Rest>(one);
    words.join_seat::<Both>(other, note);
}

/// Cuts off the pass with the next tag.
pub(crate) fn new_place(words: &Words, opener: &mut Place, tag: u32, left: u32) -> Place
    requires table { (opener.old.table_id ≡ words.now.table_id) × (0 < words.now.table_id.words) }
    requires opener { (opener.old.me ≡ (view_of (new_holdings tag left), [])) × (0 < left) }
    ensures tables { (opener.new.table_id ≡ opener.old.table_id) ×
        (result.table_id ≡ opener.old.table_id) }
    ensures opener { opener.new.me ≡ (view_of (new_holdings (tag + 1) (left - 1)), []) }
    ensures pass { result.me ≡ (pass tag [], []) }
{
    let _left = left;
    words.split_seat::<First>(opener)
}

/// How many words are not 0.
pub(crate) fn count_taken(words: &Words, frames: u32) -> u32
    requires { words.now.table_id.words ≡ frames }
    ensures { result ≤ frames }
{
    let mut taken = 0;
    for frame in 0..frames {
        if words.peek(frame as usize) != 0 {
            taken += 1;
        }
    }
    taken
}
