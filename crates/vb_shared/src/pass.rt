//! The table of frames, and the passes over it.

ghost use Rattle.std.specs.Prelude.{◌≡◌, ℕ, ◌<◌, ◌≤◌, [], ◌∷◌, true, false, IfOk, IfSome, IfNone};
ghost use Rattle.std.specs.Arc.{arc_value};
ghost use Rattle.vb_virtio.specs.declared.limits.TheConstants.{MAX_FRAMES, MAX_GUESTS};
ghost use Rattle.vb_device.specs.Own.{has, without};
ghost use Rattle.vb_shared.specs.Passes.{IsTable, new_passes};
ghost use Rattle.vb_shared.specs.Steps.{opening_view};

use crate::rule::{Frames, Size, View};
use crate::steps;
use crate::steps::Place;
use atomic_table::Table;
use std::alloc::{AllocError, Global};
use std::marker::Model;
use std::sync::Arc;
use vb_virtio::limits::{MAX_FRAMES, MAX_GUESTS};

/// The words, which the table and its passes share.
type Shelf = Table<(), View, Size, Frames, Global>;

/// Frames that guests on threads share, numbered from 0 on: a word each, that is 0 where the frame
/// is free. It is for counting them; what takes frames is a pass.
#[derive(Drop)]
pub struct SharedFrames {
    /// The words.
    table: Arc<Shelf, Global>,
    /// How many they are.
    frames: u32,
}

impl Model for SharedFrames {
    ghost use Rattle.std.specs.Arc.{arc_value};
    ghost use Rattle.vb_shared.specs.Passes.{Opened, IsTable};

    ghost Value = { Opened };

    ghost view = { λ s. record {
      table = (arc_value s.table).shared.table_id;
      frames = s.frames;
    } };

    ghost invariant = { λ s. IsTable (arc_value s.table).shared.table_id
        (arc_value s.table).shared.key (arc_value s.table).shared.table_id s.frames };
}

/// A guest's pass over the frames. What it claims is its own until it puts it back; it can't be
/// cloned, so no other pass has its tag. None of its calls waits.
///
/// A pass that is dropped leaves its frames held: `Leased` gives them back at its own drop.
#[derive(Drop)]
pub struct FramePass {
    /// The words.
    table: Arc<Shelf, Global>,
    /// What steps on them for this pass.
    place: Place,
    /// How many words there are.
    frames: u32,
    /// Which guest's pass it is. A word of its own is tag + 1.
    tag: u32,
    /// What its last claim answered, by which a contract distinguishes a lack of frames from an
    /// allocation failure.
    found: Option<u32>,
    /// Where a claimed frame's bytes come from.
    alloc: Global,
}

impl Model for FramePass {
    ghost use Rattle.std.specs.Arc.{arc_value};
    ghost use Rattle.vb_shared.specs.Passes.{Pass, IsTable, IsPass};
    ghost use Rattle.vb_shared.specs.Steps.{held_of};

    ghost Value = { Pass };

    ghost view = { λ p. record {
      table = p.place.table_id;
      tag = p.tag;
      held = held_of p.place.me.0;
      found = p.found;
    } };

    ghost invariant = { λ p. IsTable p.place.table_id (arc_value p.table).shared.key
        (arc_value p.table).shared.table_id p.frames × IsPass p.frames p.tag p.place.me };
}

/// The passes, cut off the opener's seat one by one.
fn deal(
    alloc: Global,
    table: &Arc<Shelf, Global>,
    mut opener: Place,
    frames: u32,
    guests: u32,
) -> Result<Vec<FramePass>, AllocError>
    requires table { IsTable opener.table_id (arc_value table.now).shared.key
        (arc_value table.now).shared.table_id frames }
    requires opener { opener.me ≡ (opening_view guests, []) }
    ensures { IfOk result (λ v. v.items ≡ new_passes opener.table_id 0 guests) }
{
    let mut passes = Vec::with_capacity(alloc, guests as usize)?;
    for tag in 0..guests {
        let place = steps::new_place(&table.shared, &mut opener, tag, guests - tag);
        passes.push(FramePass {
            table: Arc::try_clone(table)?,
            place,
            frames,
            tag,
            found: None,
            alloc,
        })?;
    }
    Ok(passes)
}

impl SharedFrames {
    /// A table of `frames` free frames, and a pass for each of `guests` guests, with the tags from
    /// 0 on. An allocation failure is the only refusal.
    pub fn open(
        alloc: Global,
        frames: u32,
        guests: u32,
    ) -> Result<(SharedFrames, Vec<FramePass>), AllocError>
        requires frames { (0 < frames) × (frames ≤ MAX_FRAMES) }
        requires guests { (0 < guests) × (guests ≤ MAX_GUESTS) }
        ensures frames { IfOk result (λ r. r.0.frames ≡ frames) }
        ensures passes { IfOk result (λ r. r.1.items ≡ new_passes r.0.table 0 guests) }
    {
        let words = vec![in alloc; 0u64; frames as usize]?;
        let (table, opener) = Shelf::of_words(alloc, words.as_slice(), &Size { frames, guests })?;
        let table = Arc::new(alloc, table)?;
        let passes = deal(alloc, &table, opener, frames, guests)?;
        Ok((SharedFrames { table, frames }, passes))
    }

    /// How many frames are held. Beside other threads nothing is claimed of the number.
    pub fn census(&self) -> u32
        ensures { result ≤ self.now.frames }
    {
        steps::count_taken(&self.table.shared, self.frames)
    }
}

impl FramePass {
    /// Where a claimed frame's bytes come from.
    pub(crate) fn alloc(&self) -> Global {
        self.alloc
    }

    /// Claims the first frame that it finds free: each is tried once, in rising order. None where
    /// none was free when it was tried.
    pub fn claim(&mut self) -> Option<u32>
        ensures some { IfSome result (λ f. (has self.old.held f ≡ false) ×
            (self.new ≡ record (self.old) { held = f ∷ self.old.held; found = Some f })) }
        ensures none { IfNone result (self.new ≡ record (self.old) { found = None }) }
    {
        self.found = steps::claim_first(&self.table.shared, &mut self.place, self.tag, self.frames);
        self.found
    }

    /// Puts a frame back; answers true exactly where the pass held it, which it then does no more.
    /// Else nothing is changed.
    pub fn put_back(&mut self, frame: u32) -> bool
        ensures held { result ≡ has self.old.held frame }
        ensures rest { self.new ≡ record (self.old) { held = without self.old.held frame } }
    {
        if frame >= self.frames {
            return false;
        }
        steps::return_word(&self.table.shared, &mut self.place, self.tag, frame)
    }

    /// Puts every frame back that the pass holds.
    pub fn give_back_all(&mut self)
        ensures { self.new ≡ record (self.old) { held = [] } }
    {
        steps::return_all(&self.table.shared, &mut self.place, self.tag, self.frames);
    }

    /// Shows that two passes of one table hold no frame in common. Both hold what they held.
    pub fn meet(&mut self, other: &mut FramePass)
        requires { self.old.table ≡ other.old.table }
        ensures same { (self.new ≡ self.old) × (other.new ≡ other.old) }
        ensures apart { (f : ℕ) → has self.old.held f ≡ true → has other.old.held f ≡ false }
    {
        steps::meet(
            &self.table.shared,
            &mut self.place,
            self.tag,
            &mut other.place,
            other.tag,
        );
    }
}
