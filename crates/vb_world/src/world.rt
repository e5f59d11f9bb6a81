//! A host: its frames, its guests, and the devices that no guest has yet.

ghost use Rattle.std.specs.Prelude.{◌≡◌, ◌<◌, ◌≤◌, ◌^◌, ℕ, true, All, IfOk, IfErr, OnErr, OnOk};
ghost use Rattle.std.specs.Prelude.{map, ◌++◌, [], vec_len, vec_capacity, ◌∷◌, List, Bool, IsTrue};
ghost use Rattle.std.specs.Prelude.{length, IsOk};
ghost use Rattle.vb_model.specs.Safe.{IsSafeRun};
ghost use Rattle.vb_model.specs.World.{World as Model, made};
ghost use Rattle.vb_model.specs.HostEvents.{WorldStep, PlugsIn};
ghost use Rattle.vb_model.specs.HostEvents.{needs, with_targets};
ghost use Rattle.vb_model.specs.declared.calls.Event.TheVariants.{Plug, Guest as OnGuest};
ghost use Rattle.vb_model.specs.declared.calls.Event.TheVariants.{Unplug, Restart, Balance};
ghost use Rattle.vb_model.specs.declared.calls.Event.TheVariants.{Query as OnQuery};
ghost use Rattle.vb_model.specs.declared.calls.Event.TheVariants.{Frames as CountFrames};
ghost use Rattle.vb_virtio.specs.Limits.{is_config, max_guests};
ghost use Rattle.slab.specs.Slab.{slab_len};
ghost use Rattle.vb_slot.specs.Spare.{IsSpare};
ghost use Rattle.vb_world.specs.Hosts.{IsWorld};

use arrayvec::ArrayVec;
use slab::Slab;
use std::alloc::{AllocError, Global};
use vb_balance::{GuestNeed, targets};
use vb_device::Device;
use vb_frames::FrameTable;
use vb_model::{Call, Event, GuestSize, Query, Reply};
use vb_ram::Config;
use vb_slot::Slot;
use vb_virtio::Refusal;
use vb_virtio::limits::{MAX_FRAMES, MAX_GUESTS};

/// As many guests as there may be, as a capacity.
const GUESTS: usize = MAX_GUESTS as usize;

/// A host with its frames, its guests, and the devices that no guest has yet.
#[derive(Drop)]
pub struct World {
    /// The frames.
    table: FrameTable,
    /// The guests, by their numbers.
    slots: Slab<Slot>,
    /// The devices that no guest has yet; the next guest gets the first.
    spares: Vec<Box<dyn Device + Send>>,
}

/// Adds a device after the spare ones. Refused on an allocation failure alone, which there isn't
/// where the list has room; the list is as it was then, and the device gone.
pub fn add_spare(
    spares: &mut Vec<Box<dyn Device + Send>>,
    device: Box<dyn Device + Send>,
) -> Result<(), AllocError>
    requires spares { All (λ d. IsSpare (mem d) (part d)) spares.old.items }
    requires device { IsSpare (mem device) (part device) }
    ensures spares { All (λ d. IsSpare (mem d) (part d)) spares.new.items }
    ensures added { OnOk result (spares.new.items ≡ spares.old.items ++ device ∷ []) }
    ensures kept { OnErr result (spares.new.items ≡ spares.old.items) }
    ensures room { vec_len spares.old < vec_capacity spares.old → IsOk result }
{
    spares.push(device)?;
    Ok(())
}

/// Puts a device before the others, for which there is room.
fn put_first(devices: &mut Vec<Box<dyn Device + Send>>, device: Box<dyn Device + Send>)
    requires room { vec_len devices.old < vec_capacity devices.old }
    ensures { devices.new.items ≡ device ∷ devices.old.items }
{
    match devices.insert(0, device) {
        Ok(()) => {}
        Err(_) => unreachable!(),
    }
}

impl World {
    /// A host of `frames` frames, 1 to 65,536, without guests. A plug takes the first of the spare
    /// devices that are left, and the guest has its pace. An allocation failure is the only
    /// refusal.
    pub fn new(
        alloc: Global,
        frames: u32,
        spares: Vec<Box<dyn Device + Send>>,
    ) -> Result<World, AllocError>
        requires some { 0 < frames }
        requires few { frames ≤ MAX_FRAMES }
        requires spares { All (λ d. IsSpare (mem d) (part d)) spares.items }
        ensures { IfOk result (λ world. IsWorld mem part world
            (made frames (map (λ d. (part d).paced) spares.items))) }
    {
        Ok(World {
            table: FrameTable::new(alloc, frames)?,
            slots: Slab::with_capacity(alloc, GUESTS)?,
            spares,
        })
    }

    /// How many frames back pages, and how many don't.
    fn count_frames(&self) -> Reply
        ensures { (w : Model) → IsWorld mem part self.now w → WorldStep w CountFrames result w }
    {
        let used = self.table.used();
        Reply::Frames {
            used,
            free: self.table.frames() - used,
        }
    }

    /// A call on a guest.
    fn call(&mut self, alloc: Global, guest: u32, call: &Call) -> Reply
        requires world { (w : Model) × IsWorld mem part self.old w }
        ensures { (w : Model) → IsWorld mem part self.old w →
            (new : Model) × IsWorld mem part self.new new ×
            WorldStep w (OnGuest guest call.now) result new }
    {
        match self.slots.get_mut(guest as usize) {
            Some(slot) => slot.call(alloc, &mut self.table, call),
            None => Reply::Refused(Refusal::NoGuest),
        }
    }

    /// A question about a guest.
    fn query(&self, alloc: Global, guest: u32, query: &Query) -> Reply
        requires world { (w : Model) × IsWorld mem part self.now w }
        ensures { (w : Model) → IsWorld mem part self.now w →
            WorldStep w (OnQuery guest query.now) result w }
    {
        match self.slots.get(guest as usize) {
            Some(slot) => slot.query(alloc, query),
            None => Reply::Refused(Refusal::NoGuest),
        }
    }

    /// A guest is plugged in, with the first spare device.
    fn plug(&mut self, alloc: Global, size: GuestSize) -> Reply
        requires world { (w : Model) × IsWorld mem part self.old w }
        ensures { (w : Model) → IsWorld mem part self.old w →
            (new : Model) × IsWorld mem part self.new new ×
            WorldStep w (Plug size) result new }
    {
        let Some(config) = Config::new(size.pages, size.queue_size, size.processors) else {
            return Reply::Refused(Refusal::BadConfig);
        };
        if self.slots.len() >= MAX_GUESTS as usize {
            return Reply::Refused(Refusal::TooMany);
        }
        if self.spares.is_empty() {
            return Reply::Refused(Refusal::NoDevice);
        }
        self.plug_first_spare(alloc, config)
    }

    /// A guest of this configuration is plugged in, where there is a number for it and a device.
    fn plug_first_spare(&mut self, alloc: Global, config: Config) -> Reply
        requires world { (w : Model) × IsWorld mem part self.old w }
        requires config { is_config config.pages config.queue_size config.processors ≡ true }
        requires few { slab_len self.old.slots < max_guests }
        requires some { 0 < vec_len self.old.spares }
        ensures { (w : Model) → IsWorld mem part self.old w →
            (new : Model) × IsWorld mem part self.new new ×
            PlugsIn (record {
              pages = config.pages;
              queue_size = config.queue_size;
              processors = config.processors;
            }) w.spares w result new }
    {
        let device = self.spares.remove(0);
        match Slot::new(alloc, device, config) {
            Ok(slot) => {
                let guest = self.slots.insert_reserved(slot);
                Reply::Plugged { guest }
            }
            Err(refused) => {
                put_first(&mut self.spares, refused.device);
                Reply::Refused(Refusal::NoMemory)
            }
        }
    }

    /// A guest goes, and its device with it. Its frames are free again, and its number is the next
    /// guest's.
    fn unplug(&mut self, guest: u32) -> Reply
        requires world { (w : Model) × IsWorld mem part self.old w }
        ensures { (w : Model) → IsWorld mem part self.old w →
            (new : Model) × IsWorld mem part self.new new ×
            WorldStep w (Unplug guest) result new }
    {
        match self.slots.try_remove(guest as usize) {
            Some(mut slot) => {
                slot.empty(&mut self.table);
                Reply::Done
            }
            None => Reply::Refused(Refusal::NoGuest),
        }
    }

    /// A new life of a guest begins, on its device. Its frames are free again.
    fn restart(&mut self, guest: u32) -> Reply
        requires world { (w : Model) × IsWorld mem part self.old w }
        ensures { (w : Model) → IsWorld mem part self.old w →
            (new : Model) × IsWorld mem part self.new new ×
            WorldStep w (Restart guest) result new }
    {
        match self.slots.get_mut(guest as usize) {
            Some(slot) => {
                slot.restart(&mut self.table);
                Reply::Done
            }
            None => Reply::Refused(Refusal::NoGuest),
        }
    }

    /// What the guests have and can spare, by rising number of guest.
    fn needs(&self, floor: u32) -> ArrayVec<GuestNeed, GUESTS>
        requires world { (w : Model) × IsWorld mem part self.now w }
        ensures { (w : Model) → IsWorld mem part self.now w → result.items ≡ needs floor w }
    {
        let mut needs = ArrayVec::new();
        for key in 0..self.slots.capacity() {
            if let Some(slot) = self.slots.get(key) {
                needs.push(GuestNeed {
                    pages: slot.pages(),
                    spare: slot.spare(floor),
                });
            }
        }
        needs
    }

    /// Sets the guests' targets, by rising number of guest.
    fn set_targets(&mut self, targets: &[u32])
        requires world { (w : Model) × IsWorld mem part self.old w }
        requires one_each { length targets.now ≡ slab_len self.old.slots }
        ensures { (w : Model) → IsWorld mem part self.old w → IsWorld mem part self.new
            (record w { guests = with_targets targets.now w.guests }) }
    {
        let mut next = 0;
        for key in 0..self.slots.capacity() {
            if let Some(slot) = self.slots.get_mut(key) {
                slot.set_target(targets[next]);
                next += 1;
            }
        }
    }

    /// New targets for all guests, so that the host's frames suffice for all pages.
    fn balance(&mut self, floor: u32) -> Reply
        requires world { (w : Model) × IsWorld mem part self.old w }
        ensures { (w : Model) → IsWorld mem part self.old w →
            (new : Model) × IsWorld mem part self.new new ×
            WorldStep w (Balance floor) result new }
    {
        let needs = self.needs(floor);
        match targets(needs.as_slice(), self.table.frames()) {
            Ok(targets) => {
                self.set_targets(targets.as_slice());
                Reply::Targets {
                    pages: targets.into_numbers(),
                }
            }
            Err(short) => Reply::Refused(Refusal::Short {
                missing: short.missing,
            }),
        }
    }

    /// What one event is answered, and what it leaves.
    pub fn step(&mut self, alloc: Global, event: &Event) -> Reply
        requires world { (w : Model) × IsWorld mem part self.old w }
        ensures { (w : Model) → IsWorld mem part self.old w →
            (new : Model) × IsWorld mem part self.new new × WorldStep w event.now result new }
    {
        match event {
            Event::Plug { size } => self.plug(alloc, *size),
            Event::Unplug { guest } => self.unplug(*guest),
            Event::Restart { guest } => self.restart(*guest),
            Event::Guest { guest, call } => self.call(alloc, *guest, call),
            Event::Query { guest, query } => self.query(alloc, *guest, query),
            Event::Balance { floor } => self.balance(*floor),
            Event::Frames => self.count_frames(),
        }
    }

    /// Lets events happen, one after the other, and gives what each is answered.
    ///
    /// An allocation failure for the replies is the only refusal, and comes before the first event.
    /// Where there is no event there is none.
    pub fn run(&mut self, alloc: Global, events: &[Event]) -> Result<Vec<Reply>, AllocError>
        requires made { (frames : ℕ) × (spares : List Bool) ×
            IsWorld mem part self.old (made frames spares) }
        ensures run { (frames : ℕ) (spares : List Bool) →
            IsWorld mem part self.old (made frames spares)
            → IfOk result (λ replies. (last : Model) × IsWorld mem part self.new last ×
            IsSafeRun (made frames spares) events.now replies.items last) }
        ensures err { (w : Model) → IsWorld mem part self.old w →
            OnErr result (IsWorld mem part self.new w) }
        ensures silent { length events.now ≡ 0 → IsOk result }
    {
        let mut replies = Vec::with_capacity(alloc, events.len())?;
        for event in events {
            let reply = self.step(alloc, event);
            replies.push_reserved(reply);
        }
        Ok(replies)
    }
}
