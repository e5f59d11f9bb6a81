//! A notice as plain data, for a caller that makes the accesses itself.

ghost use Rattle.std.specs.Prelude.{◌≡◌, ◌++◌, ◌<◌, false, ℕ, List};
ghost use Rattle.vb_core.specs.declared.device.Device.{Device};
ghost use Rattle.vb_monitor.specs.declared.outcome.Outcome.{Outcome};
ghost use Rattle.vb_monitor.specs.declared.room.Room.{Room};
ghost use Rattle.vb_monitor.specs.Accesses.{Access};
ghost use Rattle.vb_monitor.specs.Notices.{Serves, GivesHeldBack};
ghost use Rattle.vb_monitor.specs.Machine.{Fits, is_ended, Ahead, Does, Awaited, whole};
ghost use Rattle.vb_monitor.specs.Left.{left};
ghost use Rattle.vb_monitor.specs.Steps.{phase_of, step_of};

use crate::copying::{copy_further, copy_on};
use crate::discards::{after_discard, after_told};
use crate::ends::{after_flags, end};
use crate::giving::give_back;
use crate::looks::{after_entry, after_given, after_index, look};
use crate::walk::after_descriptor;
use crate::{Budget, Discarding, HeldChain, Phase, Progress, Region, Room};
use vb_core::{Device, Kind};

impl Progress {
    /// The driver kicked the queue of this kind, or may have: it is served as far as the budget
    /// has room. Not for a queue of which a chain is held.
    pub fn begin(&mut self, device: &mut Device, regions: &[Region], kind: Kind, budget: Budget)
        ensures step { (after : Device) (outcome : Outcome) (room : Room) (log : List Access) →
            Ahead (whole regions.now kind after outcome) (step_of self.new) device.new room log →
            Serves regions.now kind budget device.old after outcome log }
        ensures fits { Fits (phase_of self.new) }
    {
        self.chains_left = budget.chains;
        self.pages_left = budget.pages;
        self.most_pages = budget.pages;
        self.keeps = u8::from(budget.keeps);
        self.longest = budget.longest;
        self.told = 0;
        self.given = 0;
        self.taken = 0;
        self.published = 0;
        look(self, device, regions, kind);
    }

    /// A chain that is held of a kind's queue is given back: new statistics are asked for by it
    /// (VIRTIO 1.1, 5.5.6.3), or a deflate is granted (5.5.6).
    pub fn give_held(
        &mut self,
        device: &mut Device,
        regions: &[Region],
        kind: Kind,
        held: HeldChain,
    )
        ensures step { (after : Device) (outcome : Outcome) (room : Room) (log : List Access) →
            Ahead (whole regions.now kind after outcome) (step_of self.new) device.new room log →
            GivesHeldBack regions.now kind held device.old after outcome log }
        ensures fits { Fits (phase_of self.new) }
    {
        self.chains_left = 0;
        self.pages_left = 0;
        self.most_pages = 0;
        self.keeps = 0;
        self.longest = 0;
        self.told = 0;
        self.given = 0;
        self.published = 0;
        self.hold(held.head, held.pages);
        give_back(self, device, regions, kind, held.head);
    }

    /// Goes on, once what was to be done was done, with this answer. The room is as the call before
    /// left it, but for the bytes that were copied.
    #[inline(always)]
    pub fn next(
        &mut self,
        device: &mut Device,
        regions: &[Region],
        kind: Kind,
        answer: u16,
        room: &mut Room,
    )
        requires { Fits (phase_of self.old) }
        ensures step { (after : Device) (outcome : Outcome) (before : List ℕ)
            (done rest : List Access) →
            Does (phase_of self.old) kind answer before room.old done →
            Ahead (whole regions.now kind after outcome) (step_of self.new) device.new room.new
            rest →
            Ahead (whole regions.now kind after outcome) (step_of self.old) device.old
            (record room.old { bytes = before }) (done ++ rest) }
        ensures fits { Fits (phase_of self.new) }
        ensures left { is_ended (phase_of self.old) ≡ false →
            left regions.now (step_of self.new) < left regions.now (step_of self.old) }
    {
        match self.phase() {
            Phase::AwaitsIndex { .. } => after_index(self, device, regions, kind, answer),
            Phase::AwaitsEntry { .. } => after_entry(self, device, regions, kind, answer),
            Phase::AwaitsDescriptor { walk, .. } => {
                after_descriptor(self, device, regions, kind, walk, room)
            }
            Phase::AwaitsPart {
                place,
                into,
                length,
                ..
            } => copy_on(
                self,
                device,
                regions,
                kind,
                place,
                into + length as usize,
                room,
            ),
            Phase::TellsPages {
                place,
                named,
                further,
            } => {
                let discarding = Discarding::first(place, further, named.runs);
                after_told(self, device, regions, kind, discarding, room)
            }
            Phase::TellsFigures { .. } => end(self, device, regions, kind, None, false),
            Phase::TellsId { head, .. } => give_back(self, device, regions, kind, head),
            Phase::Discards { discarding, .. } => {
                after_discard(self, device, regions, kind, discarding, room)
            }
            Phase::GivesBack { .. } => {
                self.given = 1;
                after_given(self, device, regions, kind)
            }
            Phase::AwaitsFlags { why, more, .. } => after_flags(self, why, more, answer),
            Phase::Paused { place } => {
                self.pages_left = self.most_pages;
                copy_further(self, device, regions, kind, place, room)
            }
            Phase::Ended { .. } => {}
        }
    }

    /// Goes on as by `next`, where all that needs no answer was done by `at_once`: what is to be
    /// discarded next waits for no answer, and is done then.
    #[inline(always)]
    pub fn go_on(
        &mut self,
        device: &mut Device,
        regions: &[Region],
        kind: Kind,
        answer: u16,
        room: &mut Room,
    )
        requires { Fits (phase_of self.old) }
        ensures step { (after : Device) (outcome : Outcome) (before : List ℕ)
            (done rest : List Access) →
            Awaited (phase_of self.old) kind answer before room.old done →
            Ahead (whole regions.now kind after outcome) (step_of self.new) device.new room.new
            rest →
            Ahead (whole regions.now kind after outcome) (step_of self.old) device.old
            (record room.old { bytes = before }) (done ++ rest) }
        ensures fits { Fits (phase_of self.new) }
    {
        if !self.is_discarding() {
            self.next(device, regions, kind, answer, room);
        }
    }
}
