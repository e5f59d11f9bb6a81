//! A notice as C keeps it: what it says is to be done, and where it is.

ghost use Rattle.std.specs.Prelude.{◌≡◌, None, Some};
ghost use Rattle.vb_core.specs.declared.kinds.Kind.{Kind};
ghost use Rattle.vb_monitor.specs.Machine.{Fits};
ghost use Rattle.vb_monitor.specs.Steps.{phase_of, step_of};
ghost use Rattle.vb_c.specs.Notices.{notice_of, Rechecks};
ghost use Rattle.vb_c.specs.Serving.{leaves_hints};

use crate::bits::DISCARD;
use crate::kinds::kind_of_code;
use vb_core::{Device, Kind};
use vb_monitor::{Orders, Progress, Snapshot};

/// A notice: what is to be done next, and what is remembered until it was done.
#[repr(C)]
#[derive(Clone, Copy, Debug)]
pub struct VbNotice {
    /// What is to be done.
    pub what: u32,
    /// The kind of its queue.
    pub kind: u32,
    /// What needs no answer.
    pub orders: Orders,
    /// Where it is.
    pub step: Progress,
    /// The device as the notice left it.
    pub left: Snapshot,
}

impl VbNotice {
    /// The kind of its queue, if it is a notice that goes on.
    #[tactic(auto, using(crate::proofs::NoticeLemmas::going_steps))]
    pub(crate) fn going(&self) -> Option<Kind>
        ensures none { result ≡ None → notice_of self.now ≡ None }
        ensures some { (kind : Kind) → result ≡ Some kind →
            notice_of self.now ≡ Some (record { kind = kind; step = step_of self.now.step }) }
        ensures fits { (kind : Kind) → result ≡ Some kind → Fits (phase_of self.now.step) }
    {
        if !self.step.may_go_on() {
            return None;
        }
        kind_of_code(self.kind)
    }

    /// Whether what it discards next may not be discarded any longer.
    #[inline(always)]
    pub(crate) fn leaves_hints(&self, device: &Device, kind: Kind) -> bool
        ensures { result ≡ leaves_hints
            (record { kind = kind; step = step_of self.now.step }) self.now.left device.now }
    {
        !self.left.may_discard(device, kind) && self.step.is_discarding()
    }

    /// What is still to be done of what it says, where it is of this kind's queue.
    pub(crate) fn recheck(&self, device: &Device, kind: Kind) -> u32
        ensures { Rechecks kind self.now device.now result }
    {
        if !self.left.is_current(device, kind) {
            return 0;
        }
        if self.left.may_discard(device, kind) {
            return self.what;
        }
        self.what - (self.what & DISCARD)
    }
}
