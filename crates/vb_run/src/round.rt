//! A round of the balancer.

ghost use Rattle.std.specs.Prelude.{◌≡◌, ◌≤◌, ◌<◌, length, IfOk, sum};
ghost use Rattle.vb_model.specs.Balance.{IsAnswer};

use std::marker::Model;
use vb_balance::{GuestNeed, targets};
use vb_model::Reply;
use vb_virtio::Refusal;
use vb_virtio::limits::MAX_GUESTS;

/// What the balancer saw of each guest, and its answer.
#[derive(Drop)]
pub struct Round {
    frames: u32,
    needs: Vec<GuestNeed>,
    answer: Reply,
}

impl Model for Round {
    ghost use Rattle.vb_model.specs.Balance.{IsAnswer};
    ghost use Rattle.vb_run.specs.Rounds.{Rounded};

    ghost Value = { Rounded };

    ghost view = { λ r. record { frames = r.frames; needs = r.needs.items; answer = r.answer } };

    ghost invariant = { λ r. IsAnswer r.frames r.needs.items r.answer };
}

impl Round {
    /// The round of these looks, for `frames` frames.
    pub(crate) fn new(frames: u32, needs: Vec<GuestNeed>) -> Round
        requires few { length needs.items ≤ MAX_GUESTS }
        ensures frames { result.frames ≡ frames }
        ensures needs { result.needs ≡ needs.items }
    {
        let answer = match targets(needs.as_slice(), frames) {
            Ok(targets) => Reply::Targets {
                pages: targets.into_numbers(),
            },
            Err(short) => Reply::Refused(Refusal::Short {
                missing: short.missing,
            }),
        };
        Round {
            frames,
            needs,
            answer,
        }
    }

    /// The host's frames.
    pub fn frames(&self) -> u32
        ensures { result ≡ self.now.frames }
    {
        self.frames
    }

    /// What each guest has, and how many pages it could spare.
    pub fn needs(&self) -> &[GuestNeed]
        ensures { result.now ≡ self.now.needs }
    {
        self.needs.as_slice()
    }

    /// The guests' targets, or `Short` with the pages that stay missing.
    pub fn answer(&self) -> &Reply
        ensures same { result.now ≡ self.now.answer }
        ensures answer { IsAnswer self.now.frames self.now.needs self.now.answer }
    {
        &self.answer
    }
}
