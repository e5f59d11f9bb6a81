//! Who hands out a host's frames.

ghost use Rattle.std.specs.Prelude.{◌≡◌, Bool, List, IfOk, OnErr, slice_set, true, false};
ghost use Rattle.vb_model.specs.declared.calls.Claim.{Claim};
ghost use Rattle.vb_virtio.specs.Memory.{zero_page};
ghost use Rattle.vb_frames.specs.Out.{is_out, IsFree, claim_in};

use thiserror::Error;
use vb_ram::Frame;

/// Why no frame is given.
#[derive(Clone, Copy, Debug, PartialEq, Eq, Error)]
pub enum Refused {
    /// All frames are out, or the keeper gives none.
    #[error("all frames are out")]
    NoFrame = 1,
    /// There is no memory for the frame's bytes.
    #[error("out of memory")]
    Memory = 2,
}

/// Who hands out frames. What is seen of a keeper is which frames, by number, are out.
pub trait FrameKeeper {
    /// Of each frame, by its number, whether it is out.
    ghost out: { Self → List Bool };

    /// What a claim may be answered where these frames are out.
    ghost answers: { List Bool → Claim → Type 0 };

    /// Gives a frame of zeros, whose number wasn't out and is then. A refused claim changes
    /// nothing.
    fn claim(&mut self) -> Result<Frame, Refused>
        ensures given { IfOk result (λ frame. IsFree (out self.old) frame.number
            × (out self.new ≡ slice_set (out self.old) frame.number true)) }
        ensures refused { OnErr result (out self.new ≡ out self.old) }
        ensures answer { answers (out self.old) (claim_in result) }
        ensures zeros { IfOk result (λ frame. frame.bytes ≡ zero_page) };

    /// Takes a frame back: its number isn't out then.
    fn put_back(&mut self, frame: Frame)
        requires { is_out (out self.old) frame.number ≡ true }
        ensures { out self.new ≡ slice_set (out self.old) frame.number false };
}
