//! The paces of a balloon device (profile).

ghost use Rattle.std.specs.Prelude.{Bool, true, false};

/// When a device takes the frames of an inflate's pages away (profile).
pub trait Pace {
    // The constant's value, which contracts cite.
    ghost IS_PACED: { Bool };

    /// Whether it visits them one by one before it finishes the request.
    const IS_PACED: bool;
}

/// All at once, as the request is finished.
#[derive(Drop)]
pub struct Immediate;

/// Page by page, before the request is finished.
#[derive(Drop)]
pub struct Paced;

impl Pace for Immediate {
    ghost IS_PACED = { false };

    const IS_PACED: bool = false;
}

impl Pace for Paced {
    ghost IS_PACED = { true };

    const IS_PACED: bool = true;
}
