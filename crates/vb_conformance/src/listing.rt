//! A host whose devices are this program's own: any device serves a host.

ghost use Rattle.std.specs.Prelude.{◌≡◌, ⊤, IfOk, vec_len};

use crate::listed::ListedDevice;
use std::alloc::{AllocError, Global};
use std::io::Write;
use vb_command::{Play, ProgramFault, write_lines};
use vb_device::Device;
use vb_model::Reply;
use vb_script::Script;
use vb_world::{World, add_spare};

/// A host whose devices have a list, whatever their pace is in the script.
#[derive(Drop)]
pub struct Listing {
    /// How often each finds no memory for its guest; those after them always find it.
    pub refusals: &'static [u32],
}

impl Play for Listing {
    ghost played = { λ said replies. ⊤ };

    fn play<W: Write>(
        &mut self,
        alloc: Global,
        script: &Script,
        out: &mut W,
    ) -> Result<(), ProgramFault> {
        let replies = self.answer_all(alloc, script)?;
        write_lines(out, &replies)
    }
}

impl Listing {
    /// What a script's events are answered.
    fn answer_all(&self, alloc: Global, script: &Script) -> Result<Vec<Reply>, AllocError>
        ensures { IfOk result (λ replies. vec_len replies ≡ vec_len script.now.events) }
    {
        let mut spares: Vec<Box<dyn Device + Send>> = Vec::new(alloc);
        for at in 0..script.spares.len() {
            let refusals = self.refusals.get(at).copied().unwrap_or(0);
            let device = Box::new(alloc, ListedDevice::refusing(alloc, refusals))?;
            add_spare(&mut spares, device)?;
        }
        let mut world = World::new(alloc, script.frames, spares)?;
        world.run(alloc, &script.events)
    }
}
