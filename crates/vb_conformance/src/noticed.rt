//! A host whose devices are served by the notices that a VMM's library makes.

ghost use Rattle.std.specs.Prelude.{◌≡◌, ⊤, IfOk, vec_len};

use std::alloc::{AllocError, Global};
use std::io::Write;
use vb_command::{Play, ProgramFault, write_lines};
use vb_device::Device;
use vb_model::Reply;
use vb_script::Script;
use vb_served::NoticedDevice;
use vb_world::{World, add_spare};

/// A host on which each device is a monitor one, whatever its line says.
#[derive(Drop)]
pub struct Noticing;

impl Play for Noticing {
    ghost played = { λ said replies. ⊤ };

    fn play<W: Write>(
        &mut self,
        alloc: Global,
        script: &Script,
        out: &mut W,
    ) -> Result<(), ProgramFault> {
        let replies = answer_all(alloc, script)?;
        write_lines(out, &replies)
    }
}

/// What a script's events are answered.
fn answer_all(alloc: Global, script: &Script) -> Result<Vec<Reply>, AllocError>
    ensures { IfOk result (λ replies. vec_len replies ≡ vec_len script.now.events) }
{
    let mut spares: Vec<Box<dyn Device + Send>> = Vec::new(alloc);
    for _ in 0..script.spares.len() {
        let device = Box::new(alloc, NoticedDevice::new(alloc))?;
        add_spare(&mut spares, device)?;
    }
    let mut world = World::new(alloc, script.frames, spares)?;
    world.run(alloc, &script.events)
}
