//! A queue of a device that another hand serves over the device's memory.

ghost use Rattle.std.specs.Prelude.{◌≡◌, [], true};
ghost use Rattle.vb_virtio.specs.Status.{contains, driver_ok};
ghost use Rattle.vb_ring.specs.Layout.{IsBacked};
ghost use Rattle.vb_device.specs.Queues.{queue_layout};
ghost use Rattle.vb_device.specs.Calls.{ServesBy};
ghost use Rattle.vb_device.specs.ServedChains.{HasRegisters};
ghost use Rattle.vb_virtio.specs.Queues.{has_chains};

use crate::balloon::{BalloonDevice, note_fault};
use crate::pace::Pace;
use crate::queues::index_of;
use crate::serving::{OpenQueue, QueueRegisters, ServesChains};
use vb_virtio::Refusal;

impl<P: Pace> BalloonDevice<P> {
    /// How far the device is in a queue.
    fn registers(&self, queue: u32) -> QueueRegisters
        requires { has_chains queue ≡ true }
        ensures { HasRegisters result queue self.now.part }
    {
        let place = index_of(queue);
        QueueRegisters {
            status: self.status,
            features: self.features,
            queue_size: self.queue_size,
            next_avail: self.queues[place].next_avail(),
            next_used: self.queues[place].next_used(),
        }
    }

    /// Serves the next chain of a queue, as `Device::serve` does, by a server that goes over the
    /// device's memory; answers its head, or none where no chain is available. Refused as `serve`
    /// is.
    pub fn serve_by<S: ServesChains>(
        &mut self,
        server: &mut S,
        queue: u32,
    ) -> Result<Option<u16>, Refusal>
        requires backed { contains self.old.part.status driver_ok ≡ true →
            IsBacked self.old.mem (queue_layout queue self.old.part) }
        requires none { self.old.part.loose ≡ [] }
        ensures { ServesBy queue self.old.mem self.new.mem self.old.part self.new.part result }
    {
        if let Some(why) = self.serve_refusal(queue) {
            return Err(why);
        }
        let registers = self.registers(queue);
        let served = server.serve_chain(
            &mut self.ram,
            &mut self.loose,
            &mut self.ballooned,
            &mut self.last,
            OpenQueue {
                number: queue,
                registers,
            },
        );
        self.queues[index_of(queue)].go_on(served.next_avail, served.next_used, served.held);
        note_fault(&mut self.status, &served.answer);
        served.answer
    }
}
