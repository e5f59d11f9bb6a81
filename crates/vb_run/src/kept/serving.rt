//! The calls that a guest's worker makes under the guest's lock.

ghost use Rattle.std.specs.Prelude.{◌≡◌, ◌<◌, ℕ, true, false, slice_index_or, slice_set, MatchBool};
ghost use Rattle.std.specs.Prelude.{IfOk, OnOk, IfSome, IfNone};
ghost use Rattle.vb_model.specs.declared.calls.Actor.TheVariants.{Balancer};
ghost use Rattle.vb_run.specs.Entries.{entries_by};
ghost use Rattle.vb_run.specs.Past.{IsSame, AreHushed, NotesService};
ghost use Rattle.vb_run.specs.Services.{found_nothing};

use super::Kept;
use crate::note::{Caller, Note};
use crate::room::{claims_in, make_room};
use crate::served::{SERVICES, Served, found_nothing, service};
use std::alloc::{AllocError, Global};
use std::convert::AsSlice;
use std::sync::Wait;
use vb_model::{Call, Reply};
use vb_slot::GuestSlot;

impl<S: GuestSlot, L: AsSlice<Call> + Drop> Kept<S, L> {
    /// Makes the worker's call of this number. Where it finds nothing to do, no entry is kept.
    fn serve(&mut self, alloc: Global, number: usize) -> Result<Reply, AllocError>
        requires { number < SERVICES }
        ensures same { IsSame self.old self.new }
        ensures noted { IfOk result (λ reply. MatchBool (found_nothing reply)
            (self.new ≡ record self.old { quiet = slice_set self.old.quiet number true })
            (NotesService number reply self.old self.new)) }
    {
        self.history.reserve(1)?;
        make_room(&mut self.room)?;
        let call = service(number);
        let reply = self.slot.call(alloc, &call);
        if found_nothing(&reply) {
            self.quiet[number] = true;
            return Ok(reply);
        }
        let claims = claims_in(alloc, &self.slot, &mut self.room);
        let answer = reply.copy(alloc);
        self.history.push_reserved(Note::Called {
            caller: Caller::Worker { service: number },
            claims,
            reply,
        });
        self.quiet = [false; SERVICES];
        answer
    }

    /// Makes the worker's call of this number, then each that may find something to do, until one
    /// does: the last call's number and reply.
    #[tactic(auto, using(crate::proofs::Keeping::served_after))]
    pub fn serve_from<R: Wait>(
        &mut self,
        rt: &R,
        alloc: Global,
        first: usize,
    ) -> Result<Served, AllocError>
        requires { first < SERVICES }
        ensures same { IsSame self.old self.new }
        ensures number { IfOk result (λ served. served.number < SERVICES) }
        ensures noted { IfOk result (λ served. MatchBool (found_nothing served.reply)
            (AreHushed self.new.quiet
            × (self.new ≡ record self.old { quiet = self.new.quiet }))
            (NotesService served.number served.reply self.old self.new)) }
    {
        let mut number = first;
        let mut reply = self.serve(alloc, number)?;
        for _ in rt.forever() {
            if !found_nothing(&reply) {
                break;
            }
            let Some(next) = self.next_service() else {
                break;
            };
            number = next;
            reply = self.serve(alloc, number)?;
        }
        Ok(Served { number, reply })
    }

    /// The first call of the worker that may find something to do.
    fn next_service(&self) -> Option<usize>
        ensures some { IfSome result (λ n. (n < SERVICES)
            × (slice_index_or self.now.quiet n false ≡ false)
            × ((m : ℕ) → m < n → slice_index_or self.now.quiet m false ≡ true)) }
        ensures none { IfNone result (AreHushed self.now.quiet) }
    {
        for number in 0..SERVICES {
            if !self.quiet[number] {
                return Some(number);
            }
        }
        None
    }

    /// Makes the worker's calls until none of them finds anything to do.
    pub(super) fn drain<R: Wait>(&mut self, rt: &R, alloc: Global) -> Result<(), AllocError>
        ensures same { IsSame self.old self.new }
        ensures quiet { OnOk result (AreHushed self.new.quiet) }
        ensures balanced { OnOk result
            (entries_by Balancer self.new.history ≡ entries_by Balancer self.old.history) }
    {
        for _ in rt.forever() {
            let Some(number) = self.next_service() else {
                break;
            };
            self.serve(alloc, number)?;
        }
        Ok(())
    }
}
