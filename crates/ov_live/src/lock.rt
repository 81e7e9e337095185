ghost use Rattle.std.specs.Prelude.{ℕ, []};
ghost use Rattle.ov_locks.specs.Calls.{lock_call_view};
ghost use Rattle.ov_specs.specs.locks.Queues.{call_refusal};
ghost use Rattle.ov_specs.specs.machine.Machine as spec;
ghost use Rattle.ov_live.specs.Handling.{WorksWith, HasSameRest, work_at};

use crate::live::Live;
use crate::send::send;
use ov_base::Tree;
use ov_history::Outcome;
use ov_keeper::Keeper;
use ov_locks::{LockCall, LockFault};
use ov_rpc::failure;
use std::alloc::Global;

impl<K: Keeper + Drop> Live<K> {
    /// Performs a lock call of a session and sends what follows from it, or refuses it (RFC 7047, 4.1.8).
    pub fn ask_lock(
        &mut self,
        alloc: Global,
        session: u64,
        call: LockCall,
        id: Tree,
        name: &str,
    ) -> Option<Outcome>
        ensures works { (moment : ℕ)
            → WorksWith
            (work_at moment session
            (spec.unless_refused id
            (call_refusal (lock_call_view call) name.now session self.old.outbox.queues)
            (spec.Locks (lock_call_view call) id name.now))
            [])
            self.old result self.new }
        ensures rest { HasSameRest self.old result self.new }
    {
        match self.outbox.ask(alloc, call, session, &id, name) {
            Ok(()) => None,
            Err(fault) => match fault {
                LockFault::Memory => Some(Outcome::NoMemory),
                _ => self.refuse(alloc, session, id, fault.text()),
            },
        }
    }

    /// Replies with an error in place of a result.
    pub fn refuse(&mut self, alloc: Global, session: u64, id: Tree, text: &str) -> Option<Outcome>
        ensures works { (moment : ℕ)
            → WorksWith (work_at moment session (spec.refused id text.now) []) self.old result
            self.new }
        ensures rest { HasSameRest self.old result self.new }
    {
        match failure(alloc, id, text) {
            Ok(frame) => send(alloc, &mut self.outbox, session, Some(frame)),
            Err(_) => Some(Outcome::NoMemory),
        }
    }
}
