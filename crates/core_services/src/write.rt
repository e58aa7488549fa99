// Write, but for the frame: takes it into a member of a pool of sending objects, where it waits to be sent.
ghost use Rattle.std.specs.Prelude.{◌≡◌, ◌≤◌, ◌^◌};
ghost use Rattle.rules.specs.Reason.{first_reason, ◌then◌};
ghost use Rattle.rules.specs.Core.{free_member};
ghost use Rattle.rules.specs.Services as rules;
ghost use Rattle.core_places.specs.View.{view_controller, view_mailbox};
ghost use Rattle.core_places.specs.Names.{SameNames};
ghost use Rattle.core_answers.specs.Answer.{verdict_reason};
ghost use Rattle.core_answers.specs.Reply.{write_answer};
ghost use Rattle.core_services.specs.Checks.{sending_checks, free_checks};
ghost use Rattle.core_services.specs.WriteTaken.{WriteTaken};

use crate::pool::{free_member, names_pool};
use core_answers::rejection::Rejection;
use core_answers::reply::WriteReply;
use core_answers::verdict::Verdict;
use core_places::controller::{Controller, STARTED};
use core_places::mailbox::Mailbox;
use core_places::places::CorePlaces;
use core_places::set_places::SetMailboxes;

// Reasons 5 and 2: the driver is initialised, and the object names a pool.
#[tactic(auto, unfolding(rules::specs::Reason::first_reason))]
fn judge_sending(initialised: bool, named: bool) -> Verdict
    ensures { verdict_reason result ≡ first_reason (sending_checks initialised named) }
{
    if !initialised {
        return Err(Rejection::Uninit);
    }
    if named {
        Ok(())
    } else {
        Err(Rejection::ParamHandle)
    }
}

// A frame waits in the mailbox; one that is gone does so until it is confirmed.
fn is_occupied(m: Mailbox) -> bool
    ensures { result ≡ (view_mailbox m).tx_pending }
{
    m.tx_pending
}

// Reasons 35 and 36: the controller is STARTED, and no frame waits in the mailbox.
#[tactic(auto, unfolding(rules::specs::Reason::first_reason))]
fn judge_free(k: Controller, m: Mailbox) -> Verdict
    ensures { verdict_reason result ≡ first_reason (free_checks (view_controller k) (view_mailbox m)) }
{
    if k.mode != STARTED {
        return Err(Rejection::NotStarted);
    }
    if is_occupied(m) {
        Err(Rejection::ObjectBusy)
    } else {
        Ok(())
    }
}

// All reasons of Write to an object: whether it names a pool, the frame, the controller k and the mailbox m of the free member.
#[tactic(auto, using(core_answers::proofs::Laws::reason_named))]
pub fn judge_write(
    initialised: bool,
    named: bool,
    k: Controller,
    m: Mailbox,
    frame: Verdict,
) -> Verdict
    ensures { verdict_reason result
        ≡ first_reason (sending_checks initialised named) then verdict_reason frame then first_reason (free_checks (view_controller k) (view_mailbox m)) }
{
    judge_sending(initialised, named)?;
    frame?;
    judge_free(k, m)
}

// A mailbox in which a written frame waits.
pub fn written_mailbox() -> Mailbox
    ensures { view_mailbox result ≡ rules.written_mailbox }
{
    Mailbox {
        tx_pending: true,
        tx_done: false,
        rx_full: false,
    }
}

// The same, of what is read of the core: object h is named, and this member would take the frame.
fn judge_open<K: CorePlaces>(frame: Verdict, core: &K, h: usize, member: usize) -> Verdict
    requires { ((K.core core.now).object_count ≤ K.objects core.now) × (member ≡ free_member (K.core core.now) h) }
    ensures { verdict_reason result ≡ rules.write_reason (K.core core.now) h (verdict_reason frame) }
{
    let owner = core.owner(h);
    let k = core.controller(owner.controller as usize);
    let m = core.mailbox(member);
    judge_write(core.initialised(), names_pool(core, h), k, m, frame)
}

// Has the lowest free member of the object's pool wait to be sent, where the frame is not refused and the pool can take it; behind the gate.
#[tactic(auto, using(core_answers::proofs::Laws::reason_named))]
fn take_open<K: SetMailboxes>(frame: Verdict, core: &mut K, object: u32) -> WriteReply
    requires { ((K.core core.old).object_count ≤ K.objects core.old) × (K.objects core.old ≤ 2 ^ 32) }
    ensures taken { WriteTaken (K.core core.old) object 0 (verdict_reason frame) (verdict_reason result) (write_answer result)
        (K.core core.new) }
    ensures places { (K.controllers core.new ≡ K.controllers core.old) × (K.objects core.new ≡ K.objects core.old) × (K.error_places core.new ≡ K.error_places core.old) }
    ensures memory { SameNames (K.memory core.new) (K.memory core.old) }
{
    let h = object as usize;
    let member = free_member(core, h);
    judge_open(frame, core, h, member)?;
    core.set_mailbox(member, written_mailbox());
    Ok(member as u32)
}

// The same behind the gate's verdict: nothing is looked at where the gate refuses. The caller lays the frame down in the object that took it,
// and reports a refusal.
#[tactic(auto, using(core_answers::proofs::Laws::reason_named))]
pub fn take_write<K: SetMailboxes>(
    gate: Verdict,
    frame: Verdict,
    core: &mut K,
    object: u32,
) -> WriteReply
    requires { (K.objects core.old ≤ 2 ^ 32) × (verdict_reason gate ≡ 0 → (K.core core.old).object_count ≤ K.objects core.old) }
    ensures taken { WriteTaken (K.core core.old) object (verdict_reason gate) (verdict_reason frame) (verdict_reason result) (write_answer result)
        (K.core core.new) }
    ensures places { (K.controllers core.new ≡ K.controllers core.old) × (K.objects core.new ≡ K.objects core.old) × (K.error_places core.new ≡ K.error_places core.old) }
    ensures memory { SameNames (K.memory core.new) (K.memory core.old) }
{
    gate?;
    take_open(frame, core, object)
}
