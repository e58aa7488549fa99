// 01's Sent: a frame left the object.
ghost use Rattle.std.specs.Prelude.{◌≡◌, List, [], ℕ, ◌≤◌};
ghost use Rattle.rules.specs.Reason.{first_reason};
ghost use Rattle.rules.specs.Outcome.{no_answer};
ghost use Rattle.rules.specs.Events as rules;
ghost use Rattle.core_places.specs.View.{view_controller, view_mailbox};
ghost use Rattle.core_places.specs.Names.{SameNames};
ghost use Rattle.core_answers.specs.Answer.{verdict_reason};
ghost use Rattle.core_answers.specs.Performed.{Performed};
ghost use Rattle.core_events.specs.Checks.{sent_checks};

use core_answers::rejection::Rejection;
use core_answers::verdict::Verdict;
use core_places::controller::Controller;
use core_places::mailbox::Mailbox;
use core_places::set_places::SetMailboxes;

// Whether a frame can have left an object: the driver is initialised, the object is a sending one, its mailbox holds an unsent
// frame, and its controller is not off the bus.
#[tactic(auto, unfolding(rules::specs::Reason::first_reason))]
pub fn judge_sent(initialised: bool, sending: bool, m: Mailbox, k: Controller) -> Verdict
    ensures { verdict_reason result ≡ first_reason (sent_checks initialised sending (view_mailbox m) (view_controller k)) }
{
    let unsent = m.tx_pending & !m.tx_done;
    if !initialised {
        return Err(Rejection::Uninit);
    }
    if !sending {
        return Err(Rejection::ParamHandle);
    }
    if !unsent {
        return Err(Rejection::NothingToSend);
    }
    if k.bus_off {
        return Err(Rejection::BusOff);
    }
    Ok(())
}

// The mailbox of an object whose frame was sent: it stays occupied until its confirmation.
pub fn sent_mailbox() -> Mailbox
    ensures { view_mailbox result ≡ rules.sent_mailbox }
{
    Mailbox {
        tx_pending: true,
        tx_done: true,
        rx_full: false,
    }
}

// Marks the object as sent, so that the next write poll confirms it. Any number may be named.
pub fn tx_complete<K: SetMailboxes>(gate: Verdict, core: &mut K, object: u32) -> Verdict
    requires { verdict_reason gate ≡ 0 → (K.core core.old).object_count ≤ K.objects core.old }
    ensures performed { (ram : List ℕ)
        → Performed (rules.tx_complete (verdict_reason gate) (K.core core.old) ram object)
        (verdict_reason result) no_answer (K.core core.new) 0 ram [] [] }
    ensures places { (K.controllers core.new ≡ K.controllers core.old) × (K.objects core.new ≡ K.objects core.old) × (K.error_places core.new ≡ K.error_places core.old) }
    ensures memory { SameNames (K.memory core.new) (K.memory core.old) }
{
    let h = object as usize;
    let owner = core.owner(h);
    let k = core.controller(owner.controller as usize);
    let m = core.mailbox(h);
    let sending = (h < core.object_count()) & !owner.receiving;
    gate.and(judge_sent(core.initialised(), sending, m, k))?;
    core.set_mailbox(h, sent_mailbox());
    Ok(())
}
