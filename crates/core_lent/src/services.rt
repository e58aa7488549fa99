// The services.
ghost use Rattle.std.specs.Prelude.{◌≡◌, ◌≤◌, ◌^◌, false, cond, eqb, length, List, ℕ, []};
ghost use Rattle.rules.specs.Reason.{◌then◌};
ghost use Rattle.rules.specs.Repeat.{lowest_or};
ghost use Rattle.rules.specs.Core as state;
ghost use Rattle.rules.specs.Outcome.{no_answer, taken_by};
ghost use Rattle.rules.specs.Services as rules;
ghost use Rattle.core_places.specs.Arrays.{controllers_in, errors_in, mailboxes_in};
ghost use Rattle.core_places.specs.Beside.{controllers_beside, errors_beside, owners_beside, mailboxes_beside};
ghost use Rattle.core_answers.specs.Answer.{verdict_reason};
ghost use Rattle.core_answers.specs.Reply.{question_of, question_answer, write_answer};
ghost use Rattle.core_answers.specs.Performed.{Noted, Performed};
ghost use Rattle.core_services.specs.Pool.{free_of_pool};
ghost use Rattle.core_services.specs.Room.{Room};
ghost use Rattle.core_lent.specs.Seen.{seen};

use core_answers::question::Question;
use core_answers::reply::WriteReply;
use core_answers::reported::Reported;
use core_answers::verdict::Verdict;
use core_places::lent_core::LentCore;
use core_places::lent_mailboxes::LentMailboxes;
use core_places::lent_to_read::LentToRead;

// Whether one of the first `count` controllers, of which these are the modes, is STARTED.
pub fn some_started(modes: &[u8], count: usize) -> bool
    ensures { result ≡ rules.some_started (seen false count 0 (controllers_beside modes.now [] []) [] [] []) }
{
    let core = LentToRead {
        initialised: false,
        controller_count: count,
        object_count: 0,
        modes,
        requests: &[],
        marks: &[],
        recoverings: &[],
        tx_errors: &[],
        rx_errors: &[],
        controllers: &[],
        receivings: &[],
        pools: &[],
        pendings: &[],
        dones: &[],
        fulls: &[],
    };
    core_services::deinit::some_started(&core)
}

// Whether object h names a pool, by the kinds and the pools alone.
pub fn names_pool(receivings: &[bool], pools: &[u8], count: usize, h: usize) -> bool
    ensures { result ≡ state.names_pool (seen false 0 count [] [] (owners_beside [] receivings.now pools.now) []) h }
{
    let core = LentToRead {
        initialised: false,
        controller_count: 0,
        object_count: count,
        modes: &[],
        requests: &[],
        marks: &[],
        recoverings: &[],
        tx_errors: &[],
        rx_errors: &[],
        controllers: &[],
        receivings,
        pools,
        pendings: &[],
        dones: &[],
        fulls: &[],
    };
    core_services::pool::names_pool(&core, h)
}

// The lowest free member of the pool with this number, by the kinds, the pools and where a frame waits; h where none is free.
pub fn free_member(
    receivings: &[bool],
    pools: &[u8],
    pendings: &[bool],
    count: usize,
    pool: u8,
    h: usize,
) -> usize
    ensures { result ≡ lowest_or count (free_of_pool (seen false 0 count [] [] (owners_beside [] receivings.now pools.now) (mailboxes_beside pendings.now [] [])) pool) h }
{
    let core = LentToRead {
        initialised: false,
        controller_count: 0,
        object_count: count,
        modes: &[],
        requests: &[],
        marks: &[],
        recoverings: &[],
        tx_errors: &[],
        rx_errors: &[],
        controllers: &[],
        receivings,
        pools,
        pendings,
        dones: &[],
        fulls: &[],
    };
    core_services::pool::member_of(&core, pool, h)
}

// SetControllerMode, for a caller who has the controllers alone.
pub fn set_controller_mode(
    gate: Verdict,
    initialised: bool,
    count: usize,
    modes: &mut [u8],
    requests: &mut [u8],
    marks: &mut [bool],
    sheet: &mut [u32],
    controller: u32,
    asked: u32,
) -> Reported<()>
    requires alike { (length requests.old ≡ length modes.old) × (length marks.old ≡ length modes.old) }
    requires room { (verdict_reason gate ≡ 0 → count ≤ length modes.old) × Room (verdict_reason gate) sheet.old }
    ensures reason { verdict_reason result.reply
        ≡ (rules.set_controller_mode (verdict_reason gate) (seen initialised count 0 (controllers_in modes.old requests.old marks.old) (errors_in [] [] []) (owners_beside [] [] []) (mailboxes_in [] [] [])) [] controller asked).reason }
    ensures told { Noted (rules.set_controller_mode (verdict_reason gate) (seen initialised count 0 (controllers_in modes.old requests.old marks.old) (errors_in [] [] []) (owners_beside [] [] []) (mailboxes_in [] [] [])) [] controller asked).notifications sheet.old sheet.new result.notifications }
    ensures controllers { controllers_in modes.new requests.new marks.new
        ≡ (rules.set_controller_mode (verdict_reason gate) (seen initialised count 0 (controllers_in modes.old requests.old marks.old) (errors_in [] [] []) (owners_beside [] [] []) (mailboxes_in [] [] [])) [] controller asked).state.controllers }
{
    let mut core = LentCore {
        initialised,
        controller_count: count,
        object_count: 0,
        modes,
        requests,
        marks,
        recoverings: &mut [],
        tx_errors: &mut [],
        rx_errors: &mut [],
        controllers: &[],
        receivings: &[],
        pools: &[],
        pendings: &mut [],
        dones: &mut [],
        fulls: &mut [],
    };
    core_services::set_controller_mode::set_controller_mode(
        gate, &mut core, sheet, controller, asked,
    )
}

// Write, but for the frame, for a caller who reads the controllers and the owners.
pub fn take_write(
    gate: Verdict,
    frame: Verdict,
    initialised: bool,
    object_count: usize,
    modes: &[u8],
    requests: &[u8],
    marks: &[bool],
    controllers: &[u8],
    receivings: &[bool],
    pools: &[u8],
    pendings: &mut [bool],
    dones: &mut [bool],
    fulls: &mut [bool],
    object: u32,
) -> WriteReply
    requires alike { (length dones.old ≡ length pendings.old) × (length fulls.old ≡ length pendings.old) }
    requires count_in_bounds { (length pendings.old ≤ 2 ^ 32) × (verdict_reason gate ≡ 0 → object_count ≤ length pendings.old) }
    ensures reason { verdict_reason result
        ≡ (verdict_reason gate then rules.write_reason (seen initialised 0 object_count (controllers_beside modes.now requests.now marks.now) (errors_beside [] [] []) (owners_beside controllers.now receivings.now pools.now) (mailboxes_in pendings.old dones.old fulls.old)) object (verdict_reason frame)) }
    ensures answer { write_answer result ≡ cond (eqb (verdict_reason result) 0) (taken_by (state.free_member (seen initialised 0 object_count (controllers_beside modes.now requests.now marks.now) (errors_beside [] [] []) (owners_beside controllers.now receivings.now pools.now) (mailboxes_in pendings.old dones.old fulls.old)) object)) no_answer }
    ensures mailboxes { mailboxes_in pendings.new dones.new fulls.new
        ≡ (cond (eqb (verdict_reason result) 0) (rules.taken (seen initialised 0 object_count (controllers_beside modes.now requests.now marks.now) (errors_beside [] [] []) (owners_beside controllers.now receivings.now pools.now) (mailboxes_in pendings.old dones.old fulls.old)) (state.free_member (seen initialised 0 object_count (controllers_beside modes.now requests.now marks.now) (errors_beside [] [] []) (owners_beside controllers.now receivings.now pools.now) (mailboxes_in pendings.old dones.old fulls.old)) object)) (seen initialised 0 object_count (controllers_beside modes.now requests.now marks.now) (errors_beside [] [] []) (owners_beside controllers.now receivings.now pools.now) (mailboxes_in pendings.old dones.old fulls.old))).mailboxes }
{
    let mut core = LentMailboxes {
        initialised,
        controller_count: 0,
        object_count,
        modes,
        requests,
        marks,
        recoverings: &[],
        tx_errors: &[],
        rx_errors: &[],
        controllers,
        receivings,
        pools,
        pendings,
        dones,
        fulls,
    };
    core_services::write::take_write(gate, frame, &mut core, object)
}

// What is asked of a controller, for a caller who reads the controllers and their errors.
pub fn ask_controller(
    gate: Verdict,
    question: Question,
    initialised: bool,
    count: usize,
    modes: &[u8],
    requests: &[u8],
    marks: &[bool],
    recoverings: &[bool],
    tx_errors: &[u32],
    rx_errors: &[u32],
    sheet: &mut [u32],
    controller: u32,
) -> Reported<u8>
    requires { Room (verdict_reason gate) sheet.old }
    ensures { (ram : List ℕ)
        → Performed (rules.ask_controller (verdict_reason gate) (question_of question)
        (seen initialised count 0 (controllers_beside modes.now requests.now marks.now) (errors_beside recoverings.now tx_errors.now rx_errors.now) (owners_beside [] [] []) (mailboxes_beside [] [] [])) ram controller)
        (verdict_reason result.reply) (question_answer question result.reply)
        (seen initialised count 0 (controllers_beside modes.now requests.now marks.now) (errors_beside recoverings.now tx_errors.now rx_errors.now) (owners_beside [] [] []) (mailboxes_beside [] [] []))
        result.notifications ram sheet.old sheet.new }
{
    let core = LentToRead {
        initialised,
        controller_count: count,
        object_count: 0,
        modes,
        requests,
        marks,
        recoverings,
        tx_errors,
        rx_errors,
        controllers: &[],
        receivings: &[],
        pools: &[],
        pendings: &[],
        dones: &[],
        fulls: &[],
    };
    core_services::ask_controller::ask_controller(gate, question, &core, sheet, controller)
}
