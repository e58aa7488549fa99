// What counted errors make of a controller, and when it enters passive.
ghost use Rattle.std.specs.Prelude.{◌≡◌, not, [], ◌∷◌, ◌≤◌, length};
ghost use Rattle.rules.specs.Reason.{◌if◌, first_reason, ERROR_COUNT_TOO_LARGE};
ghost use Rattle.rules.specs.Errors.{within_limit};
ghost use Rattle.rules.specs.Events as rules;
ghost use Rattle.core_layout.specs.Sheet.{words_each};
ghost use Rattle.core_places.specs.View.{view_controller, view_errors};
ghost use Rattle.core_answers.specs.Answer.{verdict_reason};
ghost use Rattle.core_answers.specs.Performed.{Noted};

use crate::bus_off_detected::marked_bus_off;
use core_answers::rejection::Rejection;
use core_answers::verdict::Verdict;
use core_layout::notification::{Notification, put};
use core_places::controller::Controller;
use core_places::errors::{
    ACTIVE, Errors, PASSIVE, above_bus_off, capped, error_state, within_limit,
};

// Reason 43: both counts are numbers that can be kept.
#[tactic(auto, unfolding(rules::specs::Reason::first_reason))]
pub fn judge_counts(tx: u32, rx: u32) -> Verdict
    ensures { verdict_reason result ≡ first_reason (ERROR_COUNT_TOO_LARGE if not (within_limit tx rx) ∷ []) }
{
    if within_limit(tx, rx) {
        Ok(())
    } else {
        Err(Rejection::ErrorCountTooLarge)
    }
}

// The controller with this transmit count: marked off the bus where that is above 255.
pub fn counted_controller(tx: u32, k: Controller) -> Controller
    ensures { view_controller result ≡ rules.counted_controller tx (view_controller k) }
{
    if above_bus_off(tx) {
        marked_bus_off(k)
    } else {
        k
    }
}

// Its errors with both counts.
pub fn counted_errors(tx: u32, rx: u32, e: Errors) -> Errors
    ensures { view_errors result ≡ rules.counted_errors tx rx (view_errors e) }
{
    Errors {
        recovering: e.recovering,
        tx_errors: tx,
        rx_errors: rx,
    }
}

// Whether these counts take an active controller to passive.
fn enters_passive(tx: u32, rx: u32, k: Controller, e: Errors) -> bool
    ensures { result ≡ rules.enters_passive tx rx (view_controller k) (view_errors e) }
{
    let before = error_state(k, e);
    let after = error_state(counted_controller(tx, k), counted_errors(tx, rx, e));
    (before == ACTIVE) & (after == PASSIVE)
}

// Tells that the controller enters passive, if it does, and answers how many notifications were written.
pub fn report_passive(
    sheet: &mut [u32],
    controller: u32,
    tx: u32,
    rx: u32,
    k: Controller,
    e: Errors,
) -> usize
    requires { words_each ≤ length sheet.old }
    ensures { Noted (rules.passive_report controller tx rx (view_controller k) (view_errors e)) sheet.old sheet.new result }
{
    if enters_passive(tx, rx, k, e) {
        put(
            sheet,
            0,
            Notification::ErrorPassive {
                controller: controller,
                transmit: capped(tx) as u32,
                receive: capped(rx) as u32,
            },
        );
        1
    } else {
        0
    }
}
