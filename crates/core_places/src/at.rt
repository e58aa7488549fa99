// What stands in an array at any number: past its end, what stands there at rest. So a place is read off one array for each field.
ghost use Rattle.std.specs.Prelude.{◌≡◌, false, get_or};
ghost use Rattle.core_places.specs.View.{view_controller, view_errors, view_owner, view_mailbox};

use crate::controller::Controller;
use crate::errors::Errors;
use crate::mailbox::Mailbox;
use crate::owner::Owner;

// The number at position i of an array; 0 past its end.
pub fn number_at(numbers: &[u8], i: usize) -> u8
    ensures { result ≡ get_or numbers.now i 0 }
{
    if i < numbers.len() { numbers[i] } else { 0 }
}

// The flag at position i of an array; clear past its end.
pub fn flag_at(flags: &[bool], i: usize) -> bool
    ensures { result ≡ get_or flags.now i false }
{
    if i < flags.len() { flags[i] } else { false }
}

// The count at position i of an array; 0 past its end.
pub fn count_at(counts: &[u32], i: usize) -> u32
    ensures { result ≡ get_or counts.now i 0 }
{
    if i < counts.len() { counts[i] } else { 0 }
}

// Controller c.
pub fn controller_at(modes: &[u8], requests: &[u8], marks: &[bool], c: usize) -> Controller
    ensures { view_controller result
        ≡ record { mode = get_or modes.now c 0; requested_mode = get_or requests.now c 0; bus_off = get_or marks.now c false } }
{
    Controller {
        mode: number_at(modes, c),
        requested_mode: number_at(requests, c),
        bus_off: flag_at(marks, c),
    }
}

// The errors of controller c.
pub fn errors_at(recoverings: &[bool], tx_errors: &[u32], rx_errors: &[u32], c: usize) -> Errors
    ensures { view_errors result
        ≡ record { recovering = get_or recoverings.now c false; tx_errors = get_or tx_errors.now c 0; rx_errors = get_or rx_errors.now c 0 } }
{
    Errors {
        recovering: flag_at(recoverings, c),
        tx_errors: count_at(tx_errors, c),
        rx_errors: count_at(rx_errors, c),
    }
}

// The owner of object h.
pub fn owner_at(controllers: &[u8], receivings: &[bool], pools: &[u8], h: usize) -> Owner
    ensures { view_owner result
        ≡ record { controller = get_or controllers.now h 0; receiving = get_or receivings.now h false; pool = get_or pools.now h 0 } }
{
    Owner {
        controller: number_at(controllers, h),
        receiving: flag_at(receivings, h),
        pool: number_at(pools, h),
    }
}

// The mailbox of object h.
pub fn mailbox_at(pendings: &[bool], dones: &[bool], fulls: &[bool], h: usize) -> Mailbox
    ensures { view_mailbox result
        ≡ record { tx_pending = get_or pendings.now h false; tx_done = get_or dones.now h false; rx_full = get_or fulls.now h false } }
{
    Mailbox {
        tx_pending: flag_at(pendings, h),
        tx_done: flag_at(dones, h),
        rx_full: flag_at(fulls, h),
    }
}
