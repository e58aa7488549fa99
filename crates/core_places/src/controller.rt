// One controller: its mode, a waiting request, and the off-bus mark.
ghost use Rattle.std.specs.Prelude.{◌≡◌};
ghost use Rattle.rules.specs.Mode as modes;
ghost use Rattle.rules.specs.Core as state;
ghost use Rattle.core_places.specs.View as view;

// The modes, and what stands where no mode is requested.
pub const UNINIT: u8 = 0;

pub const STARTED: u8 = 1;

pub const STOPPED: u8 = 2;

pub const SLEEP: u8 = 3;

pub const NO_REQUEST: u8 = 0;

#[derive(Clone, Copy, PartialEq, Eq)]
pub struct Controller {
    pub mode: u8,
    pub requested_mode: u8,
    pub bus_off: bool,
}

// A place at rest.
pub fn idle_controller() -> Controller
    ensures { view.view_controller result ≡ state.idle_controller }
{
    Controller {
        mode: UNINIT,
        requested_mode: NO_REQUEST,
        bus_off: false,
    }
}

// Whether a controller in this mode may be asked for that mode, which can be any number.
pub fn permitted(mode: u8, asked: u32) -> bool
    ensures { result ≡ modes.permitted mode asked }
{
    ((mode == STARTED) & (asked == STOPPED as u32))
        | ((mode == STOPPED)
            & ((asked == STARTED as u32) | (asked == STOPPED as u32) | (asked == SLEEP as u32)))
        | ((mode == SLEEP) & ((asked == STOPPED as u32) | (asked == SLEEP as u32)))
}

// A controller in use has a mode from STARTED to SLEEP, waits only for a permitted mode, and is marked only while STARTED.
pub fn controller_valid(k: Controller) -> bool
    ensures { result ≡ state.controller_valid (view.view_controller k) }
{
    let permitted = permitted(k.mode, k.requested_mode as u32);
    (STARTED <= k.mode)
        & (k.mode <= SLEEP)
        & ((k.requested_mode == NO_REQUEST) | permitted)
        & (!k.bus_off | (k.mode == STARTED))
}

// Whether a place is at rest.
pub fn controller_idle(k: Controller) -> bool
    ensures { result ≡ state.controller_idle (view.view_controller k) }
{
    (k.mode == UNINIT) & (k.requested_mode == NO_REQUEST) & !k.bus_off
}
