// The places of the controllers.
ghost use Rattle.std.specs.Prelude.{◌≡◌, ◌<◌, length, replicate, set};
ghost use Rattle.rules.specs.Core as rules;
ghost use Rattle.core_places.specs.View.{view_controller};

use crate::controller::{Controller, NO_REQUEST, UNINIT, idle_controller};
use std::marker::Model;

// N controllers. Clauses see the list of them.
#[derive(Clone, Copy)]
pub struct Controllers<const N: usize> {
    modes: [u8; N],
    requests: [u8; N],
    marks: [bool; N],
}

impl<const N: usize> Model for Controllers<N> {
    ghost use Rattle.std.specs.Prelude.{List, map};
    ghost use Rattle.rules.specs.Core.{Controller};
    ghost use Rattle.core_places.specs.Arrays.{Alike, controllers_in};
    ghost use Rattle.core_places.specs.Columns.{mode_back, request_back, mark_back};

    ghost Value = { List Controller };

    ghost view = { λ a. controllers_in a.modes a.requests a.marks };

    ghost invariant = { λ a. Alike a.modes a.requests a.marks };

    ghost inverse = { λ ks. record { modes = map (λ k. k.mode) ks; requests = map (λ k. k.requested_mode) ks; marks = map (λ k. k.bus_off) ks } };

    ghost inverse_ok = { λ a alike i. record {
      modes = mode_back a.modes a.requests a.marks alike i;
      requests = request_back a.modes a.requests a.marks alike i;
      marks = mark_back a.modes a.requests a.marks alike i;
    } };
}

impl<const N: usize> Controllers<N> {
    // All at rest.
    #[tactic(auto, using(crate::specs::Zip::zip_3_replicate))]
    pub fn idle() -> Self
        ensures { result ≡ replicate N rules.idle_controller }
    {
        Controllers {
            modes: [UNINIT; N],
            requests: [NO_REQUEST; N],
            marks: [false; N],
        }
    }

    // How many there are.
    #[tactic(auto, using(crate::specs::Zip::zip_3_length))]
    pub fn len(&self) -> usize
        ensures number { result ≡ N }
        ensures places { length self.now ≡ N }
    {
        let modes = &self.modes;
        modes.len()
    }

    // Controller c, which there is.
    #[tactic(auto, using(crate::specs::Columns::controller_seen))]
    pub fn read(&self, c: usize) -> Controller
        requires { c < N }
        ensures { view_controller result ≡ rules.controller_at self.now c }
    {
        Controller {
            mode: self.modes[c],
            requested_mode: self.requests[c],
            bus_off: self.marks[c],
        }
    }

    // Controller c; past the last one, one at rest.
    pub fn at(&self, c: usize) -> Controller
        ensures { view_controller result ≡ rules.controller_at self.now c }
    {
        if c < self.len() {
            self.read(c)
        } else {
            idle_controller()
        }
    }

    // Controller c becomes k.
    #[tactic(auto, using(crate::specs::Zip::zip_3_set))]
    pub fn set(&mut self, c: usize, k: Controller)
        requires { c < N }
        ensures { self.new ≡ set self.old c (view_controller k) }
    {
        self.modes[c] = k.mode;
        self.requests[c] = k.requested_mode;
        self.marks[c] = k.bus_off;
    }
}
