// The places of the objects' owners.
ghost use Rattle.std.specs.Prelude.{◌≡◌, ◌<◌, length, replicate, set};
ghost use Rattle.rules.specs.Core as rules;
ghost use Rattle.core_places.specs.View.{view_owner};

use crate::owner::{Owner, unused_owner};
use std::marker::Model;

// The owners of N objects. Clauses see the list of them.
#[derive(Clone, Copy)]
pub struct Owners<const N: usize> {
    controllers: [u8; N],
    receivings: [bool; N],
    pools: [u8; N],
}

impl<const N: usize> Model for Owners<N> {
    ghost use Rattle.std.specs.Prelude.{List, map};
    ghost use Rattle.rules.specs.Core.{Owner};
    ghost use Rattle.core_places.specs.Arrays.{Alike, owners_in};
    ghost use Rattle.core_places.specs.Columns.{controller_back, kind_back, pool_back};

    ghost Value = { List Owner };

    ghost view = { λ a. owners_in a.controllers a.receivings a.pools };

    ghost invariant = { λ a. Alike a.controllers a.receivings a.pools };

    ghost inverse = { λ os. record { controllers = map (λ o. o.controller) os; receivings = map (λ o. o.receiving) os; pools = map (λ o. o.pool) os } };

    ghost inverse_ok = { λ a alike i. record {
      controllers = controller_back a.controllers a.receivings a.pools alike i;
      receivings = kind_back a.controllers a.receivings a.pools alike i;
      pools = pool_back a.controllers a.receivings a.pools alike i;
    } };
}

impl<const N: usize> Owners<N> {
    // All at rest.
    #[tactic(auto, using(crate::specs::Zip::zip_3_replicate))]
    pub fn unused() -> Self
        ensures { result ≡ replicate N rules.unused_owner }
    {
        Owners {
            controllers: [0; N],
            receivings: [false; N],
            pools: [0; N],
        }
    }

    // How many there are.
    #[tactic(auto, using(crate::specs::Zip::zip_3_length))]
    pub fn len(&self) -> usize
        ensures number { result ≡ N }
        ensures places { length self.now ≡ N }
    {
        let controllers = &self.controllers;
        controllers.len()
    }

    // The owner of object h, which there is.
    #[tactic(auto, using(crate::specs::Columns::owner_seen))]
    pub fn read(&self, h: usize) -> Owner
        requires { h < N }
        ensures { view_owner result ≡ rules.owner_at self.now h }
    {
        Owner {
            controller: self.controllers[h],
            receiving: self.receivings[h],
            pool: self.pools[h],
        }
    }

    // The owner of object h; past the last one, that of an unused object.
    pub fn at(&self, h: usize) -> Owner
        ensures { view_owner result ≡ rules.owner_at self.now h }
    {
        if h < self.len() {
            self.read(h)
        } else {
            unused_owner()
        }
    }

    // The owner of object h becomes o.
    #[tactic(auto, using(crate::specs::Zip::zip_3_set))]
    pub fn set(&mut self, h: usize, o: Owner)
        requires { h < N }
        ensures { self.new ≡ set self.old h (view_owner o) }
    {
        self.controllers[h] = o.controller;
        self.receivings[h] = o.receiving;
        self.pools[h] = o.pool;
    }
}
