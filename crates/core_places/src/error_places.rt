// The places of what the controllers remember of errors.
ghost use Rattle.std.specs.Prelude.{◌≡◌, ◌<◌, length, replicate, set};
ghost use Rattle.rules.specs.Core as rules;
ghost use Rattle.rules.specs.Errors.{no_errors};
ghost use Rattle.core_places.specs.View.{view_errors};

use crate::errors::{Errors, no_errors};
use std::marker::Model;

// The errors of N controllers. Clauses see the list of them.
#[derive(Clone, Copy)]
pub struct ErrorPlaces<const N: usize> {
    recoverings: [bool; N],
    tx_errors: [u32; N],
    rx_errors: [u32; N],
}

impl<const N: usize> Model for ErrorPlaces<N> {
    ghost use Rattle.std.specs.Prelude.{List, map};
    ghost use Rattle.rules.specs.Errors.{Errors};
    ghost use Rattle.core_places.specs.Arrays.{Alike, errors_in};
    ghost use Rattle.core_places.specs.Columns.{recovering_back, tx_back, rx_back};

    ghost Value = { List Errors };

    ghost view = { λ a. errors_in a.recoverings a.tx_errors a.rx_errors };

    ghost invariant = { λ a. Alike a.recoverings a.tx_errors a.rx_errors };

    ghost inverse = { λ es. record { recoverings = map (λ e. e.recovering) es; tx_errors = map (λ e. e.tx_errors) es; rx_errors = map (λ e. e.rx_errors) es } };

    ghost inverse_ok = { λ a alike i. record {
      recoverings = recovering_back a.recoverings a.tx_errors a.rx_errors alike i;
      tx_errors = tx_back a.recoverings a.tx_errors a.rx_errors alike i;
      rx_errors = rx_back a.recoverings a.tx_errors a.rx_errors alike i;
    } };
}

impl<const N: usize> ErrorPlaces<N> {
    // All at rest.
    #[tactic(auto, using(crate::specs::Zip::zip_3_replicate))]
    pub fn none() -> Self
        ensures { result ≡ replicate N no_errors }
    {
        ErrorPlaces {
            recoverings: [false; N],
            tx_errors: [0; N],
            rx_errors: [0; N],
        }
    }

    // How many there are.
    #[tactic(auto, using(crate::specs::Zip::zip_3_length))]
    pub fn len(&self) -> usize
        ensures number { result ≡ N }
        ensures places { length self.now ≡ N }
    {
        let recoverings = &self.recoverings;
        recoverings.len()
    }

    // The errors of controller c, which there is.
    #[tactic(auto, using(crate::specs::Columns::errors_seen))]
    pub fn read(&self, c: usize) -> Errors
        requires { c < N }
        ensures { view_errors result ≡ rules.errors_at self.now c }
    {
        Errors {
            recovering: self.recoverings[c],
            tx_errors: self.tx_errors[c],
            rx_errors: self.rx_errors[c],
        }
    }

    // The errors of controller c; past the last one, none.
    pub fn at(&self, c: usize) -> Errors
        ensures { view_errors result ≡ rules.errors_at self.now c }
    {
        if c < self.len() {
            self.read(c)
        } else {
            no_errors()
        }
    }

    // The errors of controller c become e.
    #[tactic(auto, using(crate::specs::Zip::zip_3_set))]
    pub fn set(&mut self, c: usize, e: Errors)
        requires { c < N }
        ensures { self.new ≡ set self.old c (view_errors e) }
    {
        self.recoverings[c] = e.recovering;
        self.tx_errors[c] = e.tx_errors;
        self.rx_errors[c] = e.rx_errors;
    }
}
