// What is read of a configuration.
use can_chip::OBJECTS;
use can_state::settings_places::SettingsPlaces;
use core_places::owners::Owners;
use std::marker::Model;

// How many controllers and objects are in use, and for each object's place what its record says, as the state has them.
#[derive(Clone, Copy)]
pub struct Setup {
    pub controller_count: usize,
    pub object_count: usize,
    // Whose each object is, and what is configured of its frames.
    pub owners: Owners<OBJECTS>,
    pub settings: SettingsPlaces<OBJECTS>,
}

// The model forgets nothing, so that one configuration can go into two calls.
impl Model for Setup {
    ghost use Rattle.rules.specs.Configuration.{Configuration};
    ghost use Rattle.rules.specs.Can.{can_format};

    ghost Value = { Configuration can_format };

    ghost use Rattle.can_config.specs.Seen.{setup_seen};

    ghost view = { setup_seen };

    ghost inverse = { λ c. record {
      controller_count = c.controller_count;
      object_count = c.object_count;
      owners = c.owners;
      settings = c.settings;
    } };
}

// What accepted bytes say: their version, and the configuration.
#[derive(Clone, Copy)]
pub struct Reading {
    pub version: u32,
    pub setup: Setup,
}

impl Model for Reading {
    ghost use Rattle.can_config.specs.Accepted.{Accepted};

    ghost Value = { Accepted };

    ghost view = { λ a. record { version = a.version; setup = a.setup } };

    ghost inverse = { λ r. record { version = r.version; setup = r.setup } };
}
