// The driver state: one value with a place for each controller and for each hardware object, when it is valid, and what calls hand back.
#![tactic(auto)]

pub mod agreement;
pub mod called;
pub mod settings;
pub mod settings_list;
pub mod settings_places;
pub mod settings_slices;
pub mod state;
pub mod validity;
