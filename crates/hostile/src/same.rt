// Whether two states are the same, place by place.
use can::{CONTROLLERS, OBJECTS, State};

fn counts(x: &State, y: &State) -> bool {
    (x.core.initialised == y.core.initialised)
        & (x.core.controller_count == y.core.controller_count)
        & (x.core.object_count == y.core.object_count)
}

fn controllers(x: &State, y: &State) -> bool {
    for c in 0..CONTROLLERS {
        if x.core.controllers.at(c) != y.core.controllers.at(c) {
            return false;
        }
        if x.core.errors.at(c) != y.core.errors.at(c) {
            return false;
        }
    }
    true
}

fn objects(x: &State, y: &State) -> bool {
    for h in 0..OBJECTS {
        if x.core.owners.at(h) != y.core.owners.at(h) {
            return false;
        }
        if x.core.mailboxes.at(h) != y.core.mailboxes.at(h) {
            return false;
        }
        if x.settings.at(h) != y.settings.at(h) {
            return false;
        }
    }
    true
}

pub fn same(x: &State, y: &State) -> bool {
    counts(x, y) && controllers(x, y) && objects(x, y)
}
