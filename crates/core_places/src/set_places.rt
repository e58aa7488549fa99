// Places of a core that a call may set: a trait for each kind, so that what a call does not set need only be lent to be read.
ghost use Rattle.std.specs.Prelude.{◌≡◌, ◌<◌, set};
ghost use Rattle.rules.specs.Core as rules;
ghost use Rattle.core_places.specs.View.{view_controller, view_errors, view_mailbox};
ghost use Rattle.core_places.specs.Names.{SameNames};

use crate::controller::Controller;
use crate::errors::Errors;
use crate::mailbox::{Mailbox, empty_mailbox};
use crate::places::CorePlaces;

pub trait SetControllers: CorePlaces {
    fn set_controller(&mut self, c: usize, k: Controller)
        requires { c < Self.controllers self.old }
        ensures core { Self.core self.new ≡ rules.with_controllers (Self.core self.old) (set (Self.core self.old).controllers c (view_controller k)) }
        ensures places { (Self.controllers self.new ≡ Self.controllers self.old) × (Self.objects self.new ≡ Self.objects self.old) × (Self.error_places self.new ≡ Self.error_places self.old) }
        ensures memory { SameNames (Self.memory self.new) (Self.memory self.old) };
}

pub trait SetErrors: CorePlaces {
    fn set_errors(&mut self, c: usize, e: Errors)
        requires { c < Self.error_places self.old }
        ensures core { Self.core self.new ≡ rules.with_errors (Self.core self.old) (set (Self.core self.old).errors c (view_errors e)) }
        ensures places { (Self.controllers self.new ≡ Self.controllers self.old) × (Self.objects self.new ≡ Self.objects self.old) × (Self.error_places self.new ≡ Self.error_places self.old) }
        ensures memory { SameNames (Self.memory self.new) (Self.memory self.old) };
}

pub trait SetMailboxes: CorePlaces {
    fn set_mailbox(&mut self, h: usize, m: Mailbox)
        requires { h < Self.objects self.old }
        ensures core { Self.core self.new ≡ rules.with_mailboxes (Self.core self.old) (set (Self.core self.old).mailboxes h (view_mailbox m)) }
        ensures places { (Self.controllers self.new ≡ Self.controllers self.old) × (Self.objects self.new ≡ Self.objects self.old) × (Self.error_places self.new ≡ Self.error_places self.old) }
        ensures memory { SameNames (Self.memory self.new) (Self.memory self.old) };

    // An object is free again.
    fn free_mailbox(&mut self, h: usize)
        requires { h < Self.objects self.old }
        ensures core { Self.core self.new ≡ rules.with_mailboxes (Self.core self.old) (set (Self.core self.old).mailboxes h rules.empty_mailbox) }
        ensures places { (Self.controllers self.new ≡ Self.controllers self.old) × (Self.objects self.new ≡ Self.objects self.old) × (Self.error_places self.new ≡ Self.error_places self.old) }
        ensures memory { SameNames (Self.memory self.new) (Self.memory self.old) }
    {
        self.set_mailbox(h, empty_mailbox());
    }
}
