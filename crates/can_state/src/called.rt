// What a call hands back.
use crate::state::State;
use core_answers::rejection::Rejection;
use std::marker::Model;

// The next state, what the call answers, and how many notifications it wrote on the sheet.
#[derive(Clone, Copy)]
pub struct Called<T> {
    pub state: State,
    pub reply: Result<T, Rejection>,
    pub notifications: usize,
}

// The model forgets nothing, so that one value can go into two calls.
impl<T> Model for Called<T> {
    ghost use Rattle.can_state.specs.Given.{Given};

    ghost Value = { Given T };

    ghost view = { λ a. record { state = a.state; reply = a.reply; notifications = a.notifications } };

    ghost inverse = { λ g. record { state = g.state; reply = g.reply; notifications = g.notifications } };
}
