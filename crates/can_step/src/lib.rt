// One call of a list, made on a lent state through the core. A valid state is asked for and a valid one is left, so that no call has to
// test it; only Init and DeInit, which go through the driver's own calls, do.
//
// An event says which call: its kind; its object or controller; its identifier, the mode asked for or a transmit count; its handle or a receive
// count, of 16 bits; and its bytes. What a kind does not need may be any number.
//
//     kind                             fields
//     0  Init                          bytes: the configuration
//     1  DeInit
//     2  SetControllerMode             controller, mode
//     3  GetControllerMode             controller
//     4  Write                         object, identifier, handle, bytes
//     5  write poll
//     6  read poll
//     7  mode poll
//     8  bus-off poll
//     9  TxComplete                    object
//     10 BusOffDetected                controller
//     12 GetControllerErrorState       controller
//     13 GetControllerRxErrorCounter   controller
//     14 GetControllerTxErrorCounter   controller
//     15 error counts                  controller, transmit count, receive count
//     11, any other: FrameArrived      controller, identifier, bytes
#![tactic(auto)]

mod events;
mod frames;
mod polls;
mod services;
pub mod step;
mod whole;
