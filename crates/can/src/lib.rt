// The CAN driver: everything that a user calls.
//
// The driver keeps nothing of its own. Each call takes the state by value and hands the next one back, and borrows what the paper
// lends it: the message RAM (`ram`, RAM_SIZE bytes) and the notification sheet (`sheet`, at least SHEET_SIZE words). A caller checks
// nothing first: any numbers, lengths and state are taken, and a call that is refused changes neither state nor RAM and says why.
//
//     let mut ram = [0u8; can::RAM_SIZE];
//     let mut sheet = [0u32; can::SHEET_SIZE];
//     let state = can::initial_state();
//     let called = can::init(state, &mut ram, &mut sheet, &bytes);
//     let called = can::set_controller_mode(called.state, &mut sheet, 0, 1);
//     let called = can::main_function_mode(called.state, &ram, &mut sheet);
//
// After a call, `notifications` says how many notifications stand on the sheet from word 0 on, four words each:
// the kind, then object or controller and what goes with it (docs/ARCHITECTURE.md has the table).
#![tactic(auto)]

// The sizes of this chip.
pub use can_chip::{CONTROLLERS, OBJECT_SIZE, OBJECTS, RAM_SIZE, SHEET_SIZE};

// The driver state, and the state before initialisation.
pub use can_state::state::{State, initial_state};

// What the calls answer: a verdict or a reply, which are Results, why a call is refused, and the numbers of both.
pub use can_state::called::Called;
pub use can_writer::reply::ConfigReply;
pub use core_answers::question::Question;
pub use core_answers::rejection::{Rejection, reason};
pub use core_answers::reply::{Arrival, ArrivalReply, NextReply, QuestionReply, WriteReply};
pub use core_answers::verdict::{Verdict, return_code, verdict, verdict_reason};

// Init: takes a configuration from bytes. Controllers are STOPPED afterwards, and the RAM is zero.
pub use can_services::init::init;

// DeInit: back to the state before Init, unless a controller is STARTED.
pub use can_services::deinit::deinit;

// SetControllerMode: asks for STARTED (1), STOPPED (2) or SLEEP (3); the next mode poll takes the request.
pub use can_services::set_controller_mode::set_controller_mode;

// GetControllerMode: the mode that a controller is in now.
pub use can_services::questions::get_controller_mode;

// GetControllerErrorState: 0 error active, 1 error passive, 2 bus-off, which lasts until the controller is STARTED again.
pub use can_services::questions::get_controller_error_state;

// GetControllerRxErrorCounter, GetControllerTxErrorCounter: the error counts, at most 255.
pub use can_services::questions::{
    get_controller_rx_error_counter, get_controller_tx_error_counter,
};

// Write: lays a frame down in a sending object, whole, and keeps the object until the frame is confirmed or cancelled.
pub use can_transmission::write::write;

// Write poll: confirms every frame that was sent, and frees its object.
pub use can_polls::objects::main_function_write;

// Read poll: indicates every frame that was received, and empties its object.
pub use can_polls::objects::main_function_read;

// Mode poll: carries out the waiting requests; a controller that leaves STARTED has its frames cancelled first.
pub use can_polls::controllers::main_function_mode;

// Bus-off poll: cancels the frames of every controller that went off the bus, and stops it.
pub use can_polls::controllers::main_function_bus_off;

// Sent: the simulated controller has sent the frame of an object.
pub use can_events::tx_complete::tx_complete;

// Bus-off: the simulated controller went off the bus.
pub use can_events::bus_off_detected::bus_off_detected;

// Error counts: the simulated controller has counted errors. A transmit count above 255 takes it off the bus; entering passive is told.
pub use can_events::errors_counted::errors_counted;

// Arrived: a frame came in. It is stored, unwanted or lost.
pub use can_arrivals::frame_arrived::frame_arrived;

// Who sends next: the object whose frame goes out first on a controller. Nothing changes.
pub use can_arbitration::next::next_to_send;

// The configuration that a state has, and its bytes in a version.
pub use can_writer::state::configuration_of;
pub use can_writer::write::write_configuration;

// Data of an object: the part of the RAM that holds its data.
pub use can_layout::read::data_of;
