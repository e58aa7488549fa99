// The numbers of the services, which development errors name.
pub const INIT: u32 = 0x00;

pub const SET_CONTROLLER_MODE: u32 = 0x03;

pub const WRITE: u32 = 0x06;

pub const DEINIT: u32 = 0x10;

pub const GET_CONTROLLER_ERROR_STATE: u32 = 0x11;

pub const GET_CONTROLLER_MODE: u32 = 0x12;

pub const GET_CONTROLLER_RX_ERROR_COUNTER: u32 = 0x30;

pub const GET_CONTROLLER_TX_ERROR_COUNTER: u32 = 0x31;
