// The two questions that C firmware asks, on plain numbers. include/can_bench.h declares them for C.
#![tactic(auto)]

ghost use Rattle.std.specs.Prelude.{◌≡◌};
ghost use Rattle.rules.specs.Can as can;
ghost use Rattle.c_abi.specs.Number.{one_or_zero};

// The wire length at which an FD write of this length goes out; 255 above 64, since no frame is longer.
#[unsafe(no_mangle)]
pub extern "C" fn can_fd_wire_length(length: u32) -> u32
    ensures { result ≡ can.wire_length length }
{
    can_frame::length::on_wire(length as usize).length as u32
}

// 1 if a receiving object with this code, mask and payload takes a frame with this identifier, else 0.
#[unsafe(no_mangle)]
pub extern "C" fn can_filter_accepts(identifier: u32, code: u32, mask: u32, payload: u32) -> u32
    ensures { result ≡ one_or_zero (can.filter_accepts identifier code mask payload) }
{
    can_frame::filter::filter_accepts(identifier, code, mask, payload) as u32
}
