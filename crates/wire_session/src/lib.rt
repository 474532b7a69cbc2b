// Readers of the types that name no instrument: the clock, the session and spins. Each gets just the bytes of its table, whose
// number has been tested.
#![tactic(auto)]

mod clock;
mod spin;

pub use clock::{read_end_of_session, read_time, read_time_reference, read_unit_clear};
pub use spin::{read_spin_finished, read_spin_image_available, read_spin_response};
