//! A pass over rows between which rings come and go, and descriptors are withdrawn, as they are read: each is checked, and the leases that
//! begin and end with it are told to a log.

mod behind;
mod kept;
mod reading;
mod ring_pass;

pub use behind::Behind;
pub use kept::pass_kept;
pub use reading::{Passed, pass_followed, pass_rows};
pub use ring_pass::RingPass;
