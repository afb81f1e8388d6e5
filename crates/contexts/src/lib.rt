//! Contexts in guest memory, whole and word by word, the endpoints that the flags of an input context name, and the numbers of entries:
//! xHCI 6.1, 6.2, 6.2.3, 6.2.5.
#![tactic(auto)]

mod bits;
mod endpoint;
mod flags;
mod input;
mod size;
mod words;

pub use endpoint::EndpointContext;
pub use flags::next_flag;
pub use input::InputContext;
pub use size::ContextSize;
pub use words::{add_flags, dequeue_words, drop_flags, endpoint_type, long_at, type_and_streams};
