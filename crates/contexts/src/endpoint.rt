/// The fields of an endpoint context that this project speaks of (xHCI 6.2.3).
#[derive(Clone, Copy, Debug, PartialEq, Eq)]
pub struct EndpointContext {
    /// TR Dequeue Pointer: an address, of which bits 3:0 are 0.
    pub pointer: u64,
    /// Dequeue Cycle State (DCS).
    pub dcs: bool,
    /// EP Type, 0 to 7.
    pub ep_type: u8,
    /// Max Primary Streams (MaxPStreams), 0 to 31.
    pub streams: u8,
}
