/// Which transfers a trace may have: its version says so.
#[derive(Clone, Copy, Debug, PartialEq, Eq)]
pub enum Profile {
    /// Those of control, bulk and interrupt endpoints, without Event Data TRBs.
    Basic,
    /// Those of isochronous endpoints and Event Data TRBs too (xHCI 3.2.11, 4.11.2.3, 4.11.5.2).
    Full,
}
