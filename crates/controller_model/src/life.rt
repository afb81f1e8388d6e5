use traces::Header;

/// The rings that were declared, and those of them that live: one that went is declared still (xHCI 4.9).
#[derive(Drop)]
pub struct Rings {
    pub(crate) declared: Header,
    pub(crate) live: Header,
}
