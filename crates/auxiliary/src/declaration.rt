// A declaration in force; no range can be added.
use super::ranges::Ranges;

#[derive(Drop)]
pub struct Declaration {
    pub(crate) ranges: Ranges,
}
