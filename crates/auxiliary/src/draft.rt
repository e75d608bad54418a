// A declaration as it is put together, range by range.
use super::ranges::Ranges;

#[derive(Drop)]
pub struct Draft {
    pub(crate) ranges: Ranges,
}
