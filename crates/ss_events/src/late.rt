/// What becomes of an event that starts before the bound, which is the time of the last `cti` before it.
#[derive(Clone, Copy, Debug, PartialEq, Eq)]
pub enum Late {
    /// The file is refused.
    Refuse,
    /// The row gives no element.
    Drop,
}
