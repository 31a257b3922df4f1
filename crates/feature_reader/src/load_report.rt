//! What a load of features from a feed did.

/// How a load ended.
#[derive(Clone, Copy, Debug, PartialEq, Eq)]
pub enum LoadEnd {
    /// The feed had no more items.
    End,
    /// The feed failed.
    Fault,
    /// 1,048,576 items were pulled.
    Limit,
}

/// What a load did.
#[derive(Clone, Copy, Debug, PartialEq, Eq)]
pub struct LoadReport {
    /// How many items the feed gave, up to 1,048,576.
    pub read: u32,
    /// How many of them stand for no feature.
    pub bad: u32,
    /// How many features were refused for a limit.
    pub full: u32,
    /// How it ended.
    pub end: LoadEnd,
}
