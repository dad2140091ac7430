/// What a file says of itself beside its pages.
#[derive(Clone, Copy, Debug, PartialEq, Eq)]
pub struct Meta {
    /// The number of attributes.
    pub k: u8,
    /// How many pages the file may have.
    pub pages: u32,
    /// Bytes of a log area.
    pub log: u32,
    /// What a page of level 0 may weigh.
    pub dcap: u16,
    /// What a page of a higher level may weigh.
    pub icap: u16,
    /// The page at the top.
    pub root: u32,
    /// The number of levels.
    pub height: u8,
    /// The greatest page number that was ever in use.
    pub high: u32,
    /// How many pages are in use.
    pub live: u32,
    /// The first page of the free chain. 0 for none.
    pub free: u32,
}
