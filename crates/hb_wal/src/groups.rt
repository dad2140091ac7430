/// How many bytes a group that waits has, and its mark.
#[derive(Clone, Copy, Debug, PartialEq, Eq)]
pub struct Group {
    pub len: u32,
    pub mark: u32,
}
