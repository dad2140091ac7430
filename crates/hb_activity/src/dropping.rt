/// Why a worker's job was dropped.
#[derive(Clone, Copy, Debug, PartialEq, Eq)]
pub enum DropWhy {
    /// Memory was refused.
    NoMemory,
    /// A page could not be read.
    ReadFault,
}
