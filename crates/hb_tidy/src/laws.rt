//! What comes of what happens while a file is tidied. Each law is the contract of a function that does nothing: a caller learns it by
//! the call.
ghost use Rattle.hb_tidy.specs.TidyFiles.{FilesGrowByOperations, TidyFilesAreLeftAlone};

/// A file's height rises by the growths that were done, and its pages in use by growths and splits, less merges. So is it over any disk.
pub fn files_grow_by_operations()
    ensures { FilesGrowByOperations }
{}

/// In a file that is tidy, over a disk that tells, nothing is worked off: no worker takes a step, no operation is done, no job comes to
/// wait, and the file stays. At most two flushes make room for pages that are looked at. So a tidying that begins with more than two
/// steps left isn't `Spent` there.
pub fn tidy_files_are_left_alone()
    ensures { TidyFilesAreLeftAlone }
{}
