// What a call gives back beside the disk that it took.

/// The end of a call that takes a disk and gives it back, whatever its outcome.
#[derive(Drop)]
pub struct Returned<D, T, E> {
    /// The disk, as the call left it.
    pub disk: D,
    /// The result, or why there is none.
    pub outcome: Result<T, E>,
}

/// Why a disk was not opened as what would have owned it, and the disk.
#[derive(Drop)]
pub struct NotOpened<D, E> {
    /// The fault.
    pub fault: E,
    /// The disk, as the call left it.
    pub disk: D,
}
