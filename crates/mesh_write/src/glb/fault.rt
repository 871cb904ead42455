// Why triangles can't be written.
/// Why triangles aren't written.
#[derive(Debug, Drop, PartialEq, Eq, thiserror::Error)]
pub enum GlbWriteFault {
    /// The file would have 2^32 bytes or more.
    #[error("more than 4294967295 bytes")]
    TooManyTriangles,
    #[error("out of memory")]
    OutOfMemory,
}
