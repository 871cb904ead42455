// Why triangles can't be written.
/// Why triangles aren't written.
#[derive(Debug, Drop, PartialEq, Eq, thiserror::Error)]
pub enum StlWriteFault {
    #[error("more than 4294967295 triangles")]
    TooManyTriangles,
    #[error("out of memory")]
    OutOfMemory,
}
