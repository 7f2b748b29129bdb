//! How a buffer of copied elements is released.

/// How a buffer of copied elements is released (JNI Specification, chapter 4, "Release<PrimitiveType>ArrayElements Routines").
#[derive(Clone, Copy)]
pub enum ReleaseMode {
    /// `0`
    CopyBackAndFree,
    /// `JNI_COMMIT`
    CopyBack,
    /// `JNI_ABORT`
    FreeUncopied,
}
