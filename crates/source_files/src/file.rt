use luau_tree::Bytes;

/// A file of a folder.
#[derive(Debug, Drop)]
pub struct SourceFile {
    /// Its path in the folder, its parts with `/` between them.
    pub path: Bytes,
    /// Its bytes.
    pub text: Bytes,
}
