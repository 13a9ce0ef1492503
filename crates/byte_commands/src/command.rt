//! What a line with hex in it can ask for.
use script::command::HashName;

/// A command. The parts of the line that it holds are hex.
#[derive(Clone, Copy)]
pub enum ByteCommand<'a> {
    /// The digest of a message.
    Digest { hash: HashName, message: &'a [u8] },
}
