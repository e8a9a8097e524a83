//! What is wrong at a path.
use name_parts::Bytes;

/// Something wrong: the path where it stands, and the text that is wrong there. The text may be a
/// token, so nothing prints it.
#[derive(Drop)]
pub struct Finding {
    pub path: Bytes,
    pub text: Bytes,
}
