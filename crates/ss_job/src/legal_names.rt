//! Which names vertices and files may have.
ghost use Rattle.std.specs.Prelude.{◌≡◌};
ghost use Rattle.std.specs.List.{list_all};
ghost use Rattle.ss_job.specs.LegalNames.{is_name_byte, is_file_byte, is_vertex_name, is_file_name};

/// The most bytes of a vertex's name.
const MOST_NAME_BYTES: usize = 32;

/// The most bytes of a file's name.
const MOST_FILE_BYTES: usize = 200;

/// Whether a vertex may have this name: 1 to 32 letters, digits, `_` and `-`, a letter first.
pub(crate) fn is_vertex_name(name: &str) -> bool
    ensures { result ≡ is_vertex_name name.now }
{
    let bytes = name.as_bytes();
    match bytes {
        [] => false,
        [first, ..] => {
            bytes.len() <= MOST_NAME_BYTES && first.is_ascii_alphabetic() && has_name_bytes(bytes)
        }
    }
}

/// Whether a sink may write to this file: 1 to 200 printable bytes of ASCII, and not `!`, which
/// stands for standard error.
pub(crate) fn is_file_name(file: &str) -> bool
    ensures { result ≡ is_file_name file.now }
{
    let bytes = file.as_bytes();
    !bytes.is_empty() && bytes.len() <= MOST_FILE_BYTES && has_file_bytes(bytes) && file != "!"
}

fn has_name_bytes(bytes: &[u8]) -> bool
    ensures { result ≡ list_all is_name_byte bytes.now }
{
    bytes.iter().all(|byte| byte.is_ascii_alphanumeric() || *byte == b'_' || *byte == b'-')
}

fn has_file_bytes(bytes: &[u8]) -> bool
    ensures { result ≡ list_all is_file_byte bytes.now }
{
    bytes.iter().all(|byte| matches!(*byte, b' '..=b'~'))
}
