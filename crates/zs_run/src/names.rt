//! The names of jobs: which texts are valid.
ghost use Rattle.std.specs.Prelude.{◌≡◌};
ghost use Rattle.std.specs.List.{list_all};
ghost use Rattle.zs_run.specs.Jobs.{is_name, is_name_byte};

// The greatest number of bytes of a name.
const MAX_NAME: usize = 64;

// Whether a name may have the byte.
#[tactic(auto, unfolding(crate::specs::Jobs::is_name_byte))]
fn is_name_byte(byte: u8) -> bool
    ensures value { result ≡ is_name_byte byte }
{
    byte.is_ascii_alphanumeric() || byte == b'-' || byte == b'_' || byte == b'.'
}

// Whether a name may have all these bytes.
fn all_are_name_bytes(text: &[u8]) -> bool
    ensures value { result ≡ list_all is_name_byte text.now }
{
    text.iter().all(|byte| is_name_byte(*byte))
}

/// Whether the text is a valid name.
#[tactic(auto, unfolding(crate::specs::Jobs::is_name))]
pub(crate) fn is_name(text: &str) -> bool
    ensures value { result ≡ is_name text.now }
{
    let bytes = text.as_bytes();
    0 < bytes.len() && bytes.len() <= MAX_NAME && all_are_name_bytes(bytes)
}
