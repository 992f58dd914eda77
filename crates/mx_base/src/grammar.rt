ghost use Rattle.std.specs.Prelude.{◌≡◌, ◌==◌, not};
ghost use Rattle.std.specs.List.{list_all};
ghost use Rattle.mx_base.specs.Names as names;

/// Whether the bytes are a partition.
#[tactic(auto, unfolding(crate::specs::Names::is_partition))]
pub fn is_partition(text: &[u8]) -> bool
    ensures { result ≡ names.is_partition text.now }
{
    !text.is_empty() && text.len() <= 64 && text[0].is_ascii_alphanumeric() && are_name_bytes(text)
}

/// Whether the bytes of a text are a record key.
#[tactic(auto, unfolding(crate::specs::Names::is_record_key))]
pub fn is_record_key(text: &[u8]) -> bool
    ensures { result ≡ names.is_record_key text.now }
{
    !text.is_empty() && text.len() <= 255 && are_not_zero(text)
}

fn are_not_zero(text: &[u8]) -> bool
    ensures { result ≡ list_all (λ byte. not (byte == 0)) text.now }
{
    text.iter().all(|&byte| byte != 0)
}

/// Whether the text is a path.
#[tactic(auto, unfolding(crate::specs::Names::is_path))]
pub fn is_path(text: &str) -> bool
    ensures { result ≡ names.is_path text.now }
{
    text.len() <= 1024
        && text
            .split('/')
            .all(|segment| is_segment(segment.as_bytes()))
}

#[tactic(auto, unfolding(crate::specs::Names::is_segment))]
fn is_segment(text: &[u8]) -> bool
    ensures { result ≡ names.is_segment text.now }
{
    !text.is_empty()
        && text.len() <= 255
        && are_name_bytes(text)
        && text != b".".as_slice()
        && text != b"..".as_slice()
}

fn are_name_bytes(text: &[u8]) -> bool
    ensures { result ≡ list_all names.is_name_byte text.now }
{
    text.iter().all(|&byte| is_name_byte(byte))
}

fn is_name_byte(byte: u8) -> bool
    ensures { result ≡ names.is_name_byte byte }
{
    byte.is_ascii_alphanumeric() || matches!(byte, b'-' | b'_' | b'.' | b'=')
}
