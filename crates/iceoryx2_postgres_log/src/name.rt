//! The name of a log.

ghost use Rattle.std.specs.Prelude.{◌≡◌, ◌↔◌, IsTrue};
ghost use Rattle.iceoryx2_postgres_log.specs.Names.{is_name_byte, IsLogName};

fn is_name_byte(byte: u8) -> bool
    ensures { result ≡ is_name_byte byte }
{
    byte.is_ascii_alphanumeric() || byte == b'.' || byte == b'_' || byte == b'-'
}

/// Returns true if a log may have this name: 1 to 63 of the letters, digits, `.`, `_` and `-` of ASCII,
/// with a letter or a digit first. No such text ends a literal of SQL.
pub fn is_log_name(name: &str) -> bool
    ensures { IsTrue result ↔ IsLogName name.now }
{
    match name.as_bytes().split_first() {
        None => false,
        Some((first, rest)) => {
            first.is_ascii_alphanumeric()
                && rest.len() <= 62
                && rest.iter().all(|byte| is_name_byte(*byte))
        }
    }
}
