ghost use Rattle.std.specs.Prelude.{◌≡◌, IfOk, string_bytes};
ghost use Rattle.http_client.specs.Requests.{path_bytes};

use std::alloc::{AllocError, Global};

/// The path of these parts, with `/` before each. They stand in it as they are, so they are to be
/// visible bytes without `/`. The one error is want of memory.
pub fn path_of(alloc: Global, parts: &[&str]) -> Result<String, AllocError>
    ensures { IfOk result (λ path. string_bytes path ≡ path_bytes parts.now) }
{
    let mut path = String::new(alloc);
    for part in parts {
        path.push_str("/")?;
        path.push_str(part)?;
    }
    Ok(path)
}
