//! Paths of files in folders.
ghost use Rattle.std.specs.Prelude.{◌≡◌, IfOk, string_bytes};
ghost use Rattle.folders.specs.Paths.{file_path};

use std::alloc::AllocError;

// The path of a file in a folder.
pub(crate) fn path_in<'a, R: AllocGlobal>(
    rt: &R,
    dir: &'a str,
    name: &'a str,
) -> Result<String, AllocError>
    ensures { IfOk result (λ path. string_bytes path ≡ file_path dir.now name.now) }
{
    [dir, "/", name].concat(rt.alloc())
}
