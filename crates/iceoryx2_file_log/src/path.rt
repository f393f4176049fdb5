//! A path as a folder and a name in it.

ghost use Rattle.iceoryx2_file_log.specs.Path.{IsSplit};

/// Returns the folder of the path, and the name in it, which follows the last slash. A path without a
/// slash is a name in the folder `.`.
#[tactic(auto, using(crate::proofs::Paths::in_place, crate::proofs::Paths::in_root, crate::proofs::Paths::in_folder))]
pub fn split(path: &str) -> (&str, &str)
    ensures { IsSplit path.now result.0.now result.1.now }
{
    match path.rsplit_once('/') {
        None => (".", path),
        Some((folder, name)) => {
            if folder.is_empty() {
                ("/", name)
            } else {
                (folder, name)
            }
        }
    }
}
