//! Where the file of a track is found.

ghost use Rattle.std.specs.Prelude.{◌≡◌, IfOk, string_bytes, option_map};
ghost use Rattle.rtsp_text.specs.Slices.{held};
ghost use Rattle.rtsp_content.specs.MediaPath.{folder_of, media_folder, media_path};

use std::alloc::{AllocError, Global};
use std::path::Path;

// The folder of a file; it is empty where the path has none.
fn folder_of(path: &str) -> &str
    ensures { result.now ≡ folder_of path.now }
{
    match Path::new(path).parent() {
        Some(folder) => folder.as_str(),
        None => "",
    }
}

/// The folder of the media, where the configuration at this path names one. A relative one is taken
/// from the configuration's folder.
pub(crate) fn media_folder(
    alloc: Global,
    config: &str,
    folder: Option<String>,
) -> Result<Option<String>, AllocError>
    ensures { IfOk result (λ o. option_map (λ s. string_bytes s) o
        ≡ media_folder config.now (option_map (λ s. string_bytes s) folder)) }
{
    match folder {
        Some(folder) => {
            let path = Path::new(folder_of(config)).join(alloc, folder.as_str())?;
            Ok(Some(path.into_string()))
        }
        None => Ok(None),
    }
}

/// The path of a track's file. A relative one is taken from the folder of the media, where there is
/// one.
pub(crate) fn media_path(
    alloc: Global,
    folder: Option<&str>,
    file: String,
) -> Result<String, AllocError>
    ensures { IfOk result (λ s. string_bytes s ≡ media_path (held folder.entry) (string_bytes file)) }
{
    match folder {
        Some(folder) => {
            let path = Path::new(folder).join(alloc, file.as_str())?;
            Ok(path.into_string())
        }
        None => Ok(file),
    }
}
