// The paths of a project's files, and the names of their classes.
ghost use Rattle.std.specs.Prelude.{◌≡◌, IfOk};
ghost use Rattle.j2k_tool.specs.Paths.{last_part as last_part_by, base_of as base_by, class_name as class_name_by, kotlin_path as kotlin_path_by};

use crate::texts::KOTLIN_END;
use j2k_base::{NoMemory, Text};
use j2k_sources::JAVA_END;
use std::alloc::Global;

/// The simple name of a public class of the file of a path (JLS 7.6).
pub fn class_name(path: &str) -> &str
    ensures { result.now ≡ class_name_by path.now }
{
    base_of(last_part(path))
}

/// What stands behind the last slash of a path.
fn last_part(path: &str) -> &str
    ensures { result.now ≡ last_part_by path.now }
{
    let mut rest = path;
    'parts: while let Some((_part, more)) = rest.split_once('/') {
        rest = more;
    }
    rest
}

/// A path without its end `.java`.
fn base_of(path: &str) -> &str
    ensures { result.now ≡ base_by path.now }
{
    match path.strip_suffix(JAVA_END) {
        Some(base) => base,
        None => path,
    }
}

/// The path of the Kotlin file of a Java file.
pub fn kotlin_path(alloc: Global, path: &str) -> Result<Text, NoMemory>
    ensures { IfOk result (λ text. text ≡ kotlin_path_by path.now) }
{
    let mut text = Text::from_str(alloc, base_of(path))?;
    text.push_str(KOTLIN_END)?;
    Ok(text)
}
