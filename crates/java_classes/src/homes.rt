// The packages of a project and of the library.
ghost use Rattle.std.specs.Prelude.{◌≡◌, IfOk};
ghost use Rattle.java_classes.specs.Classes as s;

use crate::rows::package_name;
use j2k_base::{NoMemory, Text};
use java_unit_grammar::JUnit;
use sqlite_items::Items;
use std::alloc::Global;

/// Names of packages with dots.
pub type Packages = Items<Text>;

fn library(alloc: Global) -> Result<Packages, NoMemory>
    ensures { IfOk result (λ names. names ≡ s.library_packages) }
{
    let mut out = Items::new(alloc);
    out.push(Text::from_str(alloc, "java.lang")?)?;
    out.push(Text::from_str(alloc, "java.util")?)?;
    out.push(Text::from_str(alloc, "java.io")?)?;
    Ok(out)
}

/// The packages of the library and of the files (JLS 7.4.3).
pub fn declared_packages(alloc: Global, units: &[JUnit]) -> Result<Packages, NoMemory>
    ensures { IfOk result (λ names. names ≡ s.packages units.now) }
{
    let mut out = library(alloc)?;
    for unit in units {
        let name = package_name(alloc, &unit.package)?;
        out.push(name)?;
    }
    Ok(out)
}

/// Whether a package or a package in it is declared (JLS 7.1).
pub fn is_package(alloc: Global, packages: &[Text], name: &Text) -> Result<bool, NoMemory>
    ensures { IfOk result (λ is. is ≡ s.is_package packages.now name.now) }
{
    let mut front = Text::from_str(alloc, name.as_str())?;
    front.push_str(".")?;
    Ok(
        packages.iter().any(|x| {
            x.as_bytes() == name.as_bytes() || x.as_bytes().starts_with(front.as_bytes())
        }),
    )
}
