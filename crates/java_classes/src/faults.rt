// The faults of the names of classes.
ghost use Rattle.std.specs.Prelude.{◌≡◌, ◌++◌, IfOk};
ghost use Rattle.java_classes.specs.Faults as s;

use crate::homes::is_package;
use crate::name_sets::Names;
use crate::rows::ClassRow;
use j2k_base::{NoMemory, Text};
use java_lib::simple_row;
use java_tree::Position;
use kotlin_words::is_reserved_name;
use sqlite_items::Items;
use std::alloc::Global;

/// A fault of names: the number of the file, the place in it, the number of the code.
#[derive(Clone, Copy, Debug)]
pub struct NameFault {
    pub unit: usize,
    pub at: Position,
    pub number: u8,
}

/// A fault at a place, where there is one.
pub fn put_if(
    out: &mut Items<NameFault>,
    is: bool,
    unit: usize,
    at: Position,
    number: u8,
) -> Result<(), NoMemory>
    ensures { IfOk result (λ u. out.new ≡ out.old ++ s.fault_if is unit at number) }
{
    if is {
        out.push(NameFault { unit, at, number })?;
    }
    Ok(())
}

/// Whether a class or a type parameter may not bear the name.
pub fn is_reserved(name: &[u8]) -> bool
    ensures { result ≡ s.is_reserved name.now }
{
    name == "java".as_bytes() || is_reserved_name(name) || simple_row(name).is_some()
}

/// Whether a package has the qualified name of the class (JLS 7.1). The unnamed package holds no packages.
fn is_also_package(alloc: Global, packages: &[Text], row: &ClassRow) -> Result<bool, NoMemory>
    ensures { IfOk result (λ is. is ≡ s.is_also_package packages.now row.now.home row.now.name) }
{
    if row.home.len() == 0 {
        return Ok(false);
    }
    let mut name = Text::from_str(alloc, row.home.as_str())?;
    name.push_str(".")?;
    name.push_str(row.name.as_str())?;
    is_package(alloc, packages, &name)
}

/// The faults of one class: whether it is the first of its name.
fn push_faults(
    alloc: Global,
    out: &mut Items<NameFault>,
    packages: &[Text],
    is_first: bool,
    row: &ClassRow,
) -> Result<(), NoMemory>
    ensures { IfOk result (λ u. out.new ≡ out.old ++ s.faults_of packages.now is_first row.now) }
{
    let is_also = is_also_package(alloc, packages, row)?;
    put_if(out, !is_first || is_also, row.unit, row.at, 2)?;
    put_if(out, is_reserved(row.name.as_bytes()), row.unit, row.at, 5)?;
    put_if(out, row.is_public && !row.has_file, row.unit, row.at, 6)
}

/// Second classes of one name, reserved names, public classes in files of other names, classes with the name of a
/// package (N2, N5, N6).
pub fn class_faults(
    alloc: Global,
    out: &mut Items<NameFault>,
    packages: &[Text],
    rows: &[ClassRow],
) -> Result<(), NoMemory>
    ensures { IfOk result (λ u. out.new ≡ out.old ++ s.class_faults packages.now rows.now) }
{
    let mut seen = Names::new(alloc);
    for row in rows {
        let is_first = seen.declare(row.name.as_str())?;
        push_faults(alloc, out, packages, is_first, row)?;
    }
    Ok(())
}
