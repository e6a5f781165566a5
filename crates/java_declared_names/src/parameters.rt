// Type parameters.
ghost use Rattle.std.specs.Prelude.{◌≡◌, ◌++◌, IfOk};
ghost use Rattle.java_declared_names.specs.Declared as s;

use j2k_base::{Name, NoMemory};
use java_classes::{Classes, NameFault, Names, is_reserved, put_if};
use java_lib::simple_row;
use java_member_grammar::JTypeParam;
use sqlite_items::Items;
use std::alloc::Global;

/// Whether a class of the project bears the name.
pub fn is_class(rows: &Classes, name: &Name) -> bool
    ensures { result ≡ s.is_class rows.now name.now }
{
    rows.has(name.as_str())
}

/// Whether a variable may not bear the name.
pub fn is_reserved_variable(rows: &Classes, name: &Name) -> bool
    ensures { result ≡ s.is_reserved_variable rows.now name.now }
{
    name.as_bytes() == "java".as_bytes()
        || name.as_bytes() == "Int".as_bytes()
        || is_class(rows, name)
        || simple_row(name.as_bytes()).is_some()
}

fn push_parameter(
    out: &mut Items<NameFault>,
    rows: &Classes,
    unit: usize,
    is_first: bool,
    x: &JTypeParam,
) -> Result<(), NoMemory>
    ensures { IfOk result (λ u. out.new ≡ out.old ++ s.parameter_of rows.now unit is_first x.now) }
{
    put_if(out, !is_first, unit, x.at, 2)?;
    put_if(
        out,
        is_reserved(x.name.as_bytes()) || is_class(rows, &x.name),
        unit,
        x.at,
        5,
    )
}

/// Second type parameters of one name, and reserved names (N2, N5).
pub fn parameter_faults(
    alloc: Global,
    out: &mut Items<NameFault>,
    rows: &Classes,
    unit: usize,
    xs: &[JTypeParam],
) -> Result<(), NoMemory>
    ensures { IfOk result (λ u. out.new ≡ out.old ++ s.parameter_faults rows.now unit xs.now) }
{
    let mut seen = Names::new(alloc);
    for x in xs {
        let is_first = seen.declare(x.name.as_str())?;
        push_parameter(out, rows, unit, is_first, x)?;
    }
    Ok(())
}
