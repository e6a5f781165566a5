// Fields and methods.
ghost use Rattle.std.specs.Prelude.{◌≡◌, ◌++◌, IfOk};
ghost use Rattle.java_declared_names.specs.Declared as s;

use crate::parameters::{is_class, is_reserved_variable};
use j2k_base::NoMemory;
use java_classes::{Classes, NameFault, Names, put_if};
use java_member_grammar::JMemberHead;
use java_statement_grammar::JDeclarator;
use java_unit_grammar::JMember;
use sqlite_items::Items;
use std::alloc::Global;

fn push_field(
    out: &mut Items<NameFault>,
    rows: &Classes,
    unit: usize,
    is_first: bool,
    x: &JDeclarator,
) -> Result<(), NoMemory>
    ensures { IfOk result (λ u. out.new ≡ out.old ++ s.field_of rows.now unit is_first x.now) }
{
    put_if(out, !is_first, unit, x.at, 2)?;
    put_if(out, is_reserved_variable(rows, &x.name), unit, x.at, 5)
}

fn push_fields(
    out: &mut Items<NameFault>,
    seen: &mut Names,
    rows: &Classes,
    unit: usize,
    xs: &[JDeclarator],
) -> Result<(), NoMemory>
    ensures faults { IfOk result (λ u. out.new ≡ out.old ++ s.fields_from rows.now unit seen.old xs.now) }
    ensures seen { IfOk result (λ u. seen.new ≡ s.after_fields seen.old xs.now) }
{
    for x in xs {
        let is_first = seen.declare(x.name.as_str())?;
        push_field(out, rows, unit, is_first, x)?;
    }
    Ok(())
}

fn push_head(
    out: &mut Items<NameFault>,
    seen: &mut Names,
    rows: &Classes,
    unit: usize,
    head: &JMemberHead,
) -> Result<(), NoMemory>
    ensures faults { IfOk result (λ u. out.new ≡ out.old ++ s.head_faults rows.now unit seen.old head.now) }
    ensures seen { IfOk result (λ u. seen.new ≡ s.after_head seen.old head.now) }
{
    match head {
        JMemberHead::Field(_, x) => push_fields(out, seen, rows, unit, x.names.as_slice()),
        JMemberHead::Method(_, _, _, name, at, ..) => {
            put_if(out, is_class(rows, name), unit, *at, 5)
        }
        _ => Ok(()),
    }
}

#[tactic(auto, unfolding(crate::specs::Declared::faults_in, crate::specs::Declared::after))]
fn push_member(
    out: &mut Items<NameFault>,
    seen: &mut Names,
    rows: &Classes,
    unit: usize,
    x: &JMember,
) -> Result<(), NoMemory>
    ensures faults { IfOk result (λ u. out.new ≡ out.old ++ s.faults_in rows.now unit seen.old x.now) }
    ensures seen { IfOk result (λ u. seen.new ≡ s.after seen.old x.now) }
{
    match x {
        JMember::Declared(head, ..) => push_head(out, seen, rows, unit, head),
        JMember::Bodied(head, ..) => push_head(out, seen, rows, unit, head),
        JMember::Type(..) => Ok(()),
    }
}

/// Second fields of one name, and reserved names of fields and methods (N2, N5).
pub fn member_faults(
    alloc: Global,
    out: &mut Items<NameFault>,
    rows: &Classes,
    unit: usize,
    xs: &[JMember],
) -> Result<(), NoMemory>
    ensures { IfOk result (λ u. out.new ≡ out.old ++ s.member_faults rows.now unit xs.now) }
{
    let mut seen = Names::new(alloc);
    for x in xs {
        push_member(out, &mut seen, rows, unit, x)?;
    }
    Ok(())
}
