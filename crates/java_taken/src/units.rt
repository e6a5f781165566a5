//! Members, classes and units.

ghost use Rattle.std.specs.Prelude.{◌≡◌, ◌∷◌, [], IfOk};
ghost use Rattle.java_taken.specs.Units as s;
ghost use Rattle.java_taken.specs.Judged.{Judges, continued};
ghost use Rattle.java_taken.specs.Judged as j;

use crate::judged::{Judged, Refusal};
use crate::names::Names;
use crate::places::{member_at, type_at};
use crate::statements::statements;
use crate::words::{JAVA_END, MAIN, SLASH, STRING, is_free, is_identifier, is_variable};
use j2k_base::{Name, NoMemory, Text};
use java_member_grammar::{
    JImport, JMemberHead, JModifier, JPackage, JResult, JTypeHead, ModifierKind,
};
use java_tree::{Comment, Comments, JDotted, JQualified, JType, JTypedParam, Position};
use java_typed::{
    Access, ClassRef, ClassSort, TBlock, TClass, TConstructor, TFirstCall, TMember, TMethod,
    TModifiers, TParam, TStatements, TType, TUnit, TWritten,
};
use java_unit_grammar::{JMember, JStatement, JUnit};
use meanings::names::Names as Parts;
use sqlite_items::{Boxed, Items};
use std::alloc::Global;

fn are_main(mods: &[JModifier]) -> bool
    ensures { result ≡ s.are_main (s.kinds mods.now) }
{
    match mods {
        [first, second] => matches!(
            (first.kind, second.kind),
            (ModifierKind::Public, ModifierKind::Static)
                | (ModifierKind::Static, ModifierKind::Public)
        ),
        _ => false,
    }
}

fn are_public(mods: &[JModifier]) -> bool
    ensures { result ≡ s.are_public (s.kinds mods.now) }
{
    match mods {
        [first] => matches!(first.kind, ModifierKind::Public),
        _ => false,
    }
}

#[tactic(auto, unfolding(crate::specs::Units::is_string))]
fn is_string(x: &JType) -> bool
    ensures { result ≡ s.is_string x.now }
{
    match x {
        JType::Class(name) => {
            name.name.as_bytes() == STRING.as_bytes() && matches!(name.rest.as_slice(), [])
        }
        _ => false,
    }
}

#[tactic(auto, unfolding(crate::specs::Units::is_strings))]
fn is_strings(x: &JType) -> bool
    ensures { result ≡ s.is_strings x.now }
{
    match x {
        JType::Array(element, brackets) => {
            is_string(element.get()) && matches!(brackets.as_slice(), [_])
        }
        _ => false,
    }
}

fn is_parameter(x: &JTypedParam) -> bool
    ensures { result ≡ s.is_parameter x.now.is_final x.now.kind }
{
    x.is_final.is_none() && is_strings(&x.kind)
}

fn modifiers(is_static: bool) -> TModifiers
    ensures { result ≡ s.modifiers is_static }
{
    TModifiers {
        access: Access::Public,
        is_static,
        is_final: false,
        is_abstract: false,
        is_synchronized: false,
        is_volatile: false,
    }
}

/// Where `String[]` names its types.
#[tactic(auto, unfolding(crate::specs::Units::places_of))]
fn places_of(alloc: Global, x: &JType) -> Result<Items<Position>, NoMemory>
    ensures { IfOk result (λ places. places ≡ s.places_of x.now) }
{
    let mut places = Items::new(alloc);
    match x {
        JType::Array(element, brackets) => match brackets.as_slice() {
            [brackets] => {
                places.push(brackets.opens)?;
                places.push(type_at(element.get()))?;
                Ok(places)
            }
            _ => Ok(places),
        },
        _ => Ok(places),
    }
}

/// `String[]`
fn strings(alloc: Global, x: &JType) -> Result<TWritten, NoMemory>
    ensures { IfOk result (λ made. made ≡ s.strings_written x.now) }
{
    let places = places_of(alloc, x)?;
    let element = TType::Class(ClassRef::Library(1), Items::new(alloc));
    let kind = TType::Array(Boxed::new(alloc, element)?);
    Ok(TWritten { kind, places })
}

fn params_of(alloc: Global, x: &JTypedParam) -> Result<Items<TParam>, NoMemory>
    ensures { IfOk result (λ made. made ≡ s.params_of x.now) }
{
    let mut params = Items::new(alloc);
    let name = Name::from_str(alloc, x.name.as_str())?;
    let kind = strings(alloc, &x.kind)?;
    params.push(TParam {
        name,
        at: x.at,
        kind,
        is_final: false,
    })?;
    Ok(params)
}

/// `main` with its parameter and its statements.
fn main_method(
    alloc: Global,
    first: Position,
    at: Position,
    x: &JTypedParam,
    statements: TStatements,
    closes: Position,
) -> Result<Boxed<TMethod>, Refusal>
    ensures { Judges (j.Judged.Typed (s.main_method first at x.now statements closes)) result }
{
    let params = params_of(alloc, x)?;
    let name = Name::from_str(alloc, MAIN)?;
    let made = TMethod {
        first,
        name,
        at,
        modifiers: modifiers(true),
        type_params: Items::new(alloc),
        params,
        result: None,
        throws: Items::new(alloc),
        block: Some(TBlock { statements, closes }),
    };
    Ok(Boxed::new(alloc, made)?)
}

/// The body of `main` behind its parameter.
fn main_of(
    alloc: Global,
    classes: &Names,
    first: Position,
    at: Position,
    x: &JTypedParam,
    xs: &[JStatement],
    closes: Position,
) -> Result<Boxed<TMethod>, Refusal>
    ensures { Judges (s.main_of classes.now first at x.now xs.now closes) result }
{
    if !is_variable(x.name.as_bytes()) || classes.contains(x.name.as_str()) {
        return Err(Refusal::Open(x.at));
    }
    let body = statements(alloc, classes, &x.name, xs)?;
    main_method(alloc, first, at, x, body, closes)
}

fn with_parameters(
    alloc: Global,
    classes: &Names,
    first: Position,
    at: Position,
    items: &[JTypedParam],
    xs: &[JStatement],
    closes: Position,
) -> Result<Boxed<TMethod>, Refusal>
    ensures { Judges (s.bodied classes.now first at (s.only items.now) xs.now closes) result }
{
    match items {
        [x] if is_parameter(x) => main_of(alloc, classes, first, at, x, xs, closes),
        _ => Err(Refusal::Open(first)),
    }
}

fn bodied(
    alloc: Global,
    classes: &Names,
    first: Position,
    head: &JMemberHead,
    xs: &[JStatement],
    closes: Position,
) -> Result<Boxed<TMethod>, Refusal>
    ensures { Judges (s.bodied classes.now first (s.name_place head.now) (s.main_parameter head.now) xs.now closes) result }
{
    match head {
        JMemberHead::Method(mods, None, JResult::Void(_), name, at, formals, None)
            if are_main(mods.as_slice()) && name.as_bytes() == MAIN.as_bytes() => {
            with_parameters(
                alloc,
                classes,
                first,
                *at,
                formals.items.as_slice(),
                xs,
                closes,
            )
        }
        _ => Err(Refusal::Open(first)),
    }
}

/// The `main` that a member is (JLS 12.1.4).
#[tactic(auto, unfolding(crate::specs::Units::member))]
fn member(alloc: Global, classes: &Names, x: &JMember) -> Result<Boxed<TMethod>, Refusal>
    ensures { Judges (s.member classes.now x.now) result }
{
    let at = member_at(x);
    match x {
        JMember::Bodied(head, _, xs, closes) => {
            bodied(alloc, classes, at, head, xs.as_slice(), *closes)
        }
        _ => Err(Refusal::Open(at)),
    }
}

fn members(alloc: Global, classes: &Names, xs: &[JMember]) -> Result<Items<TMethod>, Refusal>
    ensures { Judges (s.members classes.now xs.now) result }
{
    match xs {
        [] => Ok(Items::new(alloc)),
        [x] => {
            let main = member(alloc, classes, x)?;
            let mut found = Items::new(alloc);
            found.push(main.into_inner())?;
            Ok(found)
        }
        [x, second, ..] => {
            let _main = member(alloc, classes, x)?;
            Err(Refusal::Open(member_at(second)))
        }
    }
}

fn is_file_of(alloc: Global, path: &Text, name: &Name) -> Result<bool, NoMemory>
    ensures { IfOk result (λ is. is ≡ s.is_file_of path.now name.now) }
{
    let mut file = Text::from_str(alloc, name.as_str())?;
    file.push_str(JAVA_END)?;
    let mut end = Text::from_str(alloc, SLASH)?;
    end.push_str(file.as_str())?;
    Ok(path.as_bytes() == file.as_bytes() || path.as_bytes().ends_with(end.as_bytes()))
}

/// Whether the class of a file may have the name.
fn may_name(alloc: Global, earlier: &Names, path: &Text, name: &Name) -> Result<bool, NoMemory>
    ensures { IfOk result (λ may. may ≡ s.may_name earlier.now path.now name.now) }
{
    if !is_free(name.as_bytes()) || earlier.contains(name.as_str()) {
        return Ok(false);
    }
    is_file_of(alloc, path, name)
}

/// The constructor that isn't written stands at the name of the class (JLS 8.8.9).
fn default_constructor(alloc: Global, at: Position) -> TConstructor
    ensures { result ≡ s.default_constructor at }
{
    TConstructor {
        first: at,
        at,
        is_written: false,
        modifiers: modifiers(false),
        params: Items::new(alloc),
        throws: Items::new(alloc),
        call: TFirstCall::Nothing,
        block: TBlock {
            statements: Items::new(alloc),
            closes: at,
        },
    }
}

fn constructors(alloc: Global, at: Position) -> Result<Items<TConstructor>, NoMemory>
    ensures { IfOk result (λ made. made ≡ s.default_constructor at ∷ []) }
{
    let mut made = Items::new(alloc);
    made.push(default_constructor(alloc, at))?;
    Ok(made)
}

fn order_of(alloc: Global, methods: &[TMethod]) -> Result<Items<TMember>, NoMemory>
    ensures { IfOk result (λ made. made ≡ s.order_of methods.now) }
{
    let mut made = Items::new(alloc);
    match methods {
        [] => Ok(made),
        [..] => {
            made.push(TMember::Method(0))?;
            Ok(made)
        }
    }
}

/// A public class directly below Object.
fn class_with(
    alloc: Global,
    first: Position,
    name: &Name,
    at: Position,
    methods: Items<TMethod>,
) -> Result<Boxed<TClass>, Refusal>
    ensures { Judges (j.Judged.Typed (s.class_with first name.now at methods)) result }
{
    let order = order_of(alloc, methods.as_slice())?;
    let constructors = constructors(alloc, at)?;
    let name = Name::from_str(alloc, name.as_str())?;
    let made = TClass {
        around: None,
        first,
        name,
        at,
        sort: ClassSort::Class,
        modifiers: modifiers(false),
        type_params: Items::new(alloc),
        above: None,
        faces: Items::new(alloc),
        fields: Items::new(alloc),
        methods,
        constructors,
        initializers: Items::new(alloc),
        order,
        captured: Items::new(alloc),
    };
    Ok(Boxed::new(alloc, made)?)
}

fn class_of(
    alloc: Global,
    classes: &Names,
    first: Position,
    name: &Name,
    at: Position,
    xs: &[JMember],
) -> Result<Boxed<TClass>, Refusal>
    ensures { Judges (s.class_of classes.now first name.now at xs.now) result }
{
    let methods = members(alloc, classes, xs)?;
    class_with(alloc, first, name, at, methods)
}

fn named(
    alloc: Global,
    classes: &Names,
    earlier: &Names,
    path: &Text,
    first: Position,
    name: &Name,
    at: Position,
    xs: &[JMember],
) -> Result<Boxed<TClass>, Refusal>
    ensures { Judges (s.named classes.now earlier.now path.now first name.now at xs.now) result }
{
    if !may_name(alloc, earlier, path, name)? {
        return Err(Refusal::Open(at));
    }
    class_of(alloc, classes, first, name, at, xs)
}

fn headed(
    alloc: Global,
    classes: &Names,
    earlier: &Names,
    path: &Text,
    first: Position,
    head: &JTypeHead,
    xs: &[JMember],
) -> Result<Boxed<TClass>, Refusal>
    ensures { Judges (s.headed classes.now earlier.now path.now first (s.class_named head.now) xs.now) result }
{
    match head {
        JTypeHead::Class(mods, _, name, at, None, None, None) if are_public(mods.as_slice()) => {
            named(alloc, classes, earlier, path, first, name, *at, xs)
        }
        _ => Err(Refusal::Open(first)),
    }
}

/// The class that a type is (JLS 8.1).
#[tactic(auto, unfolding(crate::specs::Units::top))]
fn top(
    alloc: Global,
    classes: &Names,
    earlier: &Names,
    path: &Text,
    x: &JMember,
) -> Result<Boxed<TClass>, Refusal>
    ensures { Judges (s.top classes.now earlier.now path.now x.now) result }
{
    let at = member_at(x);
    match x {
        JMember::Type(head, _, _, _, xs, _) => {
            headed(alloc, classes, earlier, path, at, head, xs.as_slice())
        }
        _ => Err(Refusal::Open(at)),
    }
}

fn types(
    alloc: Global,
    classes: &Names,
    earlier: &Names,
    path: &Text,
    xs: &[JMember],
) -> Result<Items<TClass>, Refusal>
    ensures { Judges (s.types classes.now earlier.now path.now xs.now) result }
{
    match xs {
        [] => Ok(Items::new(alloc)),
        [x] => {
            let class = top(alloc, classes, earlier, path, x)?;
            let mut found = Items::new(alloc);
            found.push(class.into_inner())?;
            Ok(found)
        }
        [x, second, ..] => {
            let _class = top(alloc, classes, earlier, path, x)?;
            Err(Refusal::Open(member_at(second)))
        }
    }
}

fn part(alloc: Global, name: &Name, at: Position) -> Result<Name, Refusal>
    ensures { Judges (s.part_of name.now at) result }
{
    if !is_identifier(name.as_bytes()) {
        return Err(Refusal::Open(at));
    }
    let name = Name::from_str(alloc, name.as_str())?;
    Ok(name)
}

/// The names behind those that are found.
fn more_parts(alloc: Global, found: Parts, xs: &[JDotted]) -> Result<Parts, Refusal>
    ensures { Judges (continued found (s.parts_of xs.now)) result }
{
    let mut found = found;
    for x in xs {
        let name = part(alloc, &x.name, x.at)?;
        found.push(name)?;
    }
    Ok(found)
}

fn qualified(alloc: Global, x: &JQualified) -> Result<Parts, Refusal>
    ensures { Judges (s.qualified_of x.now) result }
{
    let name = part(alloc, &x.name, x.at)?;
    let mut found = Parts::new(alloc);
    found.push(name)?;
    more_parts(alloc, found, x.rest.as_slice())
}

/// The parts of the name of a package line (JLS 7.4.1).
fn package(alloc: Global, x: &Option<JPackage>) -> Result<Parts, Refusal>
    ensures { Judges (s.package_of x.now) result }
{
    match x {
        None => Ok(Parts::new(alloc)),
        Some(x) => qualified(alloc, &x.name),
    }
}

fn imports(xs: &[JImport]) -> Result<(), Refusal>
    ensures { Judges (s.imports_of xs.now) result }
{
    match xs {
        [] => Ok(()),
        [first, ..] => Err(Refusal::Open(first.at)),
    }
}

fn unit_of(
    alloc: Global,
    path: &Text,
    parts: Parts,
    classes: Items<TClass>,
) -> Result<Boxed<TUnit>, Refusal>
    ensures { Judges (j.Judged.Typed (s.unit_of path.now parts classes)) result }
{
    let path = Text::from_str(alloc, path.as_str())?;
    let made = TUnit {
        path,
        package: parts,
        classes,
        comments: Comments::new(alloc),
    };
    Ok(Boxed::new(alloc, made)?)
}

fn declared(
    alloc: Global,
    classes: &Names,
    earlier: &Names,
    x: &JUnit,
) -> Result<Boxed<TUnit>, Refusal>
    ensures { Judges (s.declared classes.now earlier.now x.now) result }
{
    let package = package(alloc, &x.package)?;
    imports(x.imports.as_slice())?;
    let found = types(alloc, classes, earlier, &x.path, x.types.as_slice())?;
    unit_of(alloc, &x.path, package, found)
}

/// What is judged of a unit without its comments.
fn judge_declared(
    alloc: Global,
    classes: &Names,
    earlier: &Names,
    x: &JUnit,
) -> Result<Judged, NoMemory>
    ensures { IfOk result (λ j. s.seen j ≡ s.declared classes.now earlier.now x.now) }
{
    match declared(alloc, classes, earlier, x) {
        Ok(unit) => Ok(Judged::Typed(unit)),
        Err(Refusal::Open(at)) => Ok(Judged::Open(at)),
        Err(Refusal::Memory) => Err(NoMemory),
    }
}

fn before(at: Position, judged: Judged) -> Judged
    ensures { s.seen result ≡ s.before at (s.seen judged) }
{
    match judged {
        Judged::Open(other) => {
            if at.offset < other.offset {
                Judged::Open(at)
            } else {
                Judged::Open(other)
            }
        }
        Judged::Typed(_) => Judged::Open(at),
    }
}

fn commented(comments: &[Comment], judged: Judged) -> Judged
    ensures { s.seen result ≡ s.commented comments.now (s.seen judged) }
{
    match comments {
        [] => judged,
        [first, ..] => before(first.position, judged),
    }
}

/// Judges a unit of a project (JLS 7.3): its typed tree where it is taken, or the position of its first open form.
///
/// These are the names of all classes of the project, and of those in earlier files. The only error is that memory runs
/// out.
#[tactic(auto, unfolding(crate::specs::Units::unit))]
pub fn judge(
    alloc: Global,
    unit: &JUnit,
    classes: &Names,
    earlier: &Names,
) -> Result<Judged, NoMemory>
    ensures { IfOk result (λ j. s.seen j ≡ s.unit classes.now earlier.now unit.now) }
{
    let judged = judge_declared(alloc, classes, earlier, unit)?;
    Ok(commented(unit.comments.as_slice(), judged))
}
