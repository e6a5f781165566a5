// The tables of the grammar as the machine asks for them.

ghost use Rattle.std.specs.Prelude.{◌≡◌, true, false};
ghost use Rattle.kotlin_grammar.specs.Table.{accepts as accepts_of, blank_after as blank_after_of, is_end as is_end_of, written as written_of, code as code_of};
ghost use Rattle.kotlin_grammar.specs.Choice as choice;
ghost use Rattle.kotlin_grammar.specs.declared.letters.Term.TheVariants as t;

use grammar::Symbol;
use kotlin_grammar::{Act, Form, Kind, Term, Way};

/// The number of a kind.
fn code(kind: Kind) -> u8
    ensures { result ≡ code_of kind }
{
    match kind {
        Kind::End => 0,
        Kind::Broken => 1,
        Kind::BrokenWhile => 2,
        Kind::BrokenSet => 3,
        Kind::Name => 4,
        Kind::NameArguments => 5,
        Kind::NameLess => 6,
        Kind::Label => 7,
        Kind::LabelModifier => 8,
        Kind::LabelAnnotation => 9,
        Kind::InfixWord => 10,
        Kind::UntilWord => 11,
        Kind::CompanionWord => 12,
        Kind::InitWord => 13,
        Kind::ConstructorWord => 14,
        Kind::SetWord => 15,
        Kind::JavaWord => 16,
        Kind::ImportWord => 17,
        Kind::PrivateWord => 18,
        Kind::PrivateSet => 19,
        Kind::ModifierWord => 20,
        Kind::AnnotationWord => 21,
        Kind::RunBlock => 22,
        Kind::SynchronizedBlock => 23,
        Kind::Catch => 24,
        Kind::FinallyWord => 25,
        Kind::Literal => 26,
        Kind::As => 27,
        Kind::Break => 28,
        Kind::Class => 29,
        Kind::Continue => 30,
        Kind::Do => 31,
        Kind::Else => 32,
        Kind::ElseArrow => 33,
        Kind::For => 34,
        Kind::Fun => 35,
        Kind::If => 36,
        Kind::In => 37,
        Kind::Interface => 38,
        Kind::Is => 39,
        Kind::Object => 40,
        Kind::Package => 41,
        Kind::Return => 42,
        Kind::SuperWord => 43,
        Kind::This => 44,
        Kind::Throw => 45,
        Kind::Try => 46,
        Kind::Val => 47,
        Kind::Var => 48,
        Kind::When => 49,
        Kind::While => 50,
        Kind::Unused => 51,
        Kind::OpenRound => 52,
        Kind::CloseRound => 53,
        Kind::OpenSquare => 54,
        Kind::CloseSquare => 55,
        Kind::OpenCurly => 56,
        Kind::OpenParameters => 57,
        Kind::CloseCurly => 58,
        Kind::Comma => 59,
        Kind::Dot => 60,
        Kind::At => 61,
        Kind::Question => 62,
        Kind::Colon => 63,
        Kind::DoubleColon => 64,
        Kind::Assign => 65,
        Kind::Equality => 66,
        Kind::Not => 67,
        Kind::NotNull => 68,
        Kind::Sign => 69,
        Kind::Step => 70,
        Kind::Arrow => 71,
        Kind::Times => 72,
        Kind::AndAnd => 73,
        Kind::OrOr => 74,
        Kind::Less => 75,
        Kind::Greater => 76,
        Kind::Compare => 77,
    }
}

#[tactic(auto, unfolding(kotlin_grammar::specs::Table::accepts))]
fn is_name(kind: Kind) -> bool
    ensures { result ≡ accepts_of t.Name kind }
{
    match kind {
        Kind::Name => true,
        Kind::NameLess => true,
        Kind::InfixWord => true,
        Kind::UntilWord => true,
        Kind::CompanionWord => true,
        Kind::InitWord => true,
        Kind::ConstructorWord => true,
        Kind::SetWord => true,
        Kind::JavaWord => true,
        Kind::ImportWord => true,
        Kind::PrivateWord => true,
        Kind::PrivateSet => true,
        Kind::ModifierWord => true,
        Kind::AnnotationWord => true,
        _ => false,
    }
}

#[tactic(auto, unfolding(kotlin_grammar::specs::Table::accepts))]
fn is_any_name(kind: Kind) -> bool
    ensures { result ≡ accepts_of t.AnyName kind }
{
    match kind {
        Kind::Name => true,
        Kind::NameArguments => true,
        Kind::NameLess => true,
        Kind::InfixWord => true,
        Kind::UntilWord => true,
        Kind::CompanionWord => true,
        Kind::InitWord => true,
        Kind::ConstructorWord => true,
        Kind::SetWord => true,
        Kind::JavaWord => true,
        Kind::ImportWord => true,
        Kind::PrivateWord => true,
        Kind::PrivateSet => true,
        Kind::ModifierWord => true,
        Kind::AnnotationWord => true,
        _ => false,
    }
}

#[tactic(auto, unfolding(kotlin_grammar::specs::Table::accepts))]
fn is_type_name(kind: Kind) -> bool
    ensures { result ≡ accepts_of t.TypeName kind }
{
    match kind {
        Kind::Name => true,
        Kind::InfixWord => true,
        Kind::UntilWord => true,
        Kind::CompanionWord => true,
        Kind::InitWord => true,
        Kind::ConstructorWord => true,
        Kind::SetWord => true,
        Kind::JavaWord => true,
        Kind::ImportWord => true,
        Kind::PrivateWord => true,
        Kind::PrivateSet => true,
        Kind::ModifierWord => true,
        Kind::AnnotationWord => true,
        _ => false,
    }
}

#[tactic(auto, unfolding(kotlin_grammar::specs::Table::accepts))]
fn is_type_name_arguments(kind: Kind) -> bool
    ensures { result ≡ accepts_of t.TypeNameArguments kind }
{
    match kind {
        Kind::NameArguments => true,
        Kind::NameLess => true,
        _ => false,
    }
}

#[tactic(auto, unfolding(kotlin_grammar::specs::Table::accepts))]
fn is_target_name(kind: Kind) -> bool
    ensures { result ≡ accepts_of t.TargetName kind }
{
    match kind {
        Kind::Name => true,
        Kind::NameLess => true,
        Kind::InfixWord => true,
        Kind::UntilWord => true,
        Kind::CompanionWord => true,
        Kind::InitWord => true,
        Kind::ConstructorWord => true,
        Kind::SetWord => true,
        Kind::JavaWord => true,
        Kind::ImportWord => true,
        Kind::PrivateWord => true,
        Kind::PrivateSet => true,
        Kind::ModifierWord => true,
        Kind::AnnotationWord => true,
        Kind::SynchronizedBlock => true,
        _ => false,
    }
}

#[tactic(auto, unfolding(kotlin_grammar::specs::Table::accepts))]
fn is_label_name(kind: Kind) -> bool
    ensures { result ≡ accepts_of t.LabelName kind }
{
    match kind {
        Kind::Label => true,
        Kind::LabelModifier => true,
        Kind::LabelAnnotation => true,
        _ => false,
    }
}

#[tactic(auto, unfolding(kotlin_grammar::specs::Table::accepts))]
fn is_modifier(kind: Kind) -> bool
    ensures { result ≡ accepts_of t.Modifier kind }
{
    match kind {
        Kind::LabelModifier => true,
        Kind::PrivateWord => true,
        Kind::ModifierWord => true,
        _ => false,
    }
}

#[tactic(auto, unfolding(kotlin_grammar::specs::Table::accepts))]
fn is_annotation(kind: Kind) -> bool
    ensures { result ≡ accepts_of t.Annotation kind }
{
    match kind {
        Kind::LabelAnnotation => true,
        Kind::AnnotationWord => true,
        _ => false,
    }
}

#[tactic(auto, unfolding(kotlin_grammar::specs::Table::accepts))]
fn is_class_or_interface(kind: Kind) -> bool
    ensures { result ≡ accepts_of t.ClassOrInterface kind }
{
    match kind {
        Kind::Class => true,
        Kind::Interface => true,
        _ => false,
    }
}

#[tactic(auto, unfolding(kotlin_grammar::specs::Table::accepts))]
fn is_variability(kind: Kind) -> bool
    ensures { result ≡ accepts_of t.Variability kind }
{
    match kind {
        Kind::Val => true,
        Kind::Var => true,
        _ => false,
    }
}

#[tactic(auto, unfolding(kotlin_grammar::specs::Table::accepts))]
fn is_this_or_super(kind: Kind) -> bool
    ensures { result ≡ accepts_of t.ThisOrSuper kind }
{
    match kind {
        Kind::SuperWord => true,
        Kind::This => true,
        _ => false,
    }
}

#[tactic(auto, unfolding(kotlin_grammar::specs::Table::accepts))]
fn is_when_curly(kind: Kind) -> bool
    ensures { result ≡ accepts_of t.WhenCurly kind }
{
    match kind {
        Kind::OpenCurly => true,
        Kind::OpenParameters => true,
        _ => false,
    }
}

#[tactic(auto, unfolding(kotlin_grammar::specs::Table::accepts))]
fn is_while_of_do(kind: Kind) -> bool
    ensures { result ≡ accepts_of t.WhileOfDo kind }
{
    match kind {
        Kind::BrokenWhile => true,
        Kind::While => true,
        _ => false,
    }
}

#[tactic(auto, unfolding(kotlin_grammar::specs::Table::accepts))]
fn is_private_of_set(kind: Kind) -> bool
    ensures { result ≡ accepts_of t.PrivateOfSet kind }
{
    match kind {
        Kind::BrokenSet => true,
        Kind::PrivateSet => true,
        _ => false,
    }
}

#[tactic(auto, unfolding(kotlin_grammar::specs::Table::accepts))]
fn is_type_less(kind: Kind) -> bool
    ensures { result ≡ accepts_of t.TypeLess kind }
{
    match kind {
        Kind::Less => true,
        _ => false,
    }
}

#[tactic(auto, unfolding(kotlin_grammar::specs::Table::accepts))]
fn is_compare_mark(kind: Kind) -> bool
    ensures { result ≡ accepts_of t.CompareMark kind }
{
    match kind {
        Kind::Less => true,
        Kind::Greater => true,
        Kind::Compare => true,
        _ => false,
    }
}

#[tactic(auto, unfolding(kotlin_grammar::specs::Table::accepts))]
fn is_prefix_mark(kind: Kind) -> bool
    ensures { result ≡ accepts_of t.PrefixMark kind }
{
    match kind {
        Kind::Not => true,
        Kind::Sign => true,
        Kind::Step => true,
        _ => false,
    }
}

#[tactic(auto, unfolding(kotlin_grammar::specs::Table::accepts))]
fn is_postfix_mark(kind: Kind) -> bool
    ensures { result ≡ accepts_of t.PostfixMark kind }
{
    match kind {
        Kind::NotNull => true,
        Kind::Step => true,
        _ => false,
    }
}

#[tactic(auto, unfolding(kotlin_grammar::specs::Table::accepts))]
fn is_ends(kind: Kind) -> bool
    ensures { result ≡ accepts_of t.Ends kind }
{
    match kind {
        Kind::Broken => true,
        Kind::BrokenWhile => true,
        Kind::BrokenSet => true,
        _ => false,
    }
}

#[tactic(auto, unfolding(kotlin_grammar::specs::Table::accepts))]
fn is_member_ends(kind: Kind) -> bool
    ensures { result ≡ accepts_of t.MemberEnds kind }
{
    match kind {
        Kind::Broken => true,
        Kind::BrokenWhile => true,
        _ => false,
    }
}

/// Whether the terminal takes a token of the kind.
#[tactic(auto, unfolding(kotlin_grammar::specs::Table::accepts))]
pub fn accepts(term: Term, kind: Kind) -> bool
    ensures { result ≡ accepts_of term kind }
{
    match term {
        Term::Only(only) => code(only) == code(kind),
        Term::Name => is_name(kind),
        Term::AnyName => is_any_name(kind),
        Term::TypeName => is_type_name(kind),
        Term::TypeNameArguments => is_type_name_arguments(kind),
        Term::TargetName => is_target_name(kind),
        Term::LabelName => is_label_name(kind),
        Term::Modifier => is_modifier(kind),
        Term::Annotation => is_annotation(kind),
        Term::ClassOrInterface => is_class_or_interface(kind),
        Term::Variability => is_variability(kind),
        Term::ThisOrSuper => is_this_or_super(kind),
        Term::WhenCurly => is_when_curly(kind),
        Term::WhileOfDo => is_while_of_do(kind),
        Term::PrivateOfSet => is_private_of_set(kind),
        Term::TypeLess => is_type_less(kind),
        Term::CompareMark => is_compare_mark(kind),
        Term::PrefixMark => is_prefix_mark(kind),
        Term::PostfixMark => is_postfix_mark(kind),
        Term::Ends => is_ends(kind),
        Term::MemberEnds => is_member_ends(kind),
    }
}

/// Whether a line end behind the token is a blank.
pub fn blank_after(term: Term) -> bool
    ensures { result ≡ blank_after_of term }
{
    match term {
        Term::Only(Kind::InfixWord) => true,
        Term::Only(Kind::UntilWord) => true,
        Term::Only(Kind::As) => true,
        Term::Only(Kind::Is) => true,
        Term::Only(Kind::OpenCurly) => true,
        Term::Only(Kind::OpenParameters) => true,
        Term::Only(Kind::Comma) => true,
        Term::Only(Kind::Dot) => true,
        Term::Only(Kind::Colon) => true,
        Term::Only(Kind::Assign) => true,
        Term::Only(Kind::Equality) => true,
        Term::Only(Kind::Sign) => true,
        Term::Only(Kind::Arrow) => true,
        Term::Only(Kind::Times) => true,
        Term::Only(Kind::AndAnd) => true,
        Term::Only(Kind::OrOr) => true,
        Term::Modifier => true,
        Term::Annotation => true,
        Term::WhenCurly => true,
        Term::PrivateOfSet => true,
        Term::CompareMark => true,
        Term::PrefixMark => true,
        _ => false,
    }
}

/// Whether the terminal is an end, which takes no token.
pub fn is_end(term: Term) -> bool
    ensures { result ≡ is_end_of term }
{
    match term {
        Term::Ends => true,
        Term::MemberEnds => true,
        _ => false,
    }
}

fn choose_file_head(kind: Kind) -> Way
    ensures { result ≡ choice.choose_file_head kind }
{
    match kind {
        Kind::Package => Way::FilePackage,
        _ => Way::FileBare,
    }
}

fn choose_after_line(kind: Kind) -> Way
    ensures { result ≡ choice.choose_after_line kind }
{
    match kind {
        Kind::Broken => Way::AfterLineMore,
        Kind::BrokenWhile => Way::AfterLineMore,
        Kind::BrokenSet => Way::AfterLineMore,
        _ => Way::AfterLineEnd,
    }
}

fn choose_lines(kind: Kind) -> Way
    ensures { result ≡ choice.choose_lines kind }
{
    match kind {
        Kind::LabelModifier => Way::LinesClass,
        Kind::ImportWord => Way::LinesImport,
        Kind::PrivateWord => Way::LinesClass,
        Kind::ModifierWord => Way::LinesClass,
        Kind::Class => Way::LinesClass,
        Kind::Fun => Way::LinesClass,
        Kind::Interface => Way::LinesClass,
        Kind::At => Way::LinesClass,
        _ => Way::LinesEnd,
    }
}

fn choose_qualified_more(kind: Kind) -> Way
    ensures { result ≡ choice.choose_qualified_more kind }
{
    match kind {
        Kind::Dot => Way::QualifiedDot,
        _ => Way::QualifiedEnd,
    }
}

fn choose_class_word(kind: Kind) -> Way
    ensures { result ≡ choice.choose_class_word kind }
{
    match kind {
        Kind::Fun => Way::ClassFun,
        _ => Way::ClassPlain,
    }
}

fn choose_modifiers(kind: Kind) -> Way
    ensures { result ≡ choice.choose_modifiers kind }
{
    match kind {
        Kind::LabelModifier => Way::ModifiersWord,
        Kind::PrivateWord => Way::ModifiersWord,
        Kind::ModifierWord => Way::ModifiersWord,
        Kind::At => Way::ModifiersAt,
        _ => Way::ModifiersEnd,
    }
}

fn choose_type_params(kind: Kind) -> Way
    ensures { result ≡ choice.choose_type_params kind }
{
    match kind {
        Kind::Less => Way::TypeParamsSome,
        _ => Way::TypeParamsNone,
    }
}

fn choose_more_type_params(kind: Kind) -> Way
    ensures { result ≡ choice.choose_more_type_params kind }
{
    match kind {
        Kind::Comma => Way::TypeParamsMore,
        _ => Way::TypeParamsEnd,
    }
}

fn choose_supers(kind: Kind) -> Way
    ensures { result ≡ choice.choose_supers kind }
{
    match kind {
        Kind::Colon => Way::SupersSome,
        _ => Way::SupersNone,
    }
}

fn choose_super_round(kind: Kind) -> Way
    ensures { result ≡ choice.choose_super_round kind }
{
    match kind {
        Kind::OpenRound => Way::SuperCalled,
        _ => Way::SuperPlain,
    }
}

fn choose_more_supers(kind: Kind) -> Way
    ensures { result ≡ choice.choose_more_supers kind }
{
    match kind {
        Kind::Comma => Way::SupersMore,
        _ => Way::SupersEnd,
    }
}

fn choose_typed(kind: Kind) -> Way
    ensures { result ≡ choice.choose_typed kind }
{
    match kind {
        Kind::Colon => Way::TypedSome,
        _ => Way::TypedNone,
    }
}

fn choose_members(kind: Kind) -> Way
    ensures { result ≡ choice.choose_members kind }
{
    match kind {
        Kind::Broken => Way::MembersEnds,
        Kind::BrokenWhile => Way::MembersEnds,
        Kind::LabelModifier => Way::MembersSome,
        Kind::CompanionWord => Way::MembersSome,
        Kind::InitWord => Way::MembersSome,
        Kind::ConstructorWord => Way::MembersSome,
        Kind::PrivateWord => Way::MembersSome,
        Kind::ModifierWord => Way::MembersSome,
        Kind::Fun => Way::MembersSome,
        Kind::Val => Way::MembersSome,
        Kind::Var => Way::MembersSome,
        Kind::At => Way::MembersSome,
        _ => Way::MembersNone,
    }
}

fn choose_more_members(kind: Kind) -> Way
    ensures { result ≡ choice.choose_more_members kind }
{
    match kind {
        Kind::Broken => Way::MembersMore,
        Kind::BrokenWhile => Way::MembersMore,
        _ => Way::MembersEnd,
    }
}

fn choose_next_member(kind: Kind) -> Way
    ensures { result ≡ choice.choose_next_member kind }
{
    match kind {
        Kind::LabelModifier => Way::NextMemberSome,
        Kind::CompanionWord => Way::NextMemberSome,
        Kind::InitWord => Way::NextMemberSome,
        Kind::ConstructorWord => Way::NextMemberSome,
        Kind::PrivateWord => Way::NextMemberSome,
        Kind::ModifierWord => Way::NextMemberSome,
        Kind::Fun => Way::NextMemberSome,
        Kind::Val => Way::NextMemberSome,
        Kind::Var => Way::NextMemberSome,
        Kind::At => Way::NextMemberSome,
        _ => Way::NextMemberNone,
    }
}

fn choose_member(kind: Kind) -> Way
    ensures { result ≡ choice.choose_member kind }
{
    match kind {
        Kind::CompanionWord => Way::MemberCompanion,
        Kind::InitWord => Way::MemberInit,
        _ => Way::MemberModified,
    }
}

fn choose_modified(kind: Kind) -> Way
    ensures { result ≡ choice.choose_modified kind }
{
    match kind {
        Kind::ConstructorWord => Way::ModifiedConstructor,
        Kind::Fun => Way::ModifiedFunction,
        _ => Way::ModifiedProperty,
    }
}

fn choose_value(kind: Kind) -> Way
    ensures { result ≡ choice.choose_value kind }
{
    match kind {
        Kind::Assign => Way::ValueSome,
        _ => Way::ValueNone,
    }
}

fn choose_setter(kind: Kind) -> Way
    ensures { result ≡ choice.choose_setter kind }
{
    match kind {
        Kind::BrokenSet => Way::SetterSome,
        Kind::PrivateSet => Way::SetterSome,
        _ => Way::SetterNone,
    }
}

fn choose_param_list(kind: Kind) -> Way
    ensures { result ≡ choice.choose_param_list kind }
{
    match kind {
        Kind::Name => Way::ParamsSome,
        Kind::NameLess => Way::ParamsSome,
        Kind::InfixWord => Way::ParamsSome,
        Kind::UntilWord => Way::ParamsSome,
        Kind::CompanionWord => Way::ParamsSome,
        Kind::InitWord => Way::ParamsSome,
        Kind::ConstructorWord => Way::ParamsSome,
        Kind::SetWord => Way::ParamsSome,
        Kind::JavaWord => Way::ParamsSome,
        Kind::ImportWord => Way::ParamsSome,
        Kind::PrivateWord => Way::ParamsSome,
        Kind::PrivateSet => Way::ParamsSome,
        Kind::ModifierWord => Way::ParamsSome,
        Kind::AnnotationWord => Way::ParamsSome,
        _ => Way::ParamsNone,
    }
}

fn choose_more_params(kind: Kind) -> Way
    ensures { result ≡ choice.choose_more_params kind }
{
    match kind {
        Kind::Comma => Way::ParamsMore,
        _ => Way::ParamsEnd,
    }
}

fn choose_body(kind: Kind) -> Way
    ensures { result ≡ choice.choose_body kind }
{
    match kind {
        Kind::OpenCurly => Way::BodySome,
        _ => Way::BodyNone,
    }
}

fn choose_delegation(kind: Kind) -> Way
    ensures { result ≡ choice.choose_delegation kind }
{
    match kind {
        Kind::Colon => Way::DelegationSome,
        _ => Way::DelegationNone,
    }
}

fn choose_statements(kind: Kind) -> Way
    ensures { result ≡ choice.choose_statements kind }
{
    match kind {
        Kind::Broken => Way::StatementsEnds,
        Kind::BrokenWhile => Way::StatementsEnds,
        Kind::BrokenSet => Way::StatementsEnds,
        Kind::Name => Way::StatementsSome,
        Kind::NameArguments => Way::StatementsSome,
        Kind::NameLess => Way::StatementsSome,
        Kind::Label => Way::StatementsSome,
        Kind::LabelModifier => Way::StatementsSome,
        Kind::LabelAnnotation => Way::StatementsSome,
        Kind::InfixWord => Way::StatementsSome,
        Kind::UntilWord => Way::StatementsSome,
        Kind::CompanionWord => Way::StatementsSome,
        Kind::InitWord => Way::StatementsSome,
        Kind::ConstructorWord => Way::StatementsSome,
        Kind::SetWord => Way::StatementsSome,
        Kind::JavaWord => Way::StatementsSome,
        Kind::ImportWord => Way::StatementsSome,
        Kind::PrivateWord => Way::StatementsSome,
        Kind::PrivateSet => Way::StatementsSome,
        Kind::ModifierWord => Way::StatementsSome,
        Kind::AnnotationWord => Way::StatementsSome,
        Kind::RunBlock => Way::StatementsSome,
        Kind::SynchronizedBlock => Way::StatementsSome,
        Kind::Literal => Way::StatementsSome,
        Kind::Break => Way::StatementsSome,
        Kind::Continue => Way::StatementsSome,
        Kind::Do => Way::StatementsSome,
        Kind::For => Way::StatementsSome,
        Kind::If => Way::StatementsSome,
        Kind::Return => Way::StatementsSome,
        Kind::SuperWord => Way::StatementsSome,
        Kind::This => Way::StatementsSome,
        Kind::Throw => Way::StatementsSome,
        Kind::Try => Way::StatementsSome,
        Kind::Val => Way::StatementsSome,
        Kind::Var => Way::StatementsSome,
        Kind::When => Way::StatementsSome,
        Kind::While => Way::StatementsSome,
        Kind::OpenRound => Way::StatementsSome,
        Kind::Not => Way::StatementsSome,
        Kind::Sign => Way::StatementsSome,
        Kind::Step => Way::StatementsSome,
        _ => Way::StatementsNone,
    }
}

fn choose_more_statements(kind: Kind) -> Way
    ensures { result ≡ choice.choose_more_statements kind }
{
    match kind {
        Kind::Broken => Way::StatementsMore,
        Kind::BrokenWhile => Way::StatementsMore,
        Kind::BrokenSet => Way::StatementsMore,
        _ => Way::StatementsEnd,
    }
}

fn choose_next_statement(kind: Kind) -> Way
    ensures { result ≡ choice.choose_next_statement kind }
{
    match kind {
        Kind::Name => Way::NextStatementSome,
        Kind::NameArguments => Way::NextStatementSome,
        Kind::NameLess => Way::NextStatementSome,
        Kind::Label => Way::NextStatementSome,
        Kind::LabelModifier => Way::NextStatementSome,
        Kind::LabelAnnotation => Way::NextStatementSome,
        Kind::InfixWord => Way::NextStatementSome,
        Kind::UntilWord => Way::NextStatementSome,
        Kind::CompanionWord => Way::NextStatementSome,
        Kind::InitWord => Way::NextStatementSome,
        Kind::ConstructorWord => Way::NextStatementSome,
        Kind::SetWord => Way::NextStatementSome,
        Kind::JavaWord => Way::NextStatementSome,
        Kind::ImportWord => Way::NextStatementSome,
        Kind::PrivateWord => Way::NextStatementSome,
        Kind::PrivateSet => Way::NextStatementSome,
        Kind::ModifierWord => Way::NextStatementSome,
        Kind::AnnotationWord => Way::NextStatementSome,
        Kind::RunBlock => Way::NextStatementSome,
        Kind::SynchronizedBlock => Way::NextStatementSome,
        Kind::Literal => Way::NextStatementSome,
        Kind::Break => Way::NextStatementSome,
        Kind::Continue => Way::NextStatementSome,
        Kind::Do => Way::NextStatementSome,
        Kind::For => Way::NextStatementSome,
        Kind::If => Way::NextStatementSome,
        Kind::Return => Way::NextStatementSome,
        Kind::SuperWord => Way::NextStatementSome,
        Kind::This => Way::NextStatementSome,
        Kind::Throw => Way::NextStatementSome,
        Kind::Try => Way::NextStatementSome,
        Kind::Val => Way::NextStatementSome,
        Kind::Var => Way::NextStatementSome,
        Kind::When => Way::NextStatementSome,
        Kind::While => Way::NextStatementSome,
        Kind::OpenRound => Way::NextStatementSome,
        Kind::Not => Way::NextStatementSome,
        Kind::Sign => Way::NextStatementSome,
        Kind::Step => Way::NextStatementSome,
        _ => Way::NextStatementNone,
    }
}

fn choose_statement(kind: Kind) -> Way
    ensures { result ≡ choice.choose_statement kind }
{
    match kind {
        Kind::Label => Way::StatementLabelled,
        Kind::LabelModifier => Way::StatementLabelled,
        Kind::LabelAnnotation => Way::StatementLabelled,
        Kind::SynchronizedBlock => Way::StatementSynchronized,
        Kind::Break => Way::StatementBreak,
        Kind::Continue => Way::StatementContinue,
        Kind::Do => Way::StatementLoop,
        Kind::For => Way::StatementLoop,
        Kind::If => Way::StatementIf,
        Kind::Return => Way::StatementReturn,
        Kind::Throw => Way::StatementThrow,
        Kind::Try => Way::StatementTry,
        Kind::Val => Way::StatementLocal,
        Kind::Var => Way::StatementLocal,
        Kind::When => Way::StatementWhen,
        Kind::While => Way::StatementLoop,
        Kind::Not => Way::StatementPrefix,
        Kind::Sign => Way::StatementPrefix,
        Kind::Step => Way::StatementPrefix,
        _ => Way::StatementPlain,
    }
}

fn choose_local_value(kind: Kind) -> Way
    ensures { result ≡ choice.choose_local_value kind }
{
    match kind {
        Kind::Assign => Way::LocalSome,
        _ => Way::LocalNone,
    }
}

fn choose_loop(kind: Kind) -> Way
    ensures { result ≡ choice.choose_loop kind }
{
    match kind {
        Kind::Do => Way::LoopDo,
        Kind::For => Way::LoopFor,
        _ => Way::LoopWhile,
    }
}

fn choose_for_rest(kind: Kind) -> Way
    ensures { result ≡ choice.choose_for_rest kind }
{
    match kind {
        Kind::CloseRound => Way::ForEach,
        _ => Way::ForRange,
    }
}

fn choose_if_rest(kind: Kind) -> Way
    ensures { result ≡ choice.choose_if_rest kind }
{
    match kind {
        Kind::OpenCurly => Way::IfBlock,
        _ => Way::IfValue,
    }
}

fn choose_else_rest(kind: Kind) -> Way
    ensures { result ≡ choice.choose_else_rest kind }
{
    match kind {
        Kind::Else => Way::ElseSome,
        _ => Way::ElseNone,
    }
}

fn choose_else_body(kind: Kind) -> Way
    ensures { result ≡ choice.choose_else_body kind }
{
    match kind {
        Kind::If => Way::ElseIf,
        _ => Way::ElseBlock,
    }
}

fn choose_first_case(kind: Kind) -> Way
    ensures { result ≡ choice.choose_first_case kind }
{
    match kind {
        Kind::ElseArrow => Way::FirstElse,
        _ => Way::FirstNext,
    }
}

fn choose_first_body(kind: Kind) -> Way
    ensures { result ≡ choice.choose_first_body kind }
{
    match kind {
        Kind::OpenCurly => Way::FirstBranch,
        _ => Way::FirstChoice,
    }
}

fn choose_first_else_body(kind: Kind) -> Way
    ensures { result ≡ choice.choose_first_else_body kind }
{
    match kind {
        Kind::OpenCurly => Way::FirstElseBranch,
        _ => Way::FirstElseChoice,
    }
}

fn choose_branches(kind: Kind) -> Way
    ensures { result ≡ choice.choose_branches kind }
{
    match kind {
        Kind::ElseArrow => Way::BranchElse,
        _ => Way::BranchNext,
    }
}

fn choose_choices(kind: Kind) -> Way
    ensures { result ≡ choice.choose_choices kind }
{
    match kind {
        Kind::ElseArrow => Way::ChoiceElse,
        _ => Way::ChoiceNext,
    }
}

fn choose_optional_ends(kind: Kind) -> Way
    ensures { result ≡ choice.choose_optional_ends kind }
{
    match kind {
        Kind::Broken => Way::OptionalEndsSome,
        Kind::BrokenWhile => Way::OptionalEndsSome,
        Kind::BrokenSet => Way::OptionalEndsSome,
        _ => Way::OptionalEndsNone,
    }
}

fn choose_target(kind: Kind) -> Way
    ensures { result ≡ choice.choose_target kind }
{
    match kind {
        Kind::At => Way::TargetSome,
        _ => Way::TargetNone,
    }
}

fn choose_given(kind: Kind) -> Way
    ensures { result ≡ choice.choose_given kind }
{
    match kind {
        Kind::Name => Way::GivenSome,
        Kind::NameArguments => Way::GivenSome,
        Kind::NameLess => Way::GivenSome,
        Kind::InfixWord => Way::GivenSome,
        Kind::UntilWord => Way::GivenSome,
        Kind::CompanionWord => Way::GivenSome,
        Kind::InitWord => Way::GivenSome,
        Kind::ConstructorWord => Way::GivenSome,
        Kind::SetWord => Way::GivenSome,
        Kind::JavaWord => Way::GivenSome,
        Kind::ImportWord => Way::GivenSome,
        Kind::PrivateWord => Way::GivenSome,
        Kind::PrivateSet => Way::GivenSome,
        Kind::ModifierWord => Way::GivenSome,
        Kind::AnnotationWord => Way::GivenSome,
        Kind::RunBlock => Way::GivenSome,
        Kind::Literal => Way::GivenSome,
        Kind::If => Way::GivenSome,
        Kind::SuperWord => Way::GivenSome,
        Kind::This => Way::GivenSome,
        Kind::When => Way::GivenSome,
        Kind::OpenRound => Way::GivenSome,
        Kind::Not => Way::GivenSome,
        Kind::Sign => Way::GivenSome,
        Kind::Step => Way::GivenSome,
        _ => Way::GivenNone,
    }
}

fn choose_catches(kind: Kind) -> Way
    ensures { result ≡ choice.choose_catches kind }
{
    match kind {
        Kind::Catch => Way::CatchesSome,
        _ => Way::CatchesEnd,
    }
}

fn choose_finally(kind: Kind) -> Way
    ensures { result ≡ choice.choose_finally kind }
{
    match kind {
        Kind::FinallyWord => Way::FinallySome,
        _ => Way::FinallyNone,
    }
}

fn choose_store(kind: Kind) -> Way
    ensures { result ≡ choice.choose_store kind }
{
    match kind {
        Kind::Assign => Way::StoreSome,
        _ => Way::StoreNone,
    }
}

fn choose_expr(kind: Kind) -> Way
    ensures { result ≡ choice.choose_expr kind }
{
    match kind {
        Kind::If => Way::ExprIf,
        _ => Way::ExprOr,
    }
}

fn choose_or_tail(kind: Kind) -> Way
    ensures { result ≡ choice.choose_or_tail kind }
{
    match kind {
        Kind::OrOr => Way::OrMore,
        _ => Way::OrEnd,
    }
}

fn choose_and_tail(kind: Kind) -> Way
    ensures { result ≡ choice.choose_and_tail kind }
{
    match kind {
        Kind::AndAnd => Way::AndMore,
        _ => Way::AndEnd,
    }
}

fn choose_equal_tail(kind: Kind) -> Way
    ensures { result ≡ choice.choose_equal_tail kind }
{
    match kind {
        Kind::Equality => Way::EqualMore,
        _ => Way::EqualEnd,
    }
}

fn choose_compare_tail(kind: Kind) -> Way
    ensures { result ≡ choice.choose_compare_tail kind }
{
    match kind {
        Kind::Less => Way::CompareMore,
        Kind::Greater => Way::CompareMore,
        Kind::Compare => Way::CompareMore,
        _ => Way::CompareEnd,
    }
}

fn choose_is_tail(kind: Kind) -> Way
    ensures { result ≡ choice.choose_is_tail kind }
{
    match kind {
        Kind::Is => Way::IsMore,
        _ => Way::IsEnd,
    }
}

fn choose_infix_tail(kind: Kind) -> Way
    ensures { result ≡ choice.choose_infix_tail kind }
{
    match kind {
        Kind::InfixWord => Way::InfixMore,
        _ => Way::InfixEnd,
    }
}

fn choose_sum_tail(kind: Kind) -> Way
    ensures { result ≡ choice.choose_sum_tail kind }
{
    match kind {
        Kind::Sign => Way::SumMore,
        _ => Way::SumEnd,
    }
}

fn choose_product_tail(kind: Kind) -> Way
    ensures { result ≡ choice.choose_product_tail kind }
{
    match kind {
        Kind::Times => Way::ProductMore,
        _ => Way::ProductEnd,
    }
}

fn choose_cast_tail(kind: Kind) -> Way
    ensures { result ≡ choice.choose_cast_tail kind }
{
    match kind {
        Kind::As => Way::CastMore,
        _ => Way::CastEnd,
    }
}

fn choose_prefixed(kind: Kind) -> Way
    ensures { result ≡ choice.choose_prefixed kind }
{
    match kind {
        Kind::Not => Way::PrefixedMark,
        Kind::Sign => Way::PrefixedMark,
        Kind::Step => Way::PrefixedMark,
        _ => Way::PrefixedOperand,
    }
}

fn choose_operand(kind: Kind) -> Way
    ensures { result ≡ choice.choose_operand kind }
{
    match kind {
        Kind::When => Way::OperandWhen,
        _ => Way::OperandPlain,
    }
}

fn choose_plain(kind: Kind) -> Way
    ensures { result ≡ choice.choose_plain kind }
{
    match kind {
        Kind::NameArguments => Way::PlainGeneric,
        Kind::RunBlock => Way::PlainRun,
        Kind::Literal => Way::PlainLiteral,
        Kind::SuperWord => Way::PlainSuper,
        Kind::This => Way::PlainThis,
        Kind::OpenRound => Way::PlainParen,
        _ => Way::PlainNamed,
    }
}

fn choose_named(kind: Kind) -> Way
    ensures { result ≡ choice.choose_named kind }
{
    match kind {
        Kind::OpenRound => Way::NamedCall,
        _ => Way::NamedOnly,
    }
}

fn choose_generic(kind: Kind) -> Way
    ensures { result ≡ choice.choose_generic kind }
{
    match kind {
        Kind::OpenRound => Way::GenericCall,
        _ => Way::GenericLambda,
    }
}

fn choose_suffixes(kind: Kind) -> Way
    ensures { result ≡ choice.choose_suffixes kind }
{
    match kind {
        Kind::OpenSquare => Way::SuffixIndex,
        Kind::OpenCurly => Way::SuffixLambda,
        Kind::OpenParameters => Way::SuffixNamedLambda,
        Kind::Dot => Way::SuffixDot,
        Kind::Question => Way::SuffixNullable,
        Kind::DoubleColon => Way::SuffixClass,
        Kind::NotNull => Way::SuffixMark,
        Kind::Step => Way::SuffixMark,
        _ => Way::SuffixesEnd,
    }
}

fn choose_after_dot(kind: Kind) -> Way
    ensures { result ≡ choice.choose_after_dot kind }
{
    match kind {
        Kind::NameArguments => Way::DotGeneric,
        _ => Way::DotNamed,
    }
}

fn choose_dotted(kind: Kind) -> Way
    ensures { result ≡ choice.choose_dotted kind }
{
    match kind {
        Kind::OpenRound => Way::DottedCall,
        _ => Way::DottedOnly,
    }
}

fn choose_dotted_generic(kind: Kind) -> Way
    ensures { result ≡ choice.choose_dotted_generic kind }
{
    match kind {
        Kind::OpenRound => Way::DottedGenericCall,
        _ => Way::DottedGenericLambda,
    }
}

fn choose_faced(kind: Kind) -> Way
    ensures { result ≡ choice.choose_faced kind }
{
    match kind {
        Kind::Question => Way::FacedNullable,
        _ => Way::FacedPlain,
    }
}

fn choose_lambda(kind: Kind) -> Way
    ensures { result ≡ choice.choose_lambda kind }
{
    match kind {
        Kind::OpenParameters => Way::LambdaNamed,
        _ => Way::LambdaPlain,
    }
}

fn choose_names(kind: Kind) -> Way
    ensures { result ≡ choice.choose_names kind }
{
    match kind {
        Kind::Name => Way::NamesSome,
        Kind::NameLess => Way::NamesSome,
        Kind::InfixWord => Way::NamesSome,
        Kind::UntilWord => Way::NamesSome,
        Kind::CompanionWord => Way::NamesSome,
        Kind::InitWord => Way::NamesSome,
        Kind::ConstructorWord => Way::NamesSome,
        Kind::SetWord => Way::NamesSome,
        Kind::JavaWord => Way::NamesSome,
        Kind::ImportWord => Way::NamesSome,
        Kind::PrivateWord => Way::NamesSome,
        Kind::PrivateSet => Way::NamesSome,
        Kind::ModifierWord => Way::NamesSome,
        Kind::AnnotationWord => Way::NamesSome,
        _ => Way::NamesNone,
    }
}

fn choose_more_names(kind: Kind) -> Way
    ensures { result ≡ choice.choose_more_names kind }
{
    match kind {
        Kind::Comma => Way::NamesMore,
        _ => Way::NamesEnd,
    }
}

fn choose_args(kind: Kind) -> Way
    ensures { result ≡ choice.choose_args kind }
{
    match kind {
        Kind::Name => Way::ArgsSome,
        Kind::NameArguments => Way::ArgsSome,
        Kind::NameLess => Way::ArgsSome,
        Kind::InfixWord => Way::ArgsSome,
        Kind::UntilWord => Way::ArgsSome,
        Kind::CompanionWord => Way::ArgsSome,
        Kind::InitWord => Way::ArgsSome,
        Kind::ConstructorWord => Way::ArgsSome,
        Kind::SetWord => Way::ArgsSome,
        Kind::JavaWord => Way::ArgsSome,
        Kind::ImportWord => Way::ArgsSome,
        Kind::PrivateWord => Way::ArgsSome,
        Kind::PrivateSet => Way::ArgsSome,
        Kind::ModifierWord => Way::ArgsSome,
        Kind::AnnotationWord => Way::ArgsSome,
        Kind::RunBlock => Way::ArgsSome,
        Kind::Literal => Way::ArgsSome,
        Kind::If => Way::ArgsSome,
        Kind::SuperWord => Way::ArgsSome,
        Kind::This => Way::ArgsSome,
        Kind::When => Way::ArgsSome,
        Kind::OpenRound => Way::ArgsSome,
        Kind::Not => Way::ArgsSome,
        Kind::Sign => Way::ArgsSome,
        Kind::Step => Way::ArgsSome,
        _ => Way::ArgsNone,
    }
}

fn choose_more_exprs(kind: Kind) -> Way
    ensures { result ≡ choice.choose_more_exprs kind }
{
    match kind {
        Kind::Comma => Way::ExprsMore,
        _ => Way::ExprsEnd,
    }
}

fn choose_type_path(kind: Kind) -> Way
    ensures { result ≡ choice.choose_type_path kind }
{
    match kind {
        Kind::NameArguments => Way::PathApplied,
        Kind::NameLess => Way::PathApplied,
        _ => Way::PathPlain,
    }
}

fn choose_path_more(kind: Kind) -> Way
    ensures { result ≡ choice.choose_path_more kind }
{
    match kind {
        Kind::Dot => Way::PathDot,
        _ => Way::PathEnd,
    }
}

fn choose_path_next(kind: Kind) -> Way
    ensures { result ≡ choice.choose_path_next kind }
{
    match kind {
        Kind::NameArguments => Way::NextApplied,
        Kind::NameLess => Way::NextApplied,
        _ => Way::NextPlain,
    }
}

fn choose_nullable(kind: Kind) -> Way
    ensures { result ≡ choice.choose_nullable kind }
{
    match kind {
        Kind::Question => Way::NullableSome,
        _ => Way::NullableNone,
    }
}

fn choose_more_types(kind: Kind) -> Way
    ensures { result ≡ choice.choose_more_types kind }
{
    match kind {
        Kind::Comma => Way::TypesMore,
        _ => Way::TypesEnd,
    }
}

/// The way to write the form that stands ahead of a token of the kind.
#[tactic(auto, unfolding(kotlin_grammar::specs::Choice::choose))]
pub fn choose(form: Form, kind: Kind) -> Way
    ensures { result ≡ choice.choose form kind }
{
    match form {
        Form::FileHead => choose_file_head(kind),
        Form::AfterLine => choose_after_line(kind),
        Form::Lines => choose_lines(kind),
        Form::Qualified => Way::QualifiedName,
        Form::QualifiedMore => choose_qualified_more(kind),
        Form::ClassForm => Way::ClassWhole,
        Form::ClassWord => choose_class_word(kind),
        Form::Modifiers => choose_modifiers(kind),
        Form::TypeParams => choose_type_params(kind),
        Form::TypeParam => Way::TypeParamOne,
        Form::MoreTypeParams => choose_more_type_params(kind),
        Form::Supers => choose_supers(kind),
        Form::Super => Way::SuperOne,
        Form::SuperRound => choose_super_round(kind),
        Form::MoreSupers => choose_more_supers(kind),
        Form::Typed => choose_typed(kind),
        Form::Members => choose_members(kind),
        Form::MoreMembers => choose_more_members(kind),
        Form::NextMember => choose_next_member(kind),
        Form::Member => choose_member(kind),
        Form::Modified => choose_modified(kind),
        Form::Declared => Way::DeclaredName,
        Form::Value => choose_value(kind),
        Form::Setter => choose_setter(kind),
        Form::Params => Way::ParamsWhole,
        Form::ParamList => choose_param_list(kind),
        Form::Param => Way::ParamOne,
        Form::MoreParams => choose_more_params(kind),
        Form::Body => choose_body(kind),
        Form::Delegation => choose_delegation(kind),
        Form::Block => Way::BlockWhole,
        Form::Statements => choose_statements(kind),
        Form::MoreStatements => choose_more_statements(kind),
        Form::NextStatement => choose_next_statement(kind),
        Form::Statement => choose_statement(kind),
        Form::LocalValue => choose_local_value(kind),
        Form::Loop => choose_loop(kind),
        Form::ForRest => choose_for_rest(kind),
        Form::IfRest => choose_if_rest(kind),
        Form::ElseRest => choose_else_rest(kind),
        Form::ElseBody => choose_else_body(kind),
        Form::FirstCase => choose_first_case(kind),
        Form::FirstBody => choose_first_body(kind),
        Form::FirstElseBody => choose_first_else_body(kind),
        Form::Branches => choose_branches(kind),
        Form::Choices => choose_choices(kind),
        Form::Labels => Way::LabelsSome,
        Form::OptionalEnds => choose_optional_ends(kind),
        Form::Target => choose_target(kind),
        Form::Given => choose_given(kind),
        Form::Catches => choose_catches(kind),
        Form::Finally => choose_finally(kind),
        Form::Tails => Way::TailsAll,
        Form::Store => choose_store(kind),
        Form::Expr => choose_expr(kind),
        Form::Or => Way::OrWhole,
        Form::OrTail => choose_or_tail(kind),
        Form::And => Way::AndWhole,
        Form::AndTail => choose_and_tail(kind),
        Form::Equal => Way::EqualWhole,
        Form::EqualTail => choose_equal_tail(kind),
        Form::Comparison => Way::CompareWhole,
        Form::CompareTail => choose_compare_tail(kind),
        Form::IsForm => Way::IsWhole,
        Form::IsTail => choose_is_tail(kind),
        Form::Infix => Way::InfixWhole,
        Form::InfixTail => choose_infix_tail(kind),
        Form::Sum => Way::SumWhole,
        Form::SumTail => choose_sum_tail(kind),
        Form::Product => Way::ProductWhole,
        Form::ProductTail => choose_product_tail(kind),
        Form::Cast => Way::CastWhole,
        Form::CastTail => choose_cast_tail(kind),
        Form::Prefixed => choose_prefixed(kind),
        Form::Operand => choose_operand(kind),
        Form::Plain => choose_plain(kind),
        Form::Named => choose_named(kind),
        Form::Generic => choose_generic(kind),
        Form::Suffixes => choose_suffixes(kind),
        Form::AfterDot => choose_after_dot(kind),
        Form::Dotted => choose_dotted(kind),
        Form::DottedGeneric => choose_dotted_generic(kind),
        Form::Faced => choose_faced(kind),
        Form::Lambda => choose_lambda(kind),
        Form::Names => choose_names(kind),
        Form::MoreNames => choose_more_names(kind),
        Form::Args => choose_args(kind),
        Form::MoreExprs => choose_more_exprs(kind),
        Form::Type => Way::TypeWhole,
        Form::TypePath => choose_type_path(kind),
        Form::PathMore => choose_path_more(kind),
        Form::PathNext => choose_path_next(kind),
        Form::Nullable => choose_nullable(kind),
        Form::TypeArguments => Way::TypeArgumentsWhole,
        Form::MoreTypes => choose_more_types(kind),
    }
}

/// How the form is written.
#[tactic(auto, unfolding(kotlin_grammar::specs::Table::written))]
pub fn written(way: Way) -> &'static [Symbol<Term, Form, Act>]
    ensures { result.now ≡ written_of way }
{
    match way {
        Way::FilePackage => &[
            Symbol::Term(Term::Only(Kind::Package)),
            Symbol::Form(Form::Qualified),
            Symbol::Act(Act::Package),
            Symbol::Act(Act::NoImports),
            Symbol::Form(Form::AfterLine),
        ],
        Way::FileBare => &[
            Symbol::Act(Act::NoPackage),
            Symbol::Act(Act::NoImports),
            Symbol::Form(Form::Lines),
        ],
        Way::AfterLineMore => &[Symbol::Term(Term::Ends), Symbol::Form(Form::Lines)],
        Way::AfterLineEnd => &[],
        Way::LinesImport => &[
            Symbol::Term(Term::Only(Kind::ImportWord)),
            Symbol::Form(Form::Qualified),
            Symbol::Act(Act::Import),
            Symbol::Form(Form::AfterLine),
        ],
        Way::LinesClass => &[Symbol::Form(Form::ClassForm)],
        Way::LinesEnd => &[],
        Way::QualifiedName => &[
            Symbol::Term(Term::Name),
            Symbol::Act(Act::Qualified),
            Symbol::Form(Form::QualifiedMore),
        ],
        Way::QualifiedDot => &[
            Symbol::Term(Term::Only(Kind::Dot)),
            Symbol::Term(Term::Name),
            Symbol::Act(Act::AddDotted),
            Symbol::Form(Form::QualifiedMore),
        ],
        Way::QualifiedEnd => &[],
        Way::ClassWhole => &[
            Symbol::Act(Act::NoModifiers),
            Symbol::Form(Form::Modifiers),
            Symbol::Form(Form::ClassWord),
            Symbol::Term(Term::AnyName),
            Symbol::Form(Form::TypeParams),
            Symbol::Form(Form::Supers),
            Symbol::Term(Term::Only(Kind::OpenCurly)),
            Symbol::Act(Act::NoMembers),
            Symbol::Form(Form::Members),
            Symbol::Term(Term::Only(Kind::CloseCurly)),
            Symbol::Act(Act::Class),
        ],
        Way::ClassPlain => &[
            Symbol::Term(Term::ClassOrInterface),
            Symbol::Act(Act::ClassWord),
        ],
        Way::ClassFun => &[
            Symbol::Term(Term::Only(Kind::Fun)),
            Symbol::Term(Term::ClassOrInterface),
            Symbol::Act(Act::FunClassWord),
        ],
        Way::ModifiersWord => &[
            Symbol::Term(Term::Modifier),
            Symbol::Act(Act::AddModifier),
            Symbol::Form(Form::Modifiers),
        ],
        Way::ModifiersAt => &[
            Symbol::Term(Term::Only(Kind::At)),
            Symbol::Term(Term::Annotation),
            Symbol::Act(Act::AddAnnotation),
            Symbol::Form(Form::Modifiers),
        ],
        Way::ModifiersEnd => &[],
        Way::TypeParamsSome => &[
            Symbol::Term(Term::TypeLess),
            Symbol::Act(Act::NoTypeParams),
            Symbol::Form(Form::TypeParam),
            Symbol::Form(Form::MoreTypeParams),
            Symbol::Term(Term::Only(Kind::Greater)),
            Symbol::Act(Act::TypeParams),
        ],
        Way::TypeParamsNone => &[Symbol::Act(Act::NoneOfTypeParams)],
        Way::TypeParamOne => &[
            Symbol::Term(Term::Name),
            Symbol::Form(Form::Typed),
            Symbol::Act(Act::AddTypeParam),
        ],
        Way::TypeParamsMore => &[
            Symbol::Term(Term::Only(Kind::Comma)),
            Symbol::Act(Act::AddComma),
            Symbol::Form(Form::TypeParam),
            Symbol::Form(Form::MoreTypeParams),
        ],
        Way::TypeParamsEnd => &[],
        Way::SupersSome => &[
            Symbol::Term(Term::Only(Kind::Colon)),
            Symbol::Act(Act::NoSupers),
            Symbol::Form(Form::Super),
            Symbol::Form(Form::MoreSupers),
            Symbol::Act(Act::Supers),
        ],
        Way::SupersNone => &[Symbol::Act(Act::NoneOfSupers)],
        Way::SuperOne => &[Symbol::Form(Form::Type), Symbol::Form(Form::SuperRound)],
        Way::SuperCalled => &[
            Symbol::Term(Term::Only(Kind::OpenRound)),
            Symbol::Term(Term::Only(Kind::CloseRound)),
            Symbol::Act(Act::AddCalledSuper),
        ],
        Way::SuperPlain => &[Symbol::Act(Act::AddSuper)],
        Way::SupersMore => &[
            Symbol::Term(Term::Only(Kind::Comma)),
            Symbol::Act(Act::AddComma),
            Symbol::Form(Form::Super),
            Symbol::Form(Form::MoreSupers),
        ],
        Way::SupersEnd => &[],
        Way::TypedSome => &[
            Symbol::Term(Term::Only(Kind::Colon)),
            Symbol::Form(Form::Type),
            Symbol::Act(Act::Typed),
        ],
        Way::TypedNone => &[Symbol::Act(Act::Untyped)],
        Way::MembersSome => &[
            Symbol::Form(Form::Member),
            Symbol::Act(Act::AddMember),
            Symbol::Form(Form::MoreMembers),
        ],
        Way::MembersEnds => &[Symbol::Term(Term::MemberEnds)],
        Way::MembersNone => &[],
        Way::MembersMore => &[
            Symbol::Term(Term::MemberEnds),
            Symbol::Form(Form::NextMember),
        ],
        Way::MembersEnd => &[],
        Way::NextMemberSome => &[
            Symbol::Form(Form::Member),
            Symbol::Act(Act::AddMember),
            Symbol::Form(Form::MoreMembers),
        ],
        Way::NextMemberNone => &[],
        Way::MemberInit => &[
            Symbol::Term(Term::Only(Kind::InitWord)),
            Symbol::Form(Form::Block),
            Symbol::Act(Act::Init),
        ],
        Way::MemberCompanion => &[
            Symbol::Term(Term::Only(Kind::CompanionWord)),
            Symbol::Term(Term::Only(Kind::Object)),
            Symbol::Term(Term::Only(Kind::OpenCurly)),
            Symbol::Act(Act::NoMembers),
            Symbol::Form(Form::Members),
            Symbol::Term(Term::Only(Kind::CloseCurly)),
            Symbol::Act(Act::Companion),
        ],
        Way::MemberModified => &[
            Symbol::Act(Act::NoModifiers),
            Symbol::Form(Form::Modifiers),
            Symbol::Form(Form::Modified),
        ],
        Way::ModifiedProperty => &[
            Symbol::Form(Form::Declared),
            Symbol::Form(Form::Value),
            Symbol::Form(Form::Setter),
            Symbol::Act(Act::Property),
        ],
        Way::ModifiedFunction => &[
            Symbol::Term(Term::Only(Kind::Fun)),
            Symbol::Term(Term::Name),
            Symbol::Form(Form::Params),
            Symbol::Form(Form::Typed),
            Symbol::Form(Form::Body),
            Symbol::Act(Act::Function),
        ],
        Way::ModifiedConstructor => &[
            Symbol::Term(Term::Only(Kind::ConstructorWord)),
            Symbol::Form(Form::Params),
            Symbol::Form(Form::Delegation),
            Symbol::Form(Form::Block),
            Symbol::Act(Act::Constructor),
        ],
        Way::DeclaredName => &[
            Symbol::Term(Term::Variability),
            Symbol::Term(Term::Name),
            Symbol::Term(Term::Only(Kind::Colon)),
            Symbol::Form(Form::Type),
            Symbol::Act(Act::Declared),
        ],
        Way::ValueSome => &[
            Symbol::Term(Term::Only(Kind::Assign)),
            Symbol::Form(Form::Expr),
            Symbol::Act(Act::Value),
        ],
        Way::ValueNone => &[Symbol::Act(Act::NoValue)],
        Way::SetterSome => &[
            Symbol::Term(Term::PrivateOfSet),
            Symbol::Term(Term::Only(Kind::SetWord)),
            Symbol::Act(Act::Setter),
        ],
        Way::SetterNone => &[Symbol::Act(Act::NoSetter)],
        Way::ParamsWhole => &[
            Symbol::Term(Term::Only(Kind::OpenRound)),
            Symbol::Act(Act::NoParams),
            Symbol::Form(Form::ParamList),
            Symbol::Term(Term::Only(Kind::CloseRound)),
            Symbol::Act(Act::Params),
        ],
        Way::ParamsSome => &[Symbol::Form(Form::Param), Symbol::Form(Form::MoreParams)],
        Way::ParamsNone => &[],
        Way::ParamOne => &[
            Symbol::Term(Term::Name),
            Symbol::Term(Term::Only(Kind::Colon)),
            Symbol::Form(Form::Type),
            Symbol::Act(Act::AddParam),
        ],
        Way::ParamsMore => &[
            Symbol::Term(Term::Only(Kind::Comma)),
            Symbol::Act(Act::AddComma),
            Symbol::Form(Form::Param),
            Symbol::Form(Form::MoreParams),
        ],
        Way::ParamsEnd => &[],
        Way::BodySome => &[Symbol::Form(Form::Block), Symbol::Act(Act::Body)],
        Way::BodyNone => &[Symbol::Act(Act::NoBody)],
        Way::DelegationSome => &[
            Symbol::Term(Term::Only(Kind::Colon)),
            Symbol::Term(Term::ThisOrSuper),
            Symbol::Term(Term::Only(Kind::OpenRound)),
            Symbol::Form(Form::Args),
            Symbol::Term(Term::Only(Kind::CloseRound)),
            Symbol::Act(Act::Delegation),
        ],
        Way::DelegationNone => &[Symbol::Act(Act::NoDelegation)],
        Way::BlockWhole => &[
            Symbol::Term(Term::Only(Kind::OpenCurly)),
            Symbol::Act(Act::NoStatements),
            Symbol::Form(Form::Statements),
            Symbol::Term(Term::Only(Kind::CloseCurly)),
            Symbol::Act(Act::Block),
        ],
        Way::StatementsSome => &[
            Symbol::Form(Form::Statement),
            Symbol::Act(Act::AddStatement),
            Symbol::Form(Form::MoreStatements),
        ],
        Way::StatementsEnds => &[Symbol::Term(Term::Ends)],
        Way::StatementsNone => &[],
        Way::StatementsMore => &[Symbol::Term(Term::Ends), Symbol::Form(Form::NextStatement)],
        Way::StatementsEnd => &[],
        Way::NextStatementSome => &[
            Symbol::Form(Form::Statement),
            Symbol::Act(Act::AddStatement),
            Symbol::Form(Form::MoreStatements),
        ],
        Way::NextStatementNone => &[],
        Way::StatementLocal => &[Symbol::Form(Form::Declared), Symbol::Form(Form::LocalValue)],
        Way::StatementLabelled => &[
            Symbol::Term(Term::LabelName),
            Symbol::Term(Term::Only(Kind::At)),
            Symbol::Act(Act::Label),
            Symbol::Form(Form::Loop),
        ],
        Way::StatementLoop => &[Symbol::Act(Act::NoLabel), Symbol::Form(Form::Loop)],
        Way::StatementIf => &[
            Symbol::Term(Term::Only(Kind::If)),
            Symbol::Term(Term::Only(Kind::OpenRound)),
            Symbol::Form(Form::Expr),
            Symbol::Term(Term::Only(Kind::CloseRound)),
            Symbol::Form(Form::IfRest),
        ],
        Way::StatementWhen => &[
            Symbol::Term(Term::Only(Kind::When)),
            Symbol::Term(Term::Only(Kind::OpenRound)),
            Symbol::Form(Form::Expr),
            Symbol::Term(Term::Only(Kind::CloseRound)),
            Symbol::Term(Term::WhenCurly),
            Symbol::Form(Form::FirstCase),
        ],
        Way::StatementBreak => &[
            Symbol::Term(Term::Only(Kind::Break)),
            Symbol::Form(Form::Target),
            Symbol::Act(Act::Break),
        ],
        Way::StatementContinue => &[
            Symbol::Term(Term::Only(Kind::Continue)),
            Symbol::Form(Form::Target),
            Symbol::Act(Act::Continue),
        ],
        Way::StatementReturn => &[
            Symbol::Term(Term::Only(Kind::Return)),
            Symbol::Form(Form::Target),
            Symbol::Form(Form::Given),
        ],
        Way::StatementThrow => &[
            Symbol::Term(Term::Only(Kind::Throw)),
            Symbol::Form(Form::Expr),
            Symbol::Act(Act::Throw),
        ],
        Way::StatementTry => &[
            Symbol::Term(Term::Only(Kind::Try)),
            Symbol::Form(Form::Block),
            Symbol::Act(Act::NoCatches),
            Symbol::Form(Form::Catches),
            Symbol::Form(Form::Finally),
        ],
        Way::StatementSynchronized => &[
            Symbol::Term(Term::Only(Kind::SynchronizedBlock)),
            Symbol::Term(Term::Only(Kind::OpenRound)),
            Symbol::Form(Form::Expr),
            Symbol::Term(Term::Only(Kind::CloseRound)),
            Symbol::Form(Form::Block),
            Symbol::Act(Act::Synchronized),
        ],
        Way::StatementPrefix => &[
            Symbol::Term(Term::PrefixMark),
            Symbol::Form(Form::Prefixed),
            Symbol::Act(Act::Prefix),
            Symbol::Form(Form::Tails),
        ],
        Way::StatementPlain => &[
            Symbol::Form(Form::Plain),
            Symbol::Form(Form::Suffixes),
            Symbol::Form(Form::Tails),
        ],
        Way::LocalSome => &[
            Symbol::Term(Term::Only(Kind::Assign)),
            Symbol::Form(Form::Expr),
            Symbol::Act(Act::Local),
        ],
        Way::LocalNone => &[Symbol::Act(Act::Unset)],
        Way::LoopWhile => &[
            Symbol::Term(Term::Only(Kind::While)),
            Symbol::Term(Term::Only(Kind::OpenRound)),
            Symbol::Form(Form::Expr),
            Symbol::Term(Term::Only(Kind::CloseRound)),
            Symbol::Form(Form::Block),
            Symbol::Act(Act::While),
        ],
        Way::LoopDo => &[
            Symbol::Term(Term::Only(Kind::Do)),
            Symbol::Form(Form::Block),
            Symbol::Term(Term::WhileOfDo),
            Symbol::Term(Term::Only(Kind::OpenRound)),
            Symbol::Form(Form::Expr),
            Symbol::Term(Term::Only(Kind::CloseRound)),
            Symbol::Act(Act::DoWhile),
        ],
        Way::LoopFor => &[
            Symbol::Term(Term::Only(Kind::For)),
            Symbol::Term(Term::Only(Kind::OpenRound)),
            Symbol::Term(Term::Name),
            Symbol::Term(Term::Only(Kind::In)),
            Symbol::Form(Form::Expr),
            Symbol::Form(Form::ForRest),
        ],
        Way::ForRange => &[
            Symbol::Term(Term::Only(Kind::UntilWord)),
            Symbol::Form(Form::Expr),
            Symbol::Term(Term::Only(Kind::CloseRound)),
            Symbol::Form(Form::Block),
            Symbol::Act(Act::ForRange),
        ],
        Way::ForEach => &[
            Symbol::Term(Term::Only(Kind::CloseRound)),
            Symbol::Form(Form::Block),
            Symbol::Act(Act::For),
        ],
        Way::IfBlock => &[Symbol::Form(Form::Block), Symbol::Form(Form::ElseRest)],
        Way::IfValue => &[
            Symbol::Form(Form::Expr),
            Symbol::Term(Term::Only(Kind::Else)),
            Symbol::Form(Form::Expr),
            Symbol::Act(Act::IfValue),
            Symbol::Act(Act::Expression),
        ],
        Way::ElseSome => &[
            Symbol::Term(Term::Only(Kind::Else)),
            Symbol::Form(Form::ElseBody),
        ],
        Way::ElseNone => &[Symbol::Act(Act::If)],
        Way::ElseBlock => &[Symbol::Form(Form::Block), Symbol::Act(Act::IfElse)],
        Way::ElseIf => &[
            Symbol::Term(Term::Only(Kind::If)),
            Symbol::Term(Term::Only(Kind::OpenRound)),
            Symbol::Form(Form::Expr),
            Symbol::Term(Term::Only(Kind::CloseRound)),
            Symbol::Form(Form::Block),
            Symbol::Form(Form::ElseRest),
            Symbol::Act(Act::IfElseIf),
        ],
        Way::FirstElse => &[
            Symbol::Term(Term::Only(Kind::ElseArrow)),
            Symbol::Term(Term::Only(Kind::Arrow)),
            Symbol::Form(Form::FirstElseBody),
        ],
        Way::FirstNext => &[
            Symbol::Form(Form::Labels),
            Symbol::Term(Term::Only(Kind::Arrow)),
            Symbol::Form(Form::FirstBody),
        ],
        Way::FirstBranch => &[
            Symbol::Form(Form::Block),
            Symbol::Act(Act::Branch),
            Symbol::Act(Act::NoBranches),
            Symbol::Act(Act::AddBranch),
            Symbol::Term(Term::Ends),
            Symbol::Form(Form::Branches),
            Symbol::Term(Term::Only(Kind::CloseCurly)),
            Symbol::Act(Act::WhenBranches),
        ],
        Way::FirstChoice => &[
            Symbol::Form(Form::Expr),
            Symbol::Act(Act::Choice),
            Symbol::Act(Act::NoChoices),
            Symbol::Act(Act::AddChoice),
            Symbol::Term(Term::Ends),
            Symbol::Form(Form::Choices),
            Symbol::Term(Term::Only(Kind::CloseCurly)),
            Symbol::Act(Act::WhenChoices),
            Symbol::Form(Form::Suffixes),
            Symbol::Form(Form::Tails),
        ],
        Way::FirstElseBranch => &[
            Symbol::Act(Act::NoBranches),
            Symbol::Form(Form::Block),
            Symbol::Form(Form::OptionalEnds),
            Symbol::Term(Term::Only(Kind::CloseCurly)),
            Symbol::Act(Act::WhenBranches),
        ],
        Way::FirstElseChoice => &[
            Symbol::Act(Act::NoChoices),
            Symbol::Form(Form::Expr),
            Symbol::Form(Form::OptionalEnds),
            Symbol::Term(Term::Only(Kind::CloseCurly)),
            Symbol::Act(Act::WhenChoices),
            Symbol::Form(Form::Suffixes),
            Symbol::Form(Form::Tails),
        ],
        Way::BranchElse => &[
            Symbol::Term(Term::Only(Kind::ElseArrow)),
            Symbol::Term(Term::Only(Kind::Arrow)),
            Symbol::Form(Form::Block),
            Symbol::Form(Form::OptionalEnds),
        ],
        Way::BranchNext => &[
            Symbol::Form(Form::Labels),
            Symbol::Term(Term::Only(Kind::Arrow)),
            Symbol::Form(Form::Block),
            Symbol::Act(Act::Branch),
            Symbol::Act(Act::AddBranch),
            Symbol::Term(Term::Ends),
            Symbol::Form(Form::Branches),
        ],
        Way::ChoiceElse => &[
            Symbol::Term(Term::Only(Kind::ElseArrow)),
            Symbol::Term(Term::Only(Kind::Arrow)),
            Symbol::Form(Form::Expr),
            Symbol::Form(Form::OptionalEnds),
        ],
        Way::ChoiceNext => &[
            Symbol::Form(Form::Labels),
            Symbol::Term(Term::Only(Kind::Arrow)),
            Symbol::Form(Form::Expr),
            Symbol::Act(Act::Choice),
            Symbol::Act(Act::AddChoice),
            Symbol::Term(Term::Ends),
            Symbol::Form(Form::Choices),
        ],
        Way::LabelsSome => &[
            Symbol::Act(Act::NoExprs),
            Symbol::Form(Form::Expr),
            Symbol::Act(Act::AddExpr),
            Symbol::Form(Form::MoreExprs),
        ],
        Way::OptionalEndsSome => &[Symbol::Term(Term::Ends)],
        Way::OptionalEndsNone => &[],
        Way::TargetSome => &[
            Symbol::Term(Term::Only(Kind::At)),
            Symbol::Term(Term::TargetName),
            Symbol::Act(Act::Target),
        ],
        Way::TargetNone => &[Symbol::Act(Act::NoTarget)],
        Way::GivenSome => &[Symbol::Form(Form::Expr), Symbol::Act(Act::Give)],
        Way::GivenNone => &[Symbol::Act(Act::Return)],
        Way::CatchesSome => &[
            Symbol::Term(Term::Only(Kind::Catch)),
            Symbol::Term(Term::Only(Kind::OpenRound)),
            Symbol::Term(Term::Name),
            Symbol::Term(Term::Only(Kind::Colon)),
            Symbol::Form(Form::Type),
            Symbol::Term(Term::Only(Kind::CloseRound)),
            Symbol::Form(Form::Block),
            Symbol::Act(Act::Catch),
            Symbol::Act(Act::AddCatch),
            Symbol::Form(Form::Catches),
        ],
        Way::CatchesEnd => &[],
        Way::FinallySome => &[
            Symbol::Term(Term::Only(Kind::FinallyWord)),
            Symbol::Form(Form::Block),
            Symbol::Act(Act::TryFinally),
        ],
        Way::FinallyNone => &[Symbol::Act(Act::Try)],
        Way::TailsAll => &[
            Symbol::Form(Form::CastTail),
            Symbol::Form(Form::ProductTail),
            Symbol::Form(Form::SumTail),
            Symbol::Form(Form::InfixTail),
            Symbol::Form(Form::IsTail),
            Symbol::Form(Form::CompareTail),
            Symbol::Form(Form::EqualTail),
            Symbol::Form(Form::AndTail),
            Symbol::Form(Form::OrTail),
            Symbol::Form(Form::Store),
        ],
        Way::StoreSome => &[
            Symbol::Term(Term::Only(Kind::Assign)),
            Symbol::Form(Form::Expr),
            Symbol::Act(Act::Assign),
        ],
        Way::StoreNone => &[Symbol::Act(Act::Expression)],
        Way::ExprIf => &[
            Symbol::Term(Term::Only(Kind::If)),
            Symbol::Term(Term::Only(Kind::OpenRound)),
            Symbol::Form(Form::Expr),
            Symbol::Term(Term::Only(Kind::CloseRound)),
            Symbol::Form(Form::Expr),
            Symbol::Term(Term::Only(Kind::Else)),
            Symbol::Form(Form::Expr),
            Symbol::Act(Act::IfValue),
        ],
        Way::ExprOr => &[Symbol::Form(Form::Or)],
        Way::OrWhole => &[Symbol::Form(Form::And), Symbol::Form(Form::OrTail)],
        Way::OrMore => &[
            Symbol::Term(Term::Only(Kind::OrOr)),
            Symbol::Form(Form::And),
            Symbol::Act(Act::Binary),
            Symbol::Form(Form::OrTail),
        ],
        Way::OrEnd => &[],
        Way::AndWhole => &[Symbol::Form(Form::Equal), Symbol::Form(Form::AndTail)],
        Way::AndMore => &[
            Symbol::Term(Term::Only(Kind::AndAnd)),
            Symbol::Form(Form::Equal),
            Symbol::Act(Act::Binary),
            Symbol::Form(Form::AndTail),
        ],
        Way::AndEnd => &[],
        Way::EqualWhole => &[
            Symbol::Form(Form::Comparison),
            Symbol::Form(Form::EqualTail),
        ],
        Way::EqualMore => &[
            Symbol::Term(Term::Only(Kind::Equality)),
            Symbol::Form(Form::Comparison),
            Symbol::Act(Act::Binary),
            Symbol::Form(Form::EqualTail),
        ],
        Way::EqualEnd => &[],
        Way::CompareWhole => &[Symbol::Form(Form::IsForm), Symbol::Form(Form::CompareTail)],
        Way::CompareMore => &[
            Symbol::Term(Term::CompareMark),
            Symbol::Form(Form::IsForm),
            Symbol::Act(Act::Binary),
            Symbol::Form(Form::CompareTail),
        ],
        Way::CompareEnd => &[],
        Way::IsWhole => &[Symbol::Form(Form::Infix), Symbol::Form(Form::IsTail)],
        Way::IsMore => &[
            Symbol::Term(Term::Only(Kind::Is)),
            Symbol::Form(Form::Type),
            Symbol::Act(Act::Is),
            Symbol::Form(Form::IsTail),
        ],
        Way::IsEnd => &[],
        Way::InfixWhole => &[Symbol::Form(Form::Sum), Symbol::Form(Form::InfixTail)],
        Way::InfixMore => &[
            Symbol::Term(Term::Only(Kind::InfixWord)),
            Symbol::Form(Form::Sum),
            Symbol::Act(Act::Binary),
            Symbol::Form(Form::InfixTail),
        ],
        Way::InfixEnd => &[],
        Way::SumWhole => &[Symbol::Form(Form::Product), Symbol::Form(Form::SumTail)],
        Way::SumMore => &[
            Symbol::Term(Term::Only(Kind::Sign)),
            Symbol::Form(Form::Product),
            Symbol::Act(Act::Binary),
            Symbol::Form(Form::SumTail),
        ],
        Way::SumEnd => &[],
        Way::ProductWhole => &[Symbol::Form(Form::Cast), Symbol::Form(Form::ProductTail)],
        Way::ProductMore => &[
            Symbol::Term(Term::Only(Kind::Times)),
            Symbol::Form(Form::Cast),
            Symbol::Act(Act::Binary),
            Symbol::Form(Form::ProductTail),
        ],
        Way::ProductEnd => &[],
        Way::CastWhole => &[Symbol::Form(Form::Prefixed), Symbol::Form(Form::CastTail)],
        Way::CastMore => &[
            Symbol::Term(Term::Only(Kind::As)),
            Symbol::Form(Form::Type),
            Symbol::Act(Act::As),
            Symbol::Form(Form::CastTail),
        ],
        Way::CastEnd => &[],
        Way::PrefixedMark => &[
            Symbol::Term(Term::PrefixMark),
            Symbol::Form(Form::Prefixed),
            Symbol::Act(Act::Prefix),
        ],
        Way::PrefixedOperand => &[Symbol::Form(Form::Operand), Symbol::Form(Form::Suffixes)],
        Way::OperandWhen => &[
            Symbol::Term(Term::Only(Kind::When)),
            Symbol::Term(Term::Only(Kind::OpenRound)),
            Symbol::Form(Form::Expr),
            Symbol::Term(Term::Only(Kind::CloseRound)),
            Symbol::Term(Term::WhenCurly),
            Symbol::Act(Act::NoChoices),
            Symbol::Form(Form::Choices),
            Symbol::Term(Term::Only(Kind::CloseCurly)),
            Symbol::Act(Act::WhenChoices),
        ],
        Way::OperandPlain => &[Symbol::Form(Form::Plain)],
        Way::PlainLiteral => &[
            Symbol::Term(Term::Only(Kind::Literal)),
            Symbol::Act(Act::Literal),
        ],
        Way::PlainThis => &[Symbol::Term(Term::Only(Kind::This)), Symbol::Act(Act::This)],
        Way::PlainSuper => &[
            Symbol::Term(Term::Only(Kind::SuperWord)),
            Symbol::Term(Term::Only(Kind::Dot)),
            Symbol::Term(Term::Name),
            Symbol::Term(Term::Only(Kind::OpenRound)),
            Symbol::Form(Form::Args),
            Symbol::Term(Term::Only(Kind::CloseRound)),
            Symbol::Act(Act::SuperCall),
        ],
        Way::PlainParen => &[
            Symbol::Term(Term::Only(Kind::OpenRound)),
            Symbol::Form(Form::Expr),
            Symbol::Term(Term::Only(Kind::CloseRound)),
            Symbol::Act(Act::Paren),
        ],
        Way::PlainRun => &[
            Symbol::Term(Term::Only(Kind::RunBlock)),
            Symbol::Form(Form::Block),
            Symbol::Act(Act::Run),
        ],
        Way::PlainNamed => &[Symbol::Term(Term::Name), Symbol::Form(Form::Named)],
        Way::PlainGeneric => &[
            Symbol::Term(Term::Only(Kind::NameArguments)),
            Symbol::Form(Form::TypeArguments),
            Symbol::Form(Form::Generic),
        ],
        Way::NamedCall => &[
            Symbol::Term(Term::Only(Kind::OpenRound)),
            Symbol::Form(Form::Args),
            Symbol::Term(Term::Only(Kind::CloseRound)),
            Symbol::Act(Act::Call),
        ],
        Way::NamedOnly => &[Symbol::Act(Act::Name)],
        Way::GenericCall => &[
            Symbol::Term(Term::Only(Kind::OpenRound)),
            Symbol::Form(Form::Args),
            Symbol::Term(Term::Only(Kind::CloseRound)),
            Symbol::Act(Act::GenericCall),
        ],
        Way::GenericLambda => &[Symbol::Act(Act::Applied), Symbol::Form(Form::Faced)],
        Way::SuffixDot => &[
            Symbol::Term(Term::Only(Kind::Dot)),
            Symbol::Form(Form::AfterDot),
            Symbol::Form(Form::Suffixes),
        ],
        Way::SuffixIndex => &[
            Symbol::Term(Term::Only(Kind::OpenSquare)),
            Symbol::Form(Form::Expr),
            Symbol::Term(Term::Only(Kind::CloseSquare)),
            Symbol::Act(Act::Element),
            Symbol::Form(Form::Suffixes),
        ],
        Way::SuffixMark => &[
            Symbol::Term(Term::PostfixMark),
            Symbol::Act(Act::Postfix),
            Symbol::Form(Form::Suffixes),
        ],
        Way::SuffixNullable => &[
            Symbol::Act(Act::Face),
            Symbol::Term(Term::Only(Kind::Question)),
            Symbol::Act(Act::Ask),
            Symbol::Form(Form::Lambda),
            Symbol::Form(Form::Suffixes),
        ],
        Way::SuffixLambda => &[
            Symbol::Act(Act::Face),
            Symbol::Term(Term::Only(Kind::OpenCurly)),
            Symbol::Act(Act::NoNames),
            Symbol::Act(Act::NoStatements),
            Symbol::Form(Form::Statements),
            Symbol::Term(Term::Only(Kind::CloseCurly)),
            Symbol::Act(Act::Lambda),
            Symbol::Form(Form::Suffixes),
        ],
        Way::SuffixNamedLambda => &[
            Symbol::Act(Act::Face),
            Symbol::Term(Term::Only(Kind::OpenParameters)),
            Symbol::Act(Act::NoNames),
            Symbol::Form(Form::Names),
            Symbol::Term(Term::Only(Kind::Arrow)),
            Symbol::Act(Act::NamesArrow),
            Symbol::Act(Act::NoStatements),
            Symbol::Form(Form::Statements),
            Symbol::Term(Term::Only(Kind::CloseCurly)),
            Symbol::Act(Act::Lambda),
            Symbol::Form(Form::Suffixes),
        ],
        Way::SuffixClass => &[
            Symbol::Term(Term::Only(Kind::DoubleColon)),
            Symbol::Term(Term::Only(Kind::Class)),
            Symbol::Term(Term::Only(Kind::Dot)),
            Symbol::Term(Term::Only(Kind::JavaWord)),
            Symbol::Act(Act::ClassOf),
            Symbol::Form(Form::Suffixes),
        ],
        Way::SuffixesEnd => &[],
        Way::DotNamed => &[Symbol::Term(Term::Name), Symbol::Form(Form::Dotted)],
        Way::DotGeneric => &[
            Symbol::Term(Term::Only(Kind::NameArguments)),
            Symbol::Form(Form::TypeArguments),
            Symbol::Form(Form::DottedGeneric),
        ],
        Way::DottedCall => &[
            Symbol::Term(Term::Only(Kind::OpenRound)),
            Symbol::Form(Form::Args),
            Symbol::Term(Term::Only(Kind::CloseRound)),
            Symbol::Act(Act::Method),
        ],
        Way::DottedOnly => &[Symbol::Act(Act::Field)],
        Way::DottedGenericCall => &[
            Symbol::Term(Term::Only(Kind::OpenRound)),
            Symbol::Form(Form::Args),
            Symbol::Term(Term::Only(Kind::CloseRound)),
            Symbol::Act(Act::GenericMethod),
        ],
        Way::DottedGenericLambda => &[Symbol::Act(Act::DottedApplied), Symbol::Form(Form::Faced)],
        Way::FacedNullable => &[
            Symbol::Term(Term::Only(Kind::Question)),
            Symbol::Act(Act::Ask),
            Symbol::Form(Form::Lambda),
        ],
        Way::FacedPlain => &[Symbol::Form(Form::Lambda)],
        Way::LambdaPlain => &[
            Symbol::Term(Term::Only(Kind::OpenCurly)),
            Symbol::Act(Act::NoNames),
            Symbol::Act(Act::NoStatements),
            Symbol::Form(Form::Statements),
            Symbol::Term(Term::Only(Kind::CloseCurly)),
            Symbol::Act(Act::Lambda),
        ],
        Way::LambdaNamed => &[
            Symbol::Term(Term::Only(Kind::OpenParameters)),
            Symbol::Act(Act::NoNames),
            Symbol::Form(Form::Names),
            Symbol::Term(Term::Only(Kind::Arrow)),
            Symbol::Act(Act::NamesArrow),
            Symbol::Act(Act::NoStatements),
            Symbol::Form(Form::Statements),
            Symbol::Term(Term::Only(Kind::CloseCurly)),
            Symbol::Act(Act::Lambda),
        ],
        Way::NamesSome => &[
            Symbol::Term(Term::Name),
            Symbol::Act(Act::AddName),
            Symbol::Form(Form::MoreNames),
        ],
        Way::NamesNone => &[],
        Way::NamesMore => &[
            Symbol::Term(Term::Only(Kind::Comma)),
            Symbol::Act(Act::AddNameComma),
            Symbol::Term(Term::Name),
            Symbol::Act(Act::AddName),
            Symbol::Form(Form::MoreNames),
        ],
        Way::NamesEnd => &[],
        Way::ArgsSome => &[
            Symbol::Act(Act::NoExprs),
            Symbol::Form(Form::Expr),
            Symbol::Act(Act::AddExpr),
            Symbol::Form(Form::MoreExprs),
        ],
        Way::ArgsNone => &[Symbol::Act(Act::NoExprs)],
        Way::ExprsMore => &[
            Symbol::Term(Term::Only(Kind::Comma)),
            Symbol::Act(Act::AddComma),
            Symbol::Form(Form::Expr),
            Symbol::Act(Act::AddExpr),
            Symbol::Form(Form::MoreExprs),
        ],
        Way::ExprsEnd => &[],
        Way::TypeWhole => &[Symbol::Form(Form::TypePath), Symbol::Form(Form::Nullable)],
        Way::PathPlain => &[
            Symbol::Term(Term::TypeName),
            Symbol::Act(Act::Qualified),
            Symbol::Form(Form::PathMore),
        ],
        Way::PathApplied => &[
            Symbol::Term(Term::TypeNameArguments),
            Symbol::Act(Act::Qualified),
            Symbol::Form(Form::TypeArguments),
            Symbol::Act(Act::AppliedType),
        ],
        Way::PathDot => &[
            Symbol::Term(Term::Only(Kind::Dot)),
            Symbol::Form(Form::PathNext),
        ],
        Way::PathEnd => &[Symbol::Act(Act::PlainType)],
        Way::NextPlain => &[
            Symbol::Term(Term::TypeName),
            Symbol::Act(Act::AddDotted),
            Symbol::Form(Form::PathMore),
        ],
        Way::NextApplied => &[
            Symbol::Term(Term::TypeNameArguments),
            Symbol::Act(Act::AddDotted),
            Symbol::Form(Form::TypeArguments),
            Symbol::Act(Act::AppliedType),
        ],
        Way::NullableSome => &[
            Symbol::Term(Term::Only(Kind::Question)),
            Symbol::Act(Act::Ask),
        ],
        Way::NullableNone => &[],
        Way::TypeArgumentsWhole => &[
            Symbol::Term(Term::TypeLess),
            Symbol::Act(Act::NoTypes),
            Symbol::Form(Form::Type),
            Symbol::Act(Act::AddType),
            Symbol::Form(Form::MoreTypes),
            Symbol::Term(Term::Only(Kind::Greater)),
            Symbol::Act(Act::TypeArguments),
        ],
        Way::TypesMore => &[
            Symbol::Term(Term::Only(Kind::Comma)),
            Symbol::Act(Act::AddComma),
            Symbol::Form(Form::Type),
            Symbol::Act(Act::AddType),
            Symbol::Form(Form::MoreTypes),
        ],
        Way::TypesEnd => &[],
    }
}
