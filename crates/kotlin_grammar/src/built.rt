// The parts that wait for what is built of them.

use grammar::Stack;
use kotlin_tree::{
    KBlock, KBranch, KCatch, KChoice, KClass, KClassWord, KDeclared, KDelegation, KExpr, KImport,
    KLabel, KLambdaNames, KMember, KModifier, KName, KPackage, KParam, KParams, KPrivateSet,
    KQualified, KStmt, KSuper, KSupers, KTarget, KToken, KType, KTypeArguments, KTypeParam,
    KTypeParams, KTyped, KValue, Position,
};
use sqlite_items::{Boxed, Items};

/// The words of a class, and where `class` or `interface` stands.
#[derive(Clone, Copy)]
pub struct ClassHead {
    pub word: KClassWord,
    pub at: Position,
}

/// The parts of each type on a stack of its own, and of those that have a depth the depths on one more.
#[derive(Drop)]
pub struct Built {
    pub depths: Stack<usize>,
    pub places: Stack<Position>,
    pub tokens: Stack<KToken>,
    pub names: Stack<KName>,
    pub comma_lists: Stack<Items<Position>>,
    pub qualifieds: Stack<KQualified>,
    pub kinds: Stack<KType>,
    pub kind_lists: Stack<Items<KType>>,
    pub argument_lists: Stack<KTypeArguments>,
    pub exprs: Stack<Boxed<KExpr>>,
    pub expr_lists: Stack<Items<KExpr>>,
    pub lambda_names: Stack<KLambdaNames>,
    pub choices: Stack<KChoice>,
    pub choice_lists: Stack<Items<KChoice>>,
    pub branches: Stack<KBranch>,
    pub branch_lists: Stack<Items<KBranch>>,
    pub catches: Stack<KCatch>,
    pub catch_lists: Stack<Items<KCatch>>,
    pub blocks: Stack<KBlock>,
    pub statements: Stack<Boxed<KStmt>>,
    pub statement_lists: Stack<Items<KStmt>>,
    pub targets: Stack<Option<KTarget>>,
    pub labels: Stack<Option<KLabel>>,
    pub declared: Stack<KDeclared>,
    pub values: Stack<Option<KValue>>,
    pub setters: Stack<Option<KPrivateSet>>,
    pub typed: Stack<Option<KTyped>>,
    pub bodies: Stack<Option<KBlock>>,
    pub param_lists: Stack<Items<KParam>>,
    pub params: Stack<KParams>,
    pub delegations: Stack<Option<KDelegation>>,
    pub modifier_lists: Stack<Items<KModifier>>,
    pub members: Stack<Boxed<KMember>>,
    pub member_lists: Stack<Items<KMember>>,
    pub type_param_lists: Stack<Items<KTypeParam>>,
    pub type_params: Stack<Option<KTypeParams>>,
    pub super_lists: Stack<Items<KSuper>>,
    pub supers: Stack<Option<KSupers>>,
    pub class_words: Stack<ClassHead>,
    pub packages: Stack<Option<KPackage>>,
    pub import_lists: Stack<Items<KImport>>,
    pub classes: Stack<KClass>,
}
