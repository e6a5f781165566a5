// Whether two types are the same.
ghost use Rattle.std.specs.Prelude.{◌≡◌, map};
ghost use Rattle.java_type_relations.specs.Types as s;
ghost use Rattle.java_typed.specs.Reading.{shown};

use java_typed::{TType, TypeView, viewed};

/// Types in a list.
#[derive(Clone, Copy)]
struct Row<'a> {
    list: &'a [TType],
}

/// Whether two types are the same (JLS 4.3.4).
#[cycle(same)]
#[tactic(auto, unfolding(java_type_relations::specs::Types::same))]
pub fn is_same(a: &TType, b: TypeView<'_>) -> bool
    ensures { result ≡ s.same a.now (shown b.entry) }
{
    match (a, b) {
        (TType::Number(k), TypeView::Number(l)) => *k == l,
        (TType::Boolean, TypeView::Boolean) => true,
        (TType::Null, TypeView::Null) => true,
        (TType::Class(c, xs), TypeView::Class(d, ys)) => {
            *c == d && same_row(xs.as_slice(), Row { list: ys })
        }
        (TType::Variable(c, n), TypeView::Variable(d, m)) => *c == d && *n == m,
        (TType::Array(x), TypeView::Array(y)) => is_same(x.get(), viewed(y)),
        _ => false,
    }
}

#[cycle(same)]
fn same_row(xs: &[TType], ys: Row<'_>) -> bool
    ensures { result ≡ s.same_each (map s.same xs.now) ys.entry.list.now }
{
    let mut others = ys.list;
    for x in xs {
        let [y, rest @ ..] = others else {
            return false;
        };
        if !is_same(x, viewed(y)) {
            return false;
        }
        others = rest;
    }
    others.is_empty()
}

/// Whether two lists have the same types in the same order.
pub fn same_list(xs: &[TType], ys: &[TType]) -> bool
    ensures { result ≡ s.same_each (map s.same xs.now) ys.now }
{
    same_row(xs, Row { list: ys })
}

/// As `is_same`, of two views.
#[tactic(auto, unfolding(java_type_relations::specs::Types::same))]
pub fn is_same_view(a: TypeView<'_>, b: TypeView<'_>) -> bool
    ensures { result ≡ s.same (shown a.entry) (shown b.entry) }
{
    match (a, b) {
        (TypeView::Number(k), TypeView::Number(l)) => k == l,
        (TypeView::Boolean, TypeView::Boolean) => true,
        (TypeView::Null, TypeView::Null) => true,
        (TypeView::Class(c, xs), TypeView::Class(d, ys)) => c == d && same_list(xs, ys),
        (TypeView::Variable(c, n), TypeView::Variable(d, m)) => c == d && n == m,
        (TypeView::Array(x), TypeView::Array(y)) => is_same(x, viewed(y)),
        _ => false,
    }
}
