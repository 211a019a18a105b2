ghost use Rattle.std.specs.Prelude.{◌≡◌};
ghost use Rattle.std.specs.Str.{bytes_eq};
ghost use Rattle.qvt_tree.specs.Same as same;
ghost use Rattle.qvt_tree_types.specs.View as view;

use qvt_base::text::Text;
use qvt_tree_types::tree::SignList;
use qvt_tree_types::types::{ObjectVar, PathTree, TypeTree};

pub fn same_text(a: &Text, b: &Text) -> bool
    ensures { result ≡ bytes_eq a.now b.now }
{
    *a == *b
}

pub fn same_path(a: &PathTree, b: &PathTree) -> bool
    ensures { result ≡ same.same_path a.now b.now }
{
    a.names == b.names
}

pub fn same_optional_path(a: &Option<PathTree>, b: &Option<PathTree>) -> bool
    ensures { result ≡ same.same_optional_path a.now b.now }
{
    let Some(a) = a else {
        return b.is_none();
    };
    let Some(b) = b else {
        return false;
    };
    same_path(a, b)
}

pub fn same_optional_text(a: &Option<Text>, b: &Option<Text>) -> bool
    ensures { result ≡ same.same_optional_text a.now b.now }
{
    let Some(a) = a else {
        return b.is_none();
    };
    let Some(b) = b else {
        return false;
    };
    same_text(a, b)
}

fn same_variable(a: &ObjectVar, b: &ObjectVar) -> bool
    ensures { result ≡ same.same_variable a.now b.now }
{
    let ObjectVar::Named { name, .. } = a else {
        return match b {
            ObjectVar::Named { .. } => false,
            ObjectVar::ResultVar { .. } => true,
        };
    };
    let ObjectVar::Named { name: other, .. } = b else {
        return false;
    };
    same_text(name, other)
}

pub fn same_optional_variable(a: &Option<ObjectVar>, b: &Option<ObjectVar>) -> bool
    ensures { result ≡ same.same_optional_variable a.now b.now }
{
    let Some(a) = a else {
        return b.is_none();
    };
    let Some(b) = b else {
        return false;
    };
    same_variable(a, b)
}

pub fn same_type(a: &TypeTree, b: &TypeTree) -> bool
    ensures { result ≡ same.same_type (view.type_view a.now) (view.type_view b.now) }
{
    match a {
        TypeTree::Coll { kind, item, .. } => {
            let TypeTree::Coll {
                kind: other_kind,
                item: other,
                ..
            } = b
            else {
                return false;
            };
            *kind == *other_kind && same_type(item, other)
        }
        TypeTree::Path(path) => {
            let TypeTree::Path(other) = b else {
                return false;
            };
            same_path(path, other)
        }
    }
}

pub fn same_optional_type(a: &Option<TypeTree>, b: &Option<TypeTree>) -> bool
    ensures { result ≡ same.same_optional_type (view.optional_type a.now) (view.optional_type b.now) }
{
    let Some(a) = a else {
        return b.is_none();
    };
    let Some(b) = b else {
        return false;
    };
    same_type(a, b)
}

pub fn same_signs(a: &SignList, b: &SignList) -> bool
    ensures { result ≡ same.same_signs a.now b.now }
{
    if a.len() != b.len() {
        return false;
    }
    let xs = a.as_slice();
    let ys = b.as_slice();
    for i in 0..xs.len() {
        if xs[i].op != ys[i].op {
            return false;
        }
    }
    true
}
