//! Lists of expressions.

ghost use Rattle.std.specs.Prelude.{◌≡◌, ◌++◌, ◌∷◌, [], Some, OnOk};
ghost use Rattle.qvt_types_nodes.specs.View.{typed_expr_view};
ghost use Rattle.qvt_meaning.specs.Numbered as numbered;
ghost use Rattle.qvt_program_exprs.specs.Listing.{filter_view, listing};

use qvt_base::list_fault::ListFault;
use qvt_base::seq::Seq;
use qvt_base::text::Text;
use qvt_types_nodes::tree::TypedExpr;

/// The variable of the filter whose condition an expression is.
#[derive(Clone, Copy)]
pub enum FilterName<'a> {
    /// It is no condition of a filter.
    NoFilter,
    /// The filter has no variable.
    Unnamed,
    Named(&'a Text),
}

/// An expression of a program.
#[derive(Clone, Copy)]
pub struct ListedExpr<'a> {
    pub filter: FilterName<'a>,
    pub expr: &'a TypedExpr,
}

/// Expressions, in the order of the text.
pub type ListedExprList<'a> = Seq<ListedExpr<'a>>;

/// Puts the expression last.
#[tactic(auto, unfolding(crate::specs::Listing::listing))]
pub fn add<'a>(
    filter: FilterName<'a>,
    expr: &'a TypedExpr,
    all: &mut ListedExprList<'a>,
) -> Result<(), ListFault>
    ensures { OnOk result (listing all.new ≡ listing all.old ++ numbered.listed (filter_view filter.entry) (typed_expr_view expr.now) ∷ []) }
{
    all.push(ListedExpr { filter, expr })
}

/// The variable of a filter.
pub fn filter_name<'a>(name: &'a Option<Text>) -> FilterName<'a>
    ensures { filter_view result ≡ Some name.now }
{
    match name {
        None => FilterName::Unnamed,
        Some(name) => FilterName::Named(name),
    }
}
