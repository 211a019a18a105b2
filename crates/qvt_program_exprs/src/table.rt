//! The expressions of a program by their numbers.

ghost use Rattle.std.specs.Prelude.{◌≡◌, option_map, IfOk};
ghost use Rattle.std.specs.List.{find};
ghost use Rattle.std.specs.Option.{option_copied};
ghost use Rattle.qvt_types_nodes.specs.View.{typed_expr_view};
ghost use Rattle.qvt_types_program.specs.Program.{program_view};
ghost use Rattle.qvt_meaning.specs.Numbered as numbered;
ghost use Rattle.qvt_program_exprs.specs.Listing.{filter_view, listed_view};
ghost use Rattle.qvt_program_exprs.specs.Table.{IsTable, condition_view};

use crate::index::{PlaceList, place_under, places_of};
use crate::listed::{FilterName, ListedExpr, ListedExprList};
use crate::units::all_exprs;
use qvt_base::list_fault::ListFault;
use qvt_base::numbers::ExprNo;
use qvt_base::text::Text;
use qvt_types_nodes::tree::TypedExpr;
use qvt_types_program::program::Program;
use std::alloc::Global;

/// The condition of a filter.
#[derive(Clone, Copy)]
pub struct Condition<'a> {
    /// The variable of the filter, if that has one.
    pub variable: Option<&'a Text>,
    pub expr: &'a TypedExpr,
}

/// A program with its expressions, each found by its number in constant time.
pub struct Expressions<'a> {
    program: &'a Program,
    all: ListedExprList<'a>,
    places: PlaceList,
}

impl<'a> Drop for Expressions<'a> {
    fn drop(self) {
        let Expressions {
            program,
            all,
            places,
        } = self;
    }
}

impl<'a> Expressions<'a> {
    /// Those of this program. It is refused as out of memory too where there are more than 32 bits can number.
    pub fn new(alloc: Global, program: &'a Program) -> Result<Expressions<'a>, ListFault>
        ensures program { IfOk result (λ es. es.program.now ≡ program.now) }
        ensures table { IfOk result (λ es. IsTable es) }
    {
        let all = all_exprs(alloc, program)?;
        let places = places_of(alloc, all.as_slice())?;
        Ok(Expressions {
            program,
            all,
            places,
        })
    }

    /// The program whose expressions they are.
    pub fn program(&self) -> &'a Program
        ensures { result.now ≡ self.now.program.now }
    {
        self.program
    }

    /// What is listed under this number.
    fn listed(&self, number: ExprNo) -> Option<ListedExpr<'a>>
        requires { IsTable self.now }
        ensures { option_map listed_view result ≡ find (numbered.has_number number) (numbered.all_listed (program_view self.now.program.now)) }
    {
        match place_under(self.places.as_slice(), number.0) {
            None => None,
            Some(place) => self.all.get(place as usize).copied(),
        }
    }

    /// The expression of this number. It takes no memory.
    pub fn expr(&self, number: ExprNo) -> Option<&'a TypedExpr>
        requires { IsTable self.now }
        ensures { option_map typed_expr_view (option_copied result) ≡ numbered.expr_at (program_view self.now.program.now) number }
    {
        match self.listed(number) {
            None => None,
            Some(listed) => Some(listed.expr),
        }
    }

    /// The condition of this number, with the variable of its filter. It takes no memory.
    pub fn condition(&self, number: ExprNo) -> Option<Condition<'a>>
        requires { IsTable self.now }
        ensures { option_map condition_view result ≡ numbered.condition_at (program_view self.now.program.now) number }
    {
        match self.listed(number) {
            None => None,
            Some(listed) => condition_of(listed),
        }
    }
}

/// The condition that a listed expression is.
fn condition_of<'a>(listed: ListedExpr<'a>) -> Option<Condition<'a>>
    ensures { option_map condition_view result ≡ numbered.condition_of (typed_expr_view listed.entry.expr.now) (filter_view listed.entry.filter) }
{
    let expr = listed.expr;
    match listed.filter {
        FilterName::NoFilter => None,
        FilterName::Unnamed => Some(Condition {
            variable: None,
            expr,
        }),
        FilterName::Named(name) => Some(Condition {
            variable: Some(name),
            expr,
        }),
    }
}
