use qvt_base::numbers::{ExprNo, Place};
use qvt_base::seq::Seq;
use qvt_run_data::local::Local;
use qvt_run_data::request::Request;

/// What is asked of a trace and a store: a request, whether one object is wanted, the number of the condition if
/// it has one, the variables in scope in it, and the place of what asks.
#[derive(Clone, Copy)]
pub struct Question<'q> {
    pub request: &'q Request,
    pub one: bool,
    pub condition: Option<ExprNo>,
    pub locals: &'q Seq<Local>,
    pub place: Place,
}
