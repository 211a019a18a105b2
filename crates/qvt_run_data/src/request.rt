use qvt_base::lists::{MappingList, OidList};
use qvt_base::numbers::{ClassNo, ExprNo};

/// What a resolve looks for (QVT 1.3, 8.1.10 and 8.2.1.22).
pub struct Request {
    /// The contexts of records by their results, and not the results by their contexts.
    pub inverse: bool,
    /// The mappings whose records alone are looked at: the named one and those it disjuncts to.
    pub within: Option<MappingList>,
    /// None is a missing source: all records.
    pub sources: Option<OidList>,
    pub class: ClassNo,
}

impl Drop for Request {
    fn drop(self) {
        let Request {
            inverse,
            within,
            sources,
            class,
        } = self;
    }
}

/// What a resolve asks: a request, whether one object is wanted, and the number of the condition if it
/// has one.
pub struct Query {
    pub request: Request,
    pub one: bool,
    pub condition: Option<ExprNo>,
}

impl Drop for Query {
    fn drop(self) {
        let Query {
            request,
            one,
            condition,
        } = self;
    }
}

/// A resolve as it is written. Its sources come with its run.
pub struct RequestForm {
    pub inverse: bool,
    pub within: Option<MappingList>,
    pub class: u32,
    pub one: bool,
    pub condition: Option<ExprNo>,
}

impl Drop for RequestForm {
    fn drop(self) {
        let RequestForm {
            inverse,
            within,
            class,
            one,
            condition,
        } = self;
    }
}
