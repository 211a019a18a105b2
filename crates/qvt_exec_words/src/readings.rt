//! What steps with a class ask, by their names (OCL 2.4, 11.3.3; QVT 1.3, 8.3.4).

ghost use Rattle.std.specs.Prelude.{◌≡◌};
ghost use Rattle.qvt_run_rules.specs.Questions.{object_test, model_query, named_query};

use qvt_run_rules::classes::{ClassTest, ModelCall};
use qvt_run_rules::questions::{ModelQuery, ObjectTest};

/// The question that a test or cast asks of objects.
pub fn object_test(test: ClassTest) -> ObjectTest
    ensures { result ≡ object_test test }
{
    match test {
        ClassTest::IsKindOf => ObjectTest::IsKindOf,
        ClassTest::IsTypeOf => ObjectTest::IsTypeOf,
        ClassTest::AsType => ObjectTest::AsType,
    }
}

/// The question that an operation of a model asks, with a class where it takes one.
pub fn model_query(call: ModelCall, class: Option<u32>) -> Option<ModelQuery>
    ensures { result ≡ model_query call class }
{
    match call {
        ModelCall::Objects => Some(ModelQuery::Objects),
        ModelCall::RootObjects => Some(ModelQuery::RootObjects),
        ModelCall::ObjectsOfType => match class {
            Some(class) => Some(ModelQuery::ObjectsOfType(class)),
            None => None,
        },
    }
}

/// The same of a name that may be no operation of a model.
pub fn named_query(call: Option<ModelCall>, class: Option<u32>) -> Option<ModelQuery>
    ensures { result ≡ named_query call class }
{
    match call {
        Some(call) => model_query(call, class),
        None => None,
    }
}
