//! The names of refusals with what they carry.

ghost use Rattle.std.specs.Prelude.{◌≡◌, IfOk, string_bytes};
ghost use Rattle.qvt_outcome.specs.Outcome.{with_one, with_two, with_place, lex_name, job_text, parse_text, typing_name, typing_text, metamodel_text, metamodels_text, model_fault_text, conform_text};

use qvt_base::numbers::Place;
use qvt_base::text::Text;
use qvt_conform::fault::ConformFault;
use qvt_job::job::JobFault;
use qvt_lexer::token::LexKind;
use qvt_metas::fault::{MetaFault, MetasFault};
use qvt_model::data::ModelFault;
use qvt_parsed::fault::ParseFault;
use qvt_types_data::refusal::{RefusalKind, TypingRefusal};
use std::alloc::{AllocError, Global};

/// A name and what it carries.
pub fn with_one(alloc: Global, name: &str, a: &Text) -> Result<String, AllocError>
    ensures { IfOk result (λ text. string_bytes text ≡ with_one name.now a.now) }
{
    let a = a.as_str();
    format!(in alloc; "{name} {a}")
}

fn with_two(alloc: Global, name: &str, a: &Text, b: &Text) -> Result<String, AllocError>
    ensures { IfOk result (λ text. string_bytes text ≡ with_two name.now a.now b.now) }
{
    let a = a.as_str();
    let b = b.as_str();
    format!(in alloc; "{name} {a} {b}")
}

fn with_place(alloc: Global, name: &str, place: Place) -> Result<String, AllocError>
    ensures { IfOk result (λ text. string_bytes text ≡ with_place name.now place) }
{
    let line = place.line;
    let column = place.column;
    format!(in alloc; "{name} at {line}:{column}")
}

fn lex_name(kind: LexKind) -> &'static str
    ensures { result.now ≡ lex_name kind }
{
    match kind {
        LexKind::BadChar => "BadChar",
        LexKind::OpenText => "OpenText",
        LexKind::OpenComment => "OpenComment",
        LexKind::BadEscape => "BadEscape",
        LexKind::NumberTooLarge => "NumberTooLarge",
    }
}

/// The refusal of a job.
pub fn job_text(alloc: Global, why: &JobFault) -> Result<String, AllocError>
    ensures { IfOk result (λ text. string_bytes text ≡ job_text why.now) }
{
    match why {
        JobFault::NoMemory => String::from_str(alloc, "no memory"),
        JobFault::Json => String::from_str(alloc, "Json"),
        JobFault::Shape(path) => with_one(alloc, "Shape", path),
        JobFault::TooManyFiles => String::from_str(alloc, "TooManyFiles"),
        JobFault::SameFile(file) => with_one(alloc, "SameFile", file),
    }
}

/// The refusal of a text.
pub fn parse_text(alloc: Global, why: &ParseFault) -> Result<String, AllocError>
    ensures { IfOk result (λ text. string_bytes text ≡ parse_text why.now) }
{
    match why {
        ParseFault::NoMemory => String::from_str(alloc, "no memory"),
        ParseFault::Lex(fault) => with_place(alloc, lex_name(fault.kind), fault.place),
        ParseFault::TooDeep(place) => with_place(alloc, "TooDeep", *place),
        ParseFault::Syntax(place) => with_place(alloc, "Syntax", *place),
    }
}

fn typing_name(kind: RefusalKind) -> &'static str
    ensures { result.now ≡ typing_name kind }
{
    match kind {
        RefusalKind::UnknownMetamodel => "UnknownMetamodel",
        RefusalKind::UnknownName => "UnknownName",
        RefusalKind::UnknownType => "UnknownType",
        RefusalKind::SameName => "SameName",
        RefusalKind::Ambiguous => "Ambiguous",
        RefusalKind::WrongType => "WrongType",
        RefusalKind::WrongCount => "WrongCount",
        RefusalKind::NotPure => "NotPure",
        RefusalKind::LatePlace => "LatePlace",
        RefusalKind::NotPlain => "NotPlain",
        RefusalKind::ReuseCycle => "ReuseCycle",
        RefusalKind::BadReuse => "BadReuse",
        RefusalKind::BadOverride => "BadOverride",
        RefusalKind::BadContext => "BadContext",
        RefusalKind::BadTarget => "BadTarget",
        RefusalKind::BadReturn => "BadReturn",
        RefusalKind::BadExtent => "BadExtent",
        RefusalKind::AbstractClass => "AbstractClass",
        RefusalKind::ResultPlace => "ResultPlace",
        RefusalKind::BadDisjunct => "BadDisjunct",
        RefusalKind::ModelUse => "ModelUse",
        RefusalKind::NoMain => "NoMain",
    }
}

/// The refusal of a transformation by its types.
pub fn typing_text(alloc: Global, why: TypingRefusal) -> Result<String, AllocError>
    ensures { IfOk result (λ text. string_bytes text ≡ typing_text why) }
{
    with_place(alloc, typing_name(why.kind), why.place)
}

/// The refusal of a metamodel.
pub fn metamodel_text(alloc: Global, why: &MetaFault) -> Result<String, AllocError>
    ensures { IfOk result (λ text. string_bytes text ≡ metamodel_text why.now) }
{
    match why {
        MetaFault::NoMemory => String::from_str(alloc, "no memory"),
        MetaFault::Json => String::from_str(alloc, "Json"),
        MetaFault::Shape(path) => with_one(alloc, "Shape", path),
        MetaFault::SameName(name) => with_one(alloc, "SameName", name),
        MetaFault::UnknownType(class, name) => with_two(alloc, "UnknownType", class, name),
        MetaFault::InheritanceCycle(class) => with_one(alloc, "InheritanceCycle", class),
        MetaFault::BadBounds(class, feature) => with_two(alloc, "BadBounds", class, feature),
        MetaFault::BadOpposite(class, feature) => with_two(alloc, "BadOpposite", class, feature),
        MetaFault::SameFeature(class, feature) => with_two(alloc, "SameFeature", class, feature),
    }
}

/// The refusal of a metamodel that does not go with those before it.
pub fn metamodels_text(alloc: Global, why: &MetasFault) -> Result<String, AllocError>
    ensures { IfOk result (λ text. string_bytes text ≡ metamodels_text why.now) }
{
    match why {
        MetasFault::NoMemory => String::from_str(alloc, "no memory"),
        MetasFault::SameMetamodel(name) => with_one(alloc, "SameMetamodel", name),
    }
}

/// The refusal of a model.
pub fn model_fault_text(alloc: Global, why: &ModelFault) -> Result<String, AllocError>
    ensures { IfOk result (λ text. string_bytes text ≡ model_fault_text why.now) }
{
    match why {
        ModelFault::NoMemory => String::from_str(alloc, "no memory"),
        ModelFault::Json => String::from_str(alloc, "Json"),
        ModelFault::Shape(path) => with_one(alloc, "Shape", path),
        ModelFault::SameId(id) => with_one(alloc, "SameId", id),
        ModelFault::UnknownClass(id) => with_one(alloc, "UnknownClass", id),
        ModelFault::UnknownFeature(id) => with_one(alloc, "UnknownFeature", id),
        ModelFault::WrongValue(id, feature) => with_two(alloc, "WrongValue", id, feature),
        ModelFault::DanglingId(id, feature) => with_two(alloc, "DanglingId", id, feature),
    }
}

/// The refusal of a model that does not conform.
pub fn conform_text(alloc: Global, why: &ConformFault) -> Result<String, AllocError>
    ensures { IfOk result (λ text. string_bytes text ≡ conform_text why.now) }
{
    match why {
        ConformFault::NoMemory => String::from_str(alloc, "no memory"),
        ConformFault::Abstract(id) => with_one(alloc, "Abstract", id),
        ConformFault::Bounds(id, feature) => with_two(alloc, "Bounds", id, feature),
        ConformFault::NotUnique(id, feature) => with_two(alloc, "NotUnique", id, feature),
        ConformFault::Opposite(id, feature) => with_two(alloc, "Opposite", id, feature),
        ConformFault::TwoContainers(id) => with_one(alloc, "TwoContainers", id),
        ConformFault::ContainmentCycle(id) => with_one(alloc, "ContainmentCycle", id),
    }
}
