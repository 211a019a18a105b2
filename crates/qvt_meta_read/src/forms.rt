//! The forms of a metamodel's file.

ghost use Rattle.std.specs.Prelude.{◌≡◌};
ghost use Rattle.serde_json.specs.View.{view};
ghost use Rattle.qvt_json.specs.Shape.{leaf};
ghost use Rattle.qvt_meta_read.specs.MetaForm.{name_form, is_upper, feature_form, class_form, enum_form, meta_form};

use qvt_base::list_fault::ListFault;
use qvt_base::names::is_name;
use qvt_base::text::Text;
use qvt_json::leaves::{CountForm, FileForm, FlagForm};
use qvt_json::shape::{Form, ListOf, optional_fault, required_fault};
use qvt_json::value::has_only;
use serde_json::Value;
use std::alloc::Global;

/// How large a bound of a feature is at most.
pub(crate) const MOST_BOUND: u64 = 1_000_000;

/// A name.
pub struct MetaNameForm {}

impl Form for MetaNameForm {
    ghost form = { λ f. name_form };

    fn fault(&self, alloc: Global, value: &Value) -> Result<Option<Text>, ListFault> {
        let Some(text) = value.as_str() else {
            return Ok(Some(Text::new(alloc)));
        };
        if is_name(text) {
            return Ok(None);
        }
        Ok(Some(Text::new(alloc)))
    }
}

fn is_upper(value: &Value) -> bool
    ensures { result ≡ is_upper (view value.now) }
{
    match value.as_u64() {
        Some(number) => 1 <= number && number <= MOST_BOUND,
        None => match value.as_str() {
            Some(text) => "*" == text,
            None => false,
        },
    }
}

/// An upper bound: a whole number from 1 to `MOST_BOUND`, or `*`.
pub struct UpperForm {}

impl Form for UpperForm {
    ghost form = { λ f. leaf is_upper };

    fn fault(&self, alloc: Global, value: &Value) -> Result<Option<Text>, ListFault> {
        if is_upper(value) {
            return Ok(None);
        }
        Ok(Some(Text::new(alloc)))
    }
}

/// A feature of a class.
pub struct FeatureForm {}

impl Form for FeatureForm {
    ghost form = { λ f. feature_form };

    #[tactic(auto, unfolding(crate::specs::MetaForm::feature_form))]
    fn fault(&self, alloc: Global, value: &Value) -> Result<Option<Text>, ListFault> {
        if !has_only(
            value,
            &[
                "containment",
                "lower",
                "name",
                "opposite",
                "ordered",
                "type",
                "unique",
                "upper",
            ],
        ) {
            return Ok(Some(Text::new(alloc)));
        }
        if let Some(path) = optional_fault(alloc, value, "containment", &FlagForm {})? {
            return Ok(Some(path));
        }
        if let Some(path) = optional_fault(
            alloc,
            value,
            "lower",
            &CountForm {
                low: 0,
                high: MOST_BOUND,
            },
        )? {
            return Ok(Some(path));
        }
        if let Some(path) = required_fault(alloc, value, "name", &MetaNameForm {})? {
            return Ok(Some(path));
        }
        if let Some(path) = optional_fault(alloc, value, "opposite", &MetaNameForm {})? {
            return Ok(Some(path));
        }
        if let Some(path) = optional_fault(alloc, value, "ordered", &FlagForm {})? {
            return Ok(Some(path));
        }
        if let Some(path) = required_fault(alloc, value, "type", &MetaNameForm {})? {
            return Ok(Some(path));
        }
        if let Some(path) = optional_fault(alloc, value, "unique", &FlagForm {})? {
            return Ok(Some(path));
        }
        optional_fault(alloc, value, "upper", &UpperForm {})
    }
}

/// A class.
pub struct ClassForm {}

impl Form for ClassForm {
    ghost form = { λ f. class_form };

    #[tactic(auto, unfolding(crate::specs::MetaForm::class_form))]
    fn fault(&self, alloc: Global, value: &Value) -> Result<Option<Text>, ListFault> {
        if !has_only(value, &["abstract", "features", "name", "supers"]) {
            return Ok(Some(Text::new(alloc)));
        }
        if let Some(path) = optional_fault(alloc, value, "abstract", &FlagForm {})? {
            return Ok(Some(path));
        }
        if let Some(path) = optional_fault(
            alloc,
            value,
            "features",
            &ListOf {
                item: FeatureForm {},
            },
        )? {
            return Ok(Some(path));
        }
        if let Some(path) = required_fault(alloc, value, "name", &MetaNameForm {})? {
            return Ok(Some(path));
        }
        optional_fault(
            alloc,
            value,
            "supers",
            &ListOf {
                item: MetaNameForm {},
            },
        )
    }
}

/// An enumeration.
pub struct EnumForm {}

impl Form for EnumForm {
    ghost form = { λ f. enum_form };

    #[tactic(auto, unfolding(crate::specs::MetaForm::enum_form))]
    fn fault(&self, alloc: Global, value: &Value) -> Result<Option<Text>, ListFault> {
        if !has_only(value, &["literals", "name"]) {
            return Ok(Some(Text::new(alloc)));
        }
        if let Some(path) = required_fault(
            alloc,
            value,
            "literals",
            &ListOf {
                item: MetaNameForm {},
            },
        )? {
            return Ok(Some(path));
        }
        required_fault(alloc, value, "name", &MetaNameForm {})
    }
}

/// A metamodel.
pub struct MetaForm {}

impl Form for MetaForm {
    ghost form = { λ f. meta_form };

    #[tactic(auto, unfolding(crate::specs::MetaForm::meta_form))]
    fn fault(&self, alloc: Global, value: &Value) -> Result<Option<Text>, ListFault> {
        if !has_only(value, &["classes", "enums", "name", "uri"]) {
            return Ok(Some(Text::new(alloc)));
        }
        if let Some(path) = required_fault(
            alloc,
            value,
            "classes",
            &ListOf { item: ClassForm {} },
        )? {
            return Ok(Some(path));
        }
        if let Some(path) = optional_fault(alloc, value, "enums", &ListOf { item: EnumForm {} })? {
            return Ok(Some(path));
        }
        if let Some(path) = required_fault(alloc, value, "name", &MetaNameForm {})? {
            return Ok(Some(path));
        }
        optional_fault(alloc, value, "uri", &FileForm {})
    }
}
