ghost use Rattle.qvt_model.specs.Forms.{object_form, model_form};

use qvt_base::list_fault::ListFault;
use qvt_base::text::Text;
use qvt_json::leaves::{IdForm, ObjectForm, TextForm};
use qvt_json::shape::{Form, ListOf, optional_fault, required_fault};
use qvt_json::value::has_only;
use serde_json::Value;
use std::alloc::Global;

/// An object of a model.
pub struct ModelObjectForm {}

impl Form for ModelObjectForm {
    ghost form = { λ f. object_form };

    #[tactic(auto, unfolding(crate::specs::Forms::object_form))]
    fn fault(&self, alloc: Global, value: &Value) -> Result<Option<Text>, ListFault> {
        if !has_only(value, &["class", "id", "slots"]) {
            return Ok(Some(Text::new(alloc)));
        }
        if let Some(path) = required_fault(alloc, value, "class", &TextForm {})? {
            return Ok(Some(path));
        }
        if let Some(path) = required_fault(alloc, value, "id", &IdForm {})? {
            return Ok(Some(path));
        }
        optional_fault(alloc, value, "slots", &ObjectForm {})
    }
}

/// A model.
pub struct ModelForm {}

impl Form for ModelForm {
    ghost form = { λ f. model_form };

    #[tactic(auto, unfolding(crate::specs::Forms::model_form))]
    fn fault(&self, alloc: Global, value: &Value) -> Result<Option<Text>, ListFault> {
        if !has_only(value, &["objects"]) {
            return Ok(Some(Text::new(alloc)));
        }
        required_fault(
            alloc,
            value,
            "objects",
            &ListOf {
                item: ModelObjectForm {},
            },
        )
    }
}
