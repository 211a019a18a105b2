ghost use Rattle.std.specs.Prelude.{IsTrue};
ghost use Rattle.std.specs.Str.{is_utf8};
ghost use Rattle.std.specs.List.{list_all};
ghost use Rattle.qvt_metamodel.specs.Checked.{has_text, has_texts, are_texts};

use qvt_base::text::Text;
use qvt_metamodel::declared::{DeclaredClass, DeclaredFeature, MetaData};
use qvt_metamodel::info::EnumInfo;

/// The name of a feature is a text.
fn feature_has_text(feature: &DeclaredFeature)
    ensures { IsTrue (has_text feature.now) }
{
    let _name = feature.name.as_str();
}

fn features_have_texts(features: &[DeclaredFeature])
    ensures { IsTrue (list_all has_text features.now) }
{
    for feature in features {
        feature_has_text(feature);
    }
}

fn class_has_texts(class: &DeclaredClass)
    ensures { IsTrue (has_texts class.now) }
{
    let _name = class.name.as_str();
    features_have_texts(class.features.as_slice());
}

fn classes_have_texts(classes: &[DeclaredClass])
    ensures { IsTrue (list_all has_texts classes.now) }
{
    for class in classes {
        class_has_texts(class);
    }
}

fn text_is_text(text: &Text)
    ensures { IsTrue (is_utf8 text.now) }
{
    let _text = text.as_str();
}

fn are_texts(texts: &[Text])
    ensures { IsTrue (list_all is_utf8 texts.now) }
{
    for text in texts {
        text_is_text(text);
    }
}

fn enum_has_texts(item: &EnumInfo)
    ensures { IsTrue (are_texts item.now) }
{
    text_is_text(&item.name);
    are_texts(item.literals.as_slice());
}

fn enums_have_texts(enums: &[EnumInfo])
    ensures { IsTrue (list_all are_texts enums.now) }
{
    for item in enums {
        enum_has_texts(item);
    }
}

/// All names are texts.
pub fn have_texts(meta: &MetaData)
    ensures name { IsTrue (is_utf8 meta.now.name) }
    ensures classes { IsTrue (list_all has_texts meta.now.classes) }
    ensures enums { IsTrue (list_all are_texts meta.now.enums) }
{
    text_is_text(&meta.name);
    classes_have_texts(meta.classes.as_slice());
    enums_have_texts(meta.enums.as_slice());
}
