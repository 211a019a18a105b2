ghost use Rattle.std.specs.Prelude.{◌≡◌};

use qvt_base::list_fault::ListFault;
use qvt_base::numbers::{ClassNo, FeatureNo};
use qvt_base::seq::Seq;
use qvt_base::text::Text;
use qvt_value::value::LiteralRef;

/// An item of a slot.
#[derive(PartialEq, Eq, Hash)]
pub enum Datum {
    Bool(bool),
    Int(i64),
    Str(Text),
    Literal(LiteralRef),
    /// The position of an object in its model, from 0.
    Ref(u32),
}

impl Drop for Datum {
    fn drop(self) {
        match self {
            Datum::Bool(flag) => {}
            Datum::Int(number) => {}
            Datum::Str(text) => {}
            Datum::Literal(literal) => {}
            Datum::Ref(place) => {}
        }
    }
}

pub type DatumList = Seq<Datum>;

/// What an object holds for a feature.
pub struct SlotData {
    pub feature: FeatureNo,
    pub items: DatumList,
}

impl Drop for SlotData {
    fn drop(self) {
        let SlotData { feature, items } = self;
    }
}

pub type SlotList = Seq<SlotData>;

/// An object of a model: its slots that are not empty, in byte order of the features' names.
pub struct ObjectData {
    pub class: ClassNo,
    pub id: Text,
    pub slots: SlotList,
}

impl Drop for ObjectData {
    fn drop(self) {
        let ObjectData { class, id, slots } = self;
    }
}

pub type ObjectList = Seq<ObjectData>;

/// The data of a model: its objects in the order of its file.
pub struct ModelData {
    pub objects: ObjectList,
}

impl Drop for ModelData {
    fn drop(self) {
        let ModelData { objects } = self;
    }
}

/// Why a file is no model of a metamodel. The checks stand in the order in which they are made.
pub enum ModelFault {
    /// There was no memory.
    NoMemory,
    /// The file has no JSON value.
    Json,
    /// The value is not of the form of a model. The path names the first fault.
    Shape(Text),
    /// An earlier object has this id.
    SameId(Text),
    /// The object of this id has a class that the metamodel lacks.
    UnknownClass(Text),
    /// The object of this id has a slot that is no feature of its class.
    UnknownFeature(Text),
    /// The object of this id holds for this feature what is not of the feature's type.
    WrongValue(Text, Text),
    /// The object of this id refers by this feature to an object that is not there.
    DanglingId(Text, Text),
}

impl Drop for ModelFault {
    fn drop(self) {
        match self {
            ModelFault::NoMemory => {}
            ModelFault::Json => {}
            ModelFault::Shape(path) => {}
            ModelFault::SameId(id) => {}
            ModelFault::UnknownClass(id) => {}
            ModelFault::UnknownFeature(id) => {}
            ModelFault::WrongValue(id, feature) => {}
            ModelFault::DanglingId(id, feature) => {}
        }
    }
}

impl From<ListFault> for ModelFault {
    ghost use Rattle.qvt_model.specs.declared.data.ModelFault.TheVariants.{NoMemory};

    ghost from_gives = { λ _ e. e ≡ NoMemory };

    fn from(_: ListFault) -> ModelFault {
        ModelFault::NoMemory
    }
}
