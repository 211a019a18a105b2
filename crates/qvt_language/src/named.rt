use qvt_base::lists::NameList;
use qvt_base::numbers::Place;
use qvt_base::text::Text;

/// A name with its place.
#[derive(Drop)]
pub struct Named {
    pub text: Text,
    pub place: Place,
}

/// The path of a unit, with the place of its last name.
#[derive(Drop)]
pub struct UnitPath {
    pub names: NameList,
    pub place: Place,
}
