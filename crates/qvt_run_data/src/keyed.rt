ghost use Rattle.std.specs.Prelude.{◌≡◌};

use qvt_value::value::Value;

/// An item with its sort key.
pub struct Keyed {
    pub key: Value,
    pub item: Value,
}

impl Drop for Keyed {
    fn drop(self) {
        let Keyed { key, item } = self;
    }
}

impl Keyed {
    /// The item alone.
    pub fn into_item(self) -> Value
        ensures { result ≡ self.item }
    {
        let Keyed { key, item } = self;
        item
    }
}
