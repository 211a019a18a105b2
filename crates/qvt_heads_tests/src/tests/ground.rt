//! The metamodels that the tests stand on.

ghost use Rattle.std.specs.Prelude.{◌≡◌, None, IfOk};

use qvt_meta::meta::read_meta;
use qvt_metas::metas::Metas;
use std::alloc::Global;
use std::test::Fail;

/// Shapes: a class without objects, two below it, and one below these two; what holds shapes; and a color.
const SHAPES: &str = "{\"classes\":[\
    {\"abstract\":true,\"features\":[{\"lower\":1,\"name\":\"name\",\"type\":\"String\"}],\"name\":\"Shape\"},\
    {\"features\":[{\"name\":\"radius\",\"type\":\"Integer\"}],\"name\":\"Circle\",\"supers\":[\"Shape\"]},\
    {\"features\":[{\"name\":\"side\",\"type\":\"Integer\"}],\"name\":\"Square\",\"supers\":[\"Shape\"]},\
    {\"name\":\"Both\",\"supers\":[\"Circle\",\"Square\"]},\
    {\"features\":[\
    {\"containment\":true,\"name\":\"shapes\",\"ordered\":true,\"type\":\"Shape\",\"upper\":\"*\"},\
    {\"name\":\"color\",\"type\":\"Color\"},\
    {\"name\":\"tags\",\"type\":\"String\",\"unique\":false,\"upper\":\"*\"},\
    {\"name\":\"next\",\"type\":\"Box\"}],\"name\":\"Box\"}],\
    \"enums\":[{\"literals\":[\"red\",\"green\"],\"name\":\"Color\"}],\
    \"name\":\"M\"}";

/// Circles of another metamodel.
const CIRCLES: &str = "{\"classes\":[\
    {\"features\":[{\"name\":\"area\",\"type\":\"Integer\"}],\"name\":\"Circle\"},\
    {\"name\":\"Node\"}],\
    \"name\":\"N\",\"uri\":\"http://n\"}";

fn with(metas: Metas, alloc: Global, text: &str) -> Result<Metas, Fail>
    requires { metas.element ≡ None }
    ensures { IfOk result (λ m. m.element ≡ None) }
{
    let Ok(meta) = read_meta(alloc, text.as_bytes()) else {
        return Err(Fail::new("a metamodel that is refused"));
    };
    if !metas.has_room(&meta) {
        return Err(Fail::new("no room for the metamodel"));
    }
    let mut metas = metas;
    match metas.add(meta) {
        Ok(()) => Ok(metas),
        Err(_) => Err(Fail::new("no memory for the metamodel")),
    }
}

/// The two metamodels: M has the classes 0 to 4, N the classes 5 and 6.
pub fn metas(alloc: Global) -> Result<Metas, Fail>
    ensures { IfOk result (λ m. m.element ≡ None) }
{
    let metas = Metas::new(alloc);
    let metas = with(metas, alloc, SHAPES)?;
    with(metas, alloc, CIRCLES)
}

/// What stands before the first bar of a line, and behind it.
pub fn before(line: &str) -> Result<(&str, &str), Fail> {
    match line.split_once(" | ") {
        Some(parts) => Ok(parts),
        None => Err(Fail::new("a line without a bar")),
    }
}
