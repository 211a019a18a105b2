//! A metamodel, and the extent of one model of it.

ghost use Rattle.std.specs.Prelude.{◌≡◌, [], None, IfSome};
ghost use Rattle.qvt_metas.specs.Added.{HasRoom};

use qvt_base::seq::Seq;
use qvt_base::text::Text;
use qvt_meta::meta::read_meta;
use qvt_metas::meta::Meta;
use qvt_metas::metas::Metas;
use qvt_store::extent::{Extent, ExtentList};
use std::alloc::Global;

fn only(alloc: Global, meta: Meta) -> Option<Metas>
    requires { HasRoom (record { metamodels = []; classes = []; features = []; element = None }) meta }
    ensures { IfSome result (λ m. m.element ≡ None) }
{
    let mut metas = Metas::new(alloc);
    metas.add(meta).ok()?;
    Some(metas)
}

/// The metamodel of a file, alone.
pub fn metas_of(alloc: Global, bytes: &[u8]) -> Option<Metas>
    ensures { IfSome result (λ m. m.element ≡ None) }
{
    let meta = read_meta(alloc, bytes).ok()?;
    meta.fits();
    only(alloc, meta)
}

/// One extent, which is written, of the first metamodel.
pub fn one_model(alloc: Global) -> Option<ExtentList> {
    let mut extents = Seq::new(alloc);
    let model = Extent {
        name: Text::from_str(alloc, "m").ok()?,
        metamodel: 0,
        writable: true,
    };
    extents.push(model).ok()?;
    Some(extents)
}
