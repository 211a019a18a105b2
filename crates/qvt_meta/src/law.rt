ghost use Rattle.qvt_meta.specs.Named.{MetaHasName};

/// A law: a metamodel that is read has a name. It does nothing.
pub fn meta_has_name()
    ensures { MetaHasName }
{}
