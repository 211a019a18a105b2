ghost use Rattle.std.specs.Prelude.{◌≡◌, [], None};

use crate::numbered::Numbered;
use qvt_base::text::Text;
use qvt_metamodel::declared::MetaData;
use std::marker::Model;

/// A metamodel that was read and checked.
pub struct Meta {
    meta: MetaData,
    alone: Numbered,
}

impl Drop for Meta {
    fn drop(self) {
        let Meta { meta, alone } = self;
    }
}

impl Model for Meta {
    ghost use Rattle.qvt_metamodel.specs.declared.declared.MetaData.{MetaData};
    ghost use Rattle.qvt_metamodel.specs.Numbered.{IsMeta};

    ghost Value = { MetaData };

    ghost view = { λ m. m.meta };

    ghost invariant = { λ m. IsMeta m.meta m.alone };
}

impl Meta {
    ghost use Rattle.qvt_metamodel.specs.Added.{numbered, HasRoom};
    ghost use Rattle.qvt_metamodel.specs.Numbered.{IsMeta};

    /// The metamodel of this data, which passed the checks, and of the same with numbers.
    pub fn from_parts(meta: MetaData, alone: Numbered) -> Meta
        requires { IsMeta meta alone }
        ensures { result ≡ meta }
    {
        Meta { meta, alone }
    }

    pub fn name(&self) -> &Text
        ensures { result.now ≡ self.now.name }
    {
        &self.meta.name
    }

    /// The metamodel with numbers from 0 on.
    pub fn alone(&self) -> &Numbered
        ensures { result.now ≡ numbered self.now }
    {
        &self.alone
    }

    /// A law: its numbers, from 0 on, fit 32 bits. So it can be added where no metamodels are.
    pub fn fits(&self)
        ensures { HasRoom (record { metamodels = []; classes = []; features = []; element = None }) self.now }
    {
        let alone = &self.alone;
        let _classes = alone.classes.len();
    }
}
