ghost use Rattle.std.specs.Prelude.{◌≡◌, None};

use qvt_meta_tables::tables::Tables;
use qvt_metamodel::info::{ClassInfo, FeatureInfo, MetamodelInfo};
use qvt_metamodel::lists::FeatureLists;
use qvt_metamodel::row::Row;
use std::marker::Model;

/// Metamodels with numbers, without Element and without the look-ups by name.
pub struct Numbered {
    pub(crate) metamodels: Vec<MetamodelInfo>,
    pub(crate) classes: Vec<ClassInfo>,
    pub(crate) features: Vec<FeatureInfo>,
    pub(crate) lists: FeatureLists,
    pub(crate) rows: Vec<Row>,
    pub(crate) ranks: Vec<u32>,
}

impl Drop for Numbered {
    fn drop(self) {
        let Numbered {
            metamodels,
            classes,
            features,
            lists,
            rows,
            ranks,
        } = self;
    }
}

impl Model for Numbered {
    ghost use Rattle.std.specs.Prelude.{None};
    ghost use Rattle.qvt_metamodel.specs.Metamodels.{Metamodels};
    ghost use Rattle.qvt_metamodel.specs.Kept.{IsKept};
    ghost use Rattle.qvt_metamodel.specs.Lists.{all_lists};

    ghost Value = { Metamodels };

    ghost view = { λ n. record { metamodels = n.metamodels.items; classes = n.classes.items; features = n.features.items; element = None } };

    ghost invariant = { λ n. IsKept (record { metamodels = n.metamodels.items; classes = n.classes.items; features = n.features.items; element = None }) (all_lists n.lists) n.rows.items n.ranks.items };
}

impl Numbered {
    ghost use Rattle.qvt_metamodel.specs.Metamodels.{Metamodels};
    ghost use Rattle.qvt_metamodel.specs.Kept.{IsKept};
    ghost use Rattle.qvt_metamodel.specs.Lists.{all_lists};

    /// The metamodels of these parts. It takes no memory.
    pub fn from_parts(
        metamodels: Vec<MetamodelInfo>,
        classes: Vec<ClassInfo>,
        features: Vec<FeatureInfo>,
        tables: Tables,
    ) -> Numbered
        requires { IsKept (record { metamodels = metamodels.items; classes = classes.items; features = features.items; element = None }) (all_lists tables.lists) tables.rows.items tables.ranks.items }
        ensures { result ≡ record { metamodels = metamodels.items; classes = classes.items; features = features.items; element = None } }
    {
        let Tables { lists, rows, ranks } = tables;
        Numbered {
            metamodels,
            classes,
            features,
            lists,
            rows,
            ranks,
        }
    }
}
